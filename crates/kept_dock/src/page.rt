// What a store's answers have to be, whatever store it is.
ghost use Rattle.std.specs.Prelude.{◌≡◌, ◌↔◌, ◌<◌, ◌^◌, IsTrue, length};
ghost use Rattle.std.specs.List.{AllByRecursion};
ghost use Rattle.outside.specs.Dock.{IsPage, IsPlace};

use outside::Unmerged;

/// Whether this is a page of at most `most` rows behind a mark.
pub fn is_page(page: &Unmerged, mark: u64, most: u32) -> bool
    ensures { IsTrue result ↔ IsPage mark most page.now }
{
    let count = page.rows.len();
    let is_behind = if count > 0 {
        mark < page.mark
    } else {
        page.mark == mark && !page.more
    };
    is_behind && page.mark < 1 << 63 && count <= most as usize
}

/// Whether each of these is a place.
pub fn are_places(marks: &[u64]) -> bool
    ensures { IsTrue result ↔ AllByRecursion IsPlace marks.now }
{
    marks.iter().all(|mark| *mark < 1 << 63)
}
