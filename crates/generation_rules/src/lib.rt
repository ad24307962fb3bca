//! The rules on generations: which rows of a stream are shown, which loads are hidden, and which generation comes next.
#![tactic(auto)]

ghost use Rattle.std.specs.Prelude.{◌≡◌, ◌<◌, ◌↔◌, IsTrue};
ghost use Rattle.outside.specs.Tables.{floor_of};
ghost use Rattle.generation_rules.specs.Generations.{next_of};

use basics::GREATEST_GENERATION;

/// The floor that a stream has once it is shown: rows of lesser generations are gone. It never falls.
pub fn floor(stored: u64, minimum: u64) -> u64
    ensures { result ≡ floor_of stored minimum }
{
    stored.max(minimum)
}

/// Whether a load is to hide its rows until it is complete: its minimum is above the floor, so rows that are shown now
/// will go.
pub fn must_hide(stored: u64, minimum: u64) -> bool
    ensures { IsTrue result ↔ (stored < minimum) }
{
    minimum > stored
}

/// The generation of a load that begins anew: that of the catalog, or one above the last, whichever is larger. `None`
/// exactly where that passes the greatest generation.
pub fn next_generation(catalog: Option<u64>, last: Option<u64>) -> Option<u64>
    ensures { result ≡ next_of catalog last }
{
    let above = match last {
        None => 0,
        Some(last) => last.checked_add(1)?,
    };
    let next = catalog.unwrap_or(0).max(above);
    if next > GREATEST_GENERATION {
        return None;
    }
    Some(next)
}
