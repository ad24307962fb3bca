//! Cuts a text into its lines, without copying.
#![tactic(auto)]

ghost use Rattle.std.specs.Prelude.{◌≡◌, ◌≤◌, ◌<◌, ◌↔◌, [], ◌∷◌, length, drop, slice_range, slice_index, false, All, IfSome, IfNone};
ghost use Rattle.text_lines.specs.Lines.{is_newline, is_line, lines_of};

use memchr::memchr;
use std::ops::Range;

/// Whether a piece between newlines is a line: it has a byte that is no space, tab or carriage return.
pub fn is_line(piece: &[u8]) -> bool
    ensures { result ≡ is_line piece.now }
{
    piece
        .iter()
        .any(|byte| *byte != b' ' && *byte != b'\t' && *byte != b'\r')
}

// Where the piece that begins at `start` ends: at the next newline, or with the text.
fn piece_end(text: &[u8], start: usize) -> usize
    requires { start ≤ length text.now }
    ensures place { (start ≤ result) × (result ≤ length text.now) }
    ensures piece { All (λ byte. is_newline byte ≡ false) (slice_range text.now start result) }
    ensures newline { result < length text.now → slice_index text.now result ≡ 10 }
{
    match memchr(b'\n', &text[start..]) {
        Some(size) => start + size,
        None => text.len(),
    }
}

/// The place of the first line at or after `from`, without its newline; the next search begins at its end. `None`
/// where only blank pieces are left. A last piece without a newline is a line where it is not blank.
pub fn next_line(text: &[u8], from: usize) -> Option<Range<usize>>
    requires { from ≤ length text.now }
    ensures place { IfSome result (λ line. (from ≤ line.start) × (line.start < line.end) × (line.end ≤ length text.now)) }
    ensures line { IfSome result (λ line. lines_of (drop from text.now) ≡ slice_range text.now line.start line.end ∷ lines_of (drop line.end text.now)) }
    ensures none { IfNone result (lines_of (drop from text.now) ≡ []) }
{
    let mut start = from;
    while start < text.len() {
        let end = piece_end(text, start);
        if is_line(&text[start..end]) {
            return Some(start..end);
        }
        if end == text.len() {
            return None;
        }
        start = end + 1;
    }
    None
}
