// Where the lines of a text stand.
use text_lines::{is_line, next_line};

const LINES: &[(&str, usize, Option<(usize, usize)>)] = &[
    ("", 0, None),
    ("\n", 0, None),
    ("a", 0, Some((0, 1))),
    ("a", 1, None),
    ("a\n", 0, Some((0, 1))),
    ("a\n", 1, None),
    ("a\nb", 0, Some((0, 1))),
    ("a\nb", 1, Some((2, 3))),
    ("a\nb", 3, None),
    ("a\nb\n", 0, Some((0, 1))),
    ("a\nb\n", 1, Some((2, 3))),
    ("a\nb\n", 3, None),
    ("\n\na\n\n \t\r\nb\n\n", 0, Some((2, 3))),
    ("\n\na\n\n \t\r\nb\n\n", 3, Some((9, 10))),
    ("\n\na\n\n \t\r\nb\n\n", 10, None),
    ("\r\n\r\na\r\nb\r", 0, Some((4, 6))),
    ("\r\n\r\na\r\nb\r", 6, Some((7, 9))),
    ("\r\n\r\na\r\nb\r", 9, None),
    (" \t", 0, None),
    ("a\n \t\r", 0, Some((0, 1))),
    ("a\n \t\r", 1, None),
    ("\n \n torn", 0, Some((3, 8))),
    ("\n \n torn", 8, None),
    (" a ", 0, Some((0, 3))),
    (" a ", 3, None),
];

// Where the next line from a place stands.
fn line_from(text: &str, from: usize) -> Option<(usize, usize)> {
    if from > text.len() {
        return None;
    }
    let line = next_line(text.as_bytes(), from)?;
    Some((line.start, line.end))
}

#[test]
fn blank_pieces_are_passed_over_and_a_torn_last_piece_is_a_line(rt: HostRuntime) {
    for (text, from, want) in LINES {
        assert!(rt; line_from(text, *from) == *want, "in {text:?} from {from}");
    }
}

const PIECES: &[(&str, bool)] = &[
    ("", false),
    (" \t\r", false),
    (" \t\rx", true),
    ("\u{b}", true),
    ("\u{0}", true),
    ("\u{a0}", true),
];

#[test]
fn a_piece_with_another_byte_than_a_blank_is_a_line(rt: HostRuntime) {
    for (piece, is) in PIECES {
        assert_eq!(rt; is_line(piece.as_bytes()), *is, "in {piece:?}");
    }
}
