// Lines from bytes in pieces, the elements of arrays, and texts without white space.
use basics::NoMemory;
use json_span::{Span, SpanFault, elements};
use json_squeeze::squeeze;
use piecewise_lines::{Lines, NextLine};
use std::alloc::Global;
use std::test::Fail;

// Whether the next line is this one.
fn next_is(lines: &mut Lines, want: &str) -> Result<bool, NoMemory> {
    match lines.next()? {
        NextLine::Line(line) => Ok(line.as_slice() == want.as_bytes()),
        _ => Ok(false),
    }
}

// Whether the torn piece at the end is this one.
fn ends_with(lines: &mut Lines, want: &str) -> bool {
    match lines.end() {
        Some(torn) => torn.as_slice() == want.as_bytes(),
        None => false,
    }
}

#[test]
fn lines_come_whole_from_pieces(rt: HostRuntime) -> Result<(), Fail> {
    let mut lines = Lines::new(rt.alloc(), 9);
    for piece in ["ab", "c", "\n", "\n", " d"] {
        lines.feed(piece.as_bytes())?;
    }
    assert!(rt; next_is(&mut lines, "abc")?, "a line");
    assert!(rt;
        matches!(lines.next()?, NextLine::More),
        "no more lines yet"
    );
    assert!(rt; ends_with(&mut lines, " d"), "a torn piece");
    Ok(())
}

#[test]
fn a_piece_above_the_limit_is_too_long_for_good(rt: HostRuntime) -> Result<(), Fail> {
    let mut lines = Lines::new(rt.alloc(), 2);
    for piece in ["abc\n", "d\n"] {
        lines.feed(piece.as_bytes())?;
        assert!(rt;
            matches!(lines.next()?, NextLine::TooLong),
            "after {piece:?}"
        );
    }
    Ok(())
}

const ELEMENTS: &[(&str, &[(u64, u64)])] = &[
    (r#"[1, {"x":2}]"#, &[(1, 2), (4, 11)]),
    ("[]", &[]),
    (" [ [] ,\"]\" ] ", &[(3, 5), (7, 10)]),
];

// Whether an element stands at these places.
fn is_at(span: &Span, places: (u64, u64)) -> bool {
    (span.start, span.end) == places
}

// Whether the elements of a text stand at these places.
fn are_at(alloc: Global, text: &str, want: &[(u64, u64)]) -> Result<bool, SpanFault> {
    let spans = elements(alloc, text.as_bytes())?;
    let mut pairs = spans.as_slice().iter().zip(want);
    Ok(spans.len() == want.len() && pairs.all(|(span, places)| is_at(span, *places)))
}

#[test]
fn elements_stand_without_white_space(rt: HostRuntime) -> Result<(), Fail> {
    for (text, places) in ELEMENTS {
        assert!(rt; are_at(rt.alloc(), text, places)?, "{text}");
    }
    for text in ["{}", "[1,]", "[1 2]", "[", ""] {
        let found = elements(rt.alloc(), text.as_bytes());
        assert!(rt; matches!(found, Err(SpanFault::NotArray)), "{text}");
    }
    Ok(())
}

const SQUEEZED: &[(&str, &str)] = &[
    (r#"{"a": "x y"}"#, r#"{"a":"x y"}"#),
    (" [ 1 ,\t\"a\\\" b\" ]\r\n", "[1,\"a\\\" b\"]"),
    ("", ""),
];

#[test]
fn white_space_outside_strings_goes(rt: HostRuntime) -> Result<(), Fail> {
    for (text, want) in SQUEEZED {
        let squeezed = squeeze(rt.alloc(), text.as_bytes())?;
        assert!(rt; squeezed.as_slice() == want.as_bytes(), "{text}");
    }
    Ok(())
}
