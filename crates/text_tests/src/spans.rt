// Where the members of an object stand, and how deep one may nest.
use json_span::{MAX_DEPTH, Member, Span, SpanFault, members, members_within};
use std::alloc::{AllocError, Global};
use std::test::Fail;

// The places of a member: where its key starts and ends, and where its value does.
type Places = (u64, u64, u64, u64);

const MEMBERS: &[(&str, &[Places])] = &[
    (
        r#"{"a": [1, 2],"b":null}"#,
        &[(1, 4, 6, 12), (13, 16, 17, 21)],
    ),
    (
        r#" {"a":1 , "a" : {"a":2}} "#,
        &[(2, 5, 6, 7), (10, 13, 16, 23)],
    ),
    ("{ }", &[]),
];

// Whether a member stands at these places.
fn is_at(member: &Member, places: Places) -> bool {
    let (key_start, key_end, value_start, value_end) = places;
    let key = Span {
        start: key_start,
        end: key_end,
    };
    let value = Span {
        start: value_start,
        end: value_end,
    };
    member.key == key && member.value == value
}

// Whether the members of a text stand at these places.
fn are_at(alloc: Global, text: &str, want: &[Places]) -> Result<bool, SpanFault> {
    let cut = members(alloc, text.as_bytes())?;
    let mut pairs = cut.as_slice().iter().zip(want);
    Ok(cut.len() == want.len() && pairs.all(|(member, places)| is_at(member, *places)))
}

#[test]
fn members_stand_at_their_places(rt: HostRuntime) -> Result<(), Fail> {
    for (text, places) in MEMBERS {
        assert!(rt; are_at(rt.alloc(), text, places)?, "in {text}");
    }
    assert!(rt; matches!(members(rt.alloc(), b"[]"), Err(SpanFault::NotObject)));
    Ok(())
}

// Where the value of the first member stands.
fn first_value(alloc: Global, text: &[u8]) -> Result<Option<Span>, SpanFault> {
    let cut = members(alloc, text)?;
    if cut.is_empty() {
        return Ok(None);
    }
    Ok(Some(cut.at(0).value))
}

#[test]
fn a_place_gives_its_text(rt: HostRuntime) -> Result<(), Fail> {
    let text = b"{\"a\": [1, 2],\"b\":null}";
    let place = Span { start: 6, end: 12 };
    assert!(rt; first_value(rt.alloc(), text)? == Some(place));
    assert!(rt; place.of(text) == b"[1, 2]".as_slice());
    Ok(())
}

// An object that nests so deep, of objects alone, or of arrays in one object.
fn nested(
    alloc: Global,
    deep: usize,
    front: &str,
    last: &str,
    back: u8,
) -> Result<Vec<u8>, AllocError> {
    let mut text = Vec::new(alloc);
    text.extend_from_slice(b"{\"a\":")?;
    for _ in 2..deep {
        text.extend_from_slice(front.as_bytes())?;
    }
    text.extend_from_slice(last.as_bytes())?;
    for _ in 2..deep {
        text.push(back)?;
    }
    text.push(b'}')?;
    Ok(text)
}

const NESTED: &[(usize, usize, Option<SpanFault>)] = &[
    (2, MAX_DEPTH, None),
    (126, MAX_DEPTH, None),
    (127, MAX_DEPTH, None),
    (128, MAX_DEPTH, Some(SpanFault::TooDeep)),
    (129, MAX_DEPTH, Some(SpanFault::TooDeep)),
    (1000, MAX_DEPTH, Some(SpanFault::TooDeep)),
    (124, 124, None),
    (125, 124, Some(SpanFault::TooDeep)),
    (124, 123, Some(SpanFault::TooDeep)),
    (125, 125, None),
    (128, 128, None),
    (2, 1, Some(SpanFault::TooDeep)),
    (2, 0, Some(SpanFault::TooDeep)),
];

// Whether a text of this depth, cut within the limit, has this fault; within `MAX_DEPTH`, `members` has it too.
fn has_fault(alloc: Global, text: &[u8], limit: usize, fault: Option<SpanFault>) -> bool {
    let within = members_within(alloc, text, limit).err() == fault;
    within && (limit != MAX_DEPTH || members(alloc, text).err() == fault)
}

#[test]
fn an_object_that_nests_127_deep_is_cut(rt: HostRuntime) -> Result<(), Fail> {
    for (deep, limit, fault) in NESTED {
        let objects = nested(rt.alloc(), *deep, "{\"a\":", "{}", b'}')?;
        let cut = has_fault(rt.alloc(), objects.as_slice(), *limit, *fault);
        assert!(rt; cut, "objects, {deep} within {limit}");
    }
    Ok(())
}

#[test]
fn arrays_in_an_object_count_for_its_depth(rt: HostRuntime) -> Result<(), Fail> {
    for (deep, limit, fault) in NESTED {
        let arrays = nested(rt.alloc(), *deep, "[", "[]", b']')?;
        let cut = has_fault(rt.alloc(), arrays.as_slice(), *limit, *fault);
        assert!(rt; cut, "arrays, {deep} within {limit}");
    }
    Ok(())
}

// Whether a text that lacks its last bracket is no object, with that bracket behind it and without.
fn is_none(alloc: Global, deep: usize) -> Result<bool, AllocError> {
    let mut text = nested(alloc, deep, "[", "[", b']')?;
    let short = members(alloc, text.as_slice()).err();
    text.push(b'}')?;
    let long = members(alloc, text.as_slice()).err();
    Ok(short == Some(SpanFault::NotObject) && long == Some(SpanFault::NotObject))
}

#[test]
fn a_broken_object_is_no_object_however_deep(rt: HostRuntime) -> Result<(), Fail> {
    for deep in [127, 128, 1000] {
        assert!(rt; is_none(rt.alloc(), deep)?, "{deep}");
    }
    Ok(())
}
