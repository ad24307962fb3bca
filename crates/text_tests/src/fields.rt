// The members of an object by name.
use basics::NoMemory;
use json_fields::{cut, field, has_text, optional, optional_text, text_field};
use std::alloc::Global;
use std::test::Fail;

const TEXT: &str = r#"{"a":1,"b":null,"c":"x","\u0061": [2] ,"n":"Zo\u00eb","c":null,"e":""}"#;

// Whether the member of this name in `TEXT` holds this value, and as an optional member that one.
fn holds(
    alloc: Global,
    name: &str,
    held: Option<&str>,
    present: Option<&str>,
) -> Result<bool, NoMemory> {
    let text = TEXT.as_bytes();
    let Some(members) = cut(alloc, text, 2)? else {
        return Ok(false);
    };
    let as_field = is_value(field(alloc, text, &members, name)?, held);
    let as_optional = is_value(optional(alloc, text, &members, name)?, present);
    Ok(as_field && as_optional)
}

// Whether a value is this text.
fn is_value(value: Option<&[u8]>, want: Option<&str>) -> bool {
    match (value, want) {
        (Some(value), Some(want)) => value == want.as_bytes(),
        (None, None) => true,
        _ => false,
    }
}

const HELD: &[(&str, Option<&str>, Option<&str>)] = &[
    ("a", Some("[2]"), Some("[2]")),
    ("b", Some("null"), None),
    ("c", Some("null"), None),
    ("n", Some(r#""Zo\u00eb""#), Some(r#""Zo\u00eb""#)),
    ("e", Some(r#""""#), Some(r#""""#)),
    ("x", None, None),
    ("", None, None),
];

#[test]
fn the_last_member_of_a_name_counts(rt: HostRuntime) -> Result<(), Fail> {
    let members = cut(rt.alloc(), TEXT.as_bytes(), 2)?.ok_or("no object")?;
    assert_eq!(rt; members.len(), 7);
    assert!(rt; cut(rt.alloc(), TEXT.as_bytes(), 1)?.is_none());
    assert!(rt; cut(rt.alloc(), b"[]", 127)?.is_none());
    for (name, held, present) in HELD {
        assert!(rt; holds(rt.alloc(), name, *held, *present)?, "{name}");
    }
    Ok(())
}

// Whether the member of this name in `TEXT` is this text, and as an optional text absent or not.
fn tells(alloc: Global, name: &str, held: Option<&str>, absent: bool) -> Result<bool, NoMemory> {
    let text = TEXT.as_bytes();
    let Some(members) = cut(alloc, text, 2)? else {
        return Ok(false);
    };
    let as_field = match text_field(alloc, text, &members, name)? {
        Some(found) => held == Some(found.as_str()),
        None => held.is_none(),
    };
    let as_optional = match optional_text(alloc, text, &members, name)? {
        Some(Some(found)) => held == Some(found.as_str()),
        Some(None) => absent,
        None => !absent && held.is_none(),
    };
    Ok(as_field && as_optional)
}

const TOLD: &[(&str, Option<&str>, bool)] = &[
    ("a", None, false),
    ("b", None, true),
    ("c", None, true),
    ("n", Some("Zoë"), false),
    ("e", Some(""), false),
    ("x", None, true),
];

#[test]
fn a_text_is_told_from_no_text_and_from_none(rt: HostRuntime) -> Result<(), Fail> {
    for (name, held, absent) in TOLD {
        assert!(rt; tells(rt.alloc(), name, *held, *absent)?, "{name}");
    }
    Ok(())
}

// Whether the member of this name in `TEXT` has this meaning.
fn means(alloc: Global, name: &str, meaning: &str) -> Result<bool, NoMemory> {
    let text = TEXT.as_bytes();
    match cut(alloc, text, 2)? {
        Some(members) => has_text(alloc, text, &members, name, meaning),
        None => Ok(false),
    }
}

const MEANT: &[(&str, &str, bool)] = &[
    ("n", "Zoë", true),
    ("n", "Zo", false),
    ("e", "", true),
    ("a", "[2]", false),
    ("b", "null", false),
    ("c", "x", false),
    ("x", "", false),
];

#[test]
fn a_text_is_compared_by_its_meaning(rt: HostRuntime) -> Result<(), Fail> {
    for (name, meaning, is) in MEANT {
        let found = means(rt.alloc(), name, meaning)?;
        assert_eq!(rt; found, *is, "{name} as {meaning}");
    }
    Ok(())
}
