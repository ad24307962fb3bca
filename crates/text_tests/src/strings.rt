// What strings stand for, and how they are written, by Python's `json`.
use basics::NoMemory;
use json_scalar::{is_string_of, quote, text_of};
use std::alloc::Global;
use std::test::Fail;

const STRINGS: &[(&str, &str)] = &[
    (r#""Zo\u00eb""#, "Zoë"),
    (r#""Zoë""#, "Zoë"),
    (r#""""#, ""),
    (r#""\uD83D\uDE00""#, "😀"),
    (r#""abc""#, "abc"),
    (r#""a\\""#, r#"a\"#),
    (r#""\ud83d\ude00""#, "😀"),
    (r#"" \u0041\ud83d\ude00""#, " A😀"),
    (r#"" \u00e9""#, " é"),
    (r#""\"""#, r#"""#),
    (r#""\"\u001F""#, "\"\u{1f}"),
    (r#""\/""#, "/"),
    (r#""\\""#, r#"\"#),
    ("\"\\\\\x7f\"", "\\\u{7f}"),
    (r#""\b""#, "\u{8}"),
    (r#""\n ""#, "\u{a} "),
    (r#""\n""#, "\u{a}"),
    (r#""\r""#, "\u{d}"),
    (r#""\r\\f""#, "\u{d}\\f"),
    (r#""\t""#, "\u{9}"),
    (r#""\u0000""#, "\u{0}"),
    (r#""\u0000\n""#, "\u{0}\u{a}"),
    (r#""\u0000\u00e9""#, "\u{0}\u{e9}"),
    (r#""\u001F""#, "\u{1f}"),
    (r#""\u001Fa\ufffE""#, "\u{1f}a\u{fffe}"),
    (r#""\u0041 ""#, "A "),
    (r#""\u0041\/""#, "A/"),
    (r#""\u0041\f""#, "A\u{c}"),
    (r#""\u00e9\"""#, r#"é""#),
    (r#""\uFFFF""#, "\u{ffff}"),
    (r#""\uFFFF\t""#, "\u{ffff}\u{9}"),
    (r#""\uFFFFé\/""#, "\u{ffff}\u{e9}/"),
    (r#""\ud83d\ude00\"""#, r#"😀""#),
    (r#""\ud83d\ude00\\""#, r#"😀\"#),
    (r#""\ud83d\ude00éa""#, "😀éa"),
    (r#""\ufffE""#, "\u{fffe}"),
    (r#""a""#, "a"),
    (r#""aa""#, "aa"),
    ("\"\x7f\"", "\u{7f}"),
    ("\"\x7f\\f\"", "\u{7f}\u{c}"),
    ("\"\x7f\\t\"", "\u{7f}\u{9}"),
    (r#""é""#, "é"),
    (r#""éa\\""#, r#"éa\"#),
    (r#""é😀\f""#, "\u{e9}\u{1f600}\u{c}"),
];

// Whether a text is a string that stands for this one, and for no other that was tried.
fn stands_for(alloc: Global, text: &[u8], meaning: &str) -> Result<bool, NoMemory> {
    let Some(found) = text_of(alloc, text)? else {
        return Ok(false);
    };
    let is = is_string_of(alloc, text, meaning)?;
    let another = is_string_of(alloc, text, "another")?;
    Ok(found.as_str() == meaning && is && !another)
}

#[test]
fn strings_stand_for_their_texts(rt: HostRuntime) -> Result<(), Fail> {
    for (text, meaning) in STRINGS {
        assert!(rt;
            stands_for(rt.alloc(), text.as_bytes(), meaning)?,
            "in {text:?}"
        );
    }
    Ok(())
}

const NO_STRINGS: &[&str] = &[
    "12",
    r#"""#,
    "",
    "null",
    r#""a"b""#,
    r#""a\""#,
    r#" "a""#,
    r#""a" "#,
    r#""\u000""#,
    r#""\u+041""#,
    r#""\ud83d\ud83d\ude00""#,
    r#""😀\"\ud83d""#,
    r#""\U0041""#,
    r#""a\n" ""#,
    "\"a\x0ab\"",
    r#" " ""#,
    r#" "\f \b""#,
    " \"\\u0000\x1f\\ud83d\\ude00\"",
    r#" "é""#,
    "\"\x0a\"\x0a",
    "\"\x0a\\r\\ud83d\"",
    "\"\x1f\"",
    "\"\"\"\x0a",
    r#"""a"#,
    r#""\/\u12"""#,
    r#""\\\uD83Dx ""#,
    r#""\t\u12\b""#,
    "\"\\u0041\x1f \"",
    "\"\\u12\x1f\"",
    r#""\u12\x\t""#,
    "\"\\uFFFF\"\x0a",
    r#""\ud83d\"é""#,
    r#""\ud83d\u12\u00e9""#,
    r#""\ude00""#,
    r#""\ude00\u12\ufffE""#,
    r#""\x"#,
    "\"\\x\\u001Fé\"\x0a",
    "\"\\x\x7fb\"",
    "\"a\x0a\"",
    r#""a\xb"""#,
    "\"\x7f\"\x0a",
    "\"😀\\ude00\"\x0a",
    r#"\ude00""#,
];

const NO_UTF8: &[&[u8]] = &[
    b"\"\xed\xa0\x80\"",
    b"\"\"\xff\\b\"",
    b"\"\\\xffu00e9\\u12\"",
];

// Whether a text is no string, nor one that stands for the empty text.
fn is_none(alloc: Global, text: &[u8]) -> Result<bool, NoMemory> {
    let empty = is_string_of(alloc, text, "")?;
    Ok(text_of(alloc, text)?.is_none() && !empty)
}

#[test]
fn other_texts_are_no_strings(rt: HostRuntime) -> Result<(), Fail> {
    for text in NO_STRINGS {
        assert!(rt; is_none(rt.alloc(), text.as_bytes())?, "in {text:?}");
    }
    Ok(())
}

#[test]
fn texts_that_are_not_utf_8_are_no_strings(rt: HostRuntime) -> Result<(), Fail> {
    for text in NO_UTF8 {
        assert!(rt; is_none(rt.alloc(), text)?, "in {text:?}");
    }
    Ok(())
}

const NAMES: &[(&str, &str, bool)] = &[
    (r#""abc""#, "abc", true),
    (r#""abc""#, "abcd", false),
    (r#""abc""#, "ab", false),
    (r#""abc""#, "", false),
    (r#""""#, "", true),
    (r#""abc""#, r#""abc""#, false),
    (r#""\u0061bc""#, "abc", true),
    (r#""\u0061bc""#, r#"\u0061bc"#, false),
    (r#""a\/b""#, "a/b", true),
    (r#""a\/b""#, r#"a\/b"#, false),
    (r#""Zo\u00eb""#, "Zoë", true),
    (r#""Zoë""#, "Zoë", true),
    (r#""Zoë""#, "Zoe", false),
    (r#""\ud83d\ude00""#, "😀", true),
    (r#""A""#, "a", false),
    ("abc", "abc", false),
    ("12", "12", false),
];

#[test]
fn a_string_is_compared_by_what_it_stands_for(rt: HostRuntime) -> Result<(), Fail> {
    for (text, name, is) in NAMES {
        let found = is_string_of(rt.alloc(), text.as_bytes(), name)?;
        assert_eq!(rt; found, *is, "{text} as {name}");
    }
    Ok(())
}

const QUOTED: &[(&str, &str)] = &[
    (r#"a"b"#, r#""a\"b""#),
    ("", r#""""#),
    ("Zoë", r#""Zoë""#),
    (r#"\"#, r#""\\""#),
    ("/", r#""/""#),
    ("\u{a}", r#""\n""#),
    ("\u{1}\u{1f}\u{7f}", "\"\\u0001\\u001f\u{7f}\""),
    ("\u{8}\u{c}\u{d}\u{9}", r#""\b\f\r\t""#),
    ("\u{1f600}\u{2028}", "\"\u{1f600}\u{2028}\""),
    ("a\"\\\u{a}\u{1}\u{e9}", r#""a\"\\\n\u0001é""#),
    ("\u{0}", r#""\u0000""#),
];

#[test]
fn quoted_texts_have_the_short_escapes(rt: HostRuntime) -> Result<(), Fail> {
    for (text, want) in QUOTED {
        let string = quote(rt.alloc(), text)?;
        assert!(rt; string.as_slice() == want.as_bytes(), "of {text:?}");
    }
    Ok(())
}
