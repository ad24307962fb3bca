// Which texts are objects, by the judgement of Python's `json` (NaN, the infinities, lone surrogates and bytes that are
// not UTF-8 refused).
use json_span::{SpanFault, members};
use std::alloc::Global;
use std::test::Fail;

const OBJECTS: &[(&str, usize)] = &[
    ("{}", 0),
    (" \x09\x0d\x0a{ \x09\x0d\x0a} \x09\x0d\x0a", 0),
    (r#"{"a":1}"#, 1),
    (r#"{ "a" : 1 , "b" : [ ] }"#, 2),
    (r#"{"a":1,"a":2}"#, 2),
    (r#"{"a":{"b":{"c":[1,{"d":2}]}},"e":null}"#, 2),
    (r#"{"":""}"#, 1),
    (r#"{"a":true,"b":false,"c":null,"d":-0.0e-0}"#, 4),
    (r#"{"Zoë":"李雷😀"}"#, 1),
    (r#"{"\u0061":1,"a":2,"\"":3}"#, 3),
    (r#"{"a":"\ud83d\ude00"}"#, 1),
    (r#"{"a":"\/\b\f\n\r\t\\\u0000"}"#, 1),
    ("{\"a\":\"\x7f\"}", 1),
    (
        r#"{"a":1E400,"b":99999999999999999999999999999999999999}"#,
        2,
    ),
    (r#"{"a":"}","b":"]{["}"#, 2),
];

#[test]
fn valid_objects_have_so_many_members(rt: HostRuntime) -> Result<(), Fail> {
    for (text, size) in OBJECTS {
        let found = members(rt.alloc(), text.as_bytes())?.len();
        assert_eq!(rt; found, *size, "in {text:?}");
    }
    Ok(())
}

const NO_OBJECTS: &[&str] = &[
    "[]",
    r#"[{"a":1}]"#,
    r#""a""#,
    "12",
    "null",
    "",
    " ",
    "{",
    "}",
    r#"{"a":1"#,
    r#"{"a":1,}"#,
    "{,}",
    r#"{,"a":1}"#,
    r#"{"a":1,,"b":2}"#,
    r#"{"a":[1,]}"#,
    r#"{"a":[,1]}"#,
    r#"{"a":[1 2]}"#,
    r#"{"a" 1}"#,
    r#"{"a"}"#,
    r#"{"a":}"#,
    "{a:1}",
    "{'a':1}",
    "{1:2}",
    "{null:1}",
    r#"{"a":1}x"#,
    r#"{"a":1}{}"#,
    r#"{"a":1} ,"#,
    r#"x{"a":1}"#,
    r#"{"a":1]"#,
    r#"{"a":[1}}"#,
    r#"{"a":01}"#,
    r#"{"a":1.}"#,
    r#"{"a":.5}"#,
    r#"{"a":+1}"#,
    r#"{"a":-}"#,
    r#"{"a":1e}"#,
    r#"{"a":1e+}"#,
    r#"{"a":0x1}"#,
    r#"{"a":NaN}"#,
    r#"{"a":-Infinity}"#,
    r#"{"a":True}"#,
    r#"{"a":nul}"#,
    r#"{"a":nulll}"#,
    r#"{"a":"\ud800"}"#,
    r#"{"a":"\udc00"}"#,
    r#"{"\ud800":1}"#,
    r#"{"a":"\ud83dx"}"#,
    r#"{"a":"\ud83d\n"}"#,
    r#"{"a":"\ud83d\u0041"}"#,
    r#"{"a":"\ude00\ud83d"}"#,
    r#"{"a":"\x"}"#,
    r#"{"a":"\u12"}"#,
    r#"{"a":"\u12g4"}"#,
    r#"{"a":"b}"#,
    r#"{"a":"b\"}"#,
    "{\"a\":\"\x0a\"}",
    "{\"a\":\"\x00\"}",
    "{\"a\":\"\x1f\"}",
    "﻿{}",
    "{\"a\":\x0b1}",
    "{\"a\": 1}",
    r#"{"a":/**/1}"#,
];

const NO_UTF8: &[&[u8]] = &[
    b"{\"a\":\"\xff\"}",
    b"{\"a\":\"\xc3\"}",
    b"{\"a\":\"\xc0\x80\"}",
    b"{\"a\":\"\xed\xa0\x80\"}",
    b"{\"a\":\"\xf4\x90\x80\x80\"}",
    b"{\"\xff\":1}",
    b"{\"a\":1}\xff",
];

// Whether a text is refused, as no object.
fn is_none(alloc: Global, text: &[u8]) -> bool {
    matches!(members(alloc, text), Err(SpanFault::NotObject))
}

#[test]
fn broken_texts_are_no_objects(rt: HostRuntime) {
    for text in NO_OBJECTS {
        assert!(rt; is_none(rt.alloc(), text.as_bytes()), "in {text:?}");
    }
    for text in NO_UTF8 {
        assert!(rt; is_none(rt.alloc(), text), "in {text:?}");
    }
}
