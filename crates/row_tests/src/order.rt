// The order of values.
use std::cmp::Ordering;
use std::test::Fail;
use value_order::{compare, read_value};

// Texts of values that rise.
const RISING: [&str; 30] = [
    "n",
    "f",
    "t",
    "#-1e400",
    "#-1025e-2",
    "#-95e-1",
    "#-1e0",
    "#-1e-400",
    "#0e0",
    "#1e-400",
    "#99999999999999999999999999999999999999e-39",
    "#1e0",
    "#95e-1",
    "#1e1",
    "#1025e-2",
    "#123e0",
    "#1234e-1",
    "#99999999999999999999999999999999999999e0",
    "#1e38",
    "#1e400",
    "\"0:",
    "\"1:a",
    "\"2:aa",
    "\"1:b",
    "@-1",
    "@0",
    "@1714514400000000000",
    "@1714518000000000000",
    "?2:[]",
    "?2:{}",
];

#[test]
fn values_stand_in_their_order(rt: HostRuntime) -> Result<(), Fail> {
    let alloc = rt.alloc();
    for (i, text) in RISING.iter().enumerate() {
        let value = read_value(alloc, text.as_bytes())?.ok_or("no value")?;
        for (j, other_text) in RISING.iter().enumerate() {
            let other = read_value(alloc, other_text.as_bytes())?.ok_or("no value")?;
            assert!(rt; compare(&value, &other) == i.cmp(&j), "{text} {other_text}");
        }
    }
    Ok(())
}

#[test]
fn texts_are_compared_by_their_bytes(rt: HostRuntime) -> Result<(), Fail> {
    let alloc = rt.alloc();
    let zoe = read_value(alloc, "\"4:Zoë".as_bytes())?.ok_or("no value")?;
    let a = read_value(alloc, b"\"1:a")?.ok_or("no value")?;
    assert!(rt; compare(&zoe, &a) == Ordering::Less);
    Ok(())
}
