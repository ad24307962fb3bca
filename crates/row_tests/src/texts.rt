// The texts of values, and which texts are none.
use std::test::Fail;
use value_order::{read_value, value_text};

#[test]
fn texts_of_values_read_back(rt: HostRuntime) -> Result<(), Fail> {
    let alloc = rt.alloc();
    for text in [
        "n",
        "f",
        "t",
        "#0e0",
        "#1e1",
        "#-95e-1",
        "#1e400",
        "#1e-400",
        "#99999999999999999999999999999999999999e400",
        "\"0:",
        "\"4:Zoë",
        "@0",
        "@-1",
        "@1714554000000000000",
        "@170141183460469231731687303715884105727",
        "@-170141183460469231731687303715884105728",
        "?2:[]",
        "?4:a;:b",
    ] {
        let value = read_value(alloc, text.as_bytes())?.ok_or("no value")?;
        assert_eq!(rt;
            value_text(alloc, &value)?.as_slice(),
            text.as_bytes(),
            "{text}"
        );
    }
    Ok(())
}

#[test]
fn other_texts_are_of_no_value(rt: HostRuntime) -> Result<(), Fail> {
    let alloc = rt.alloc();
    for text in [
        "",
        "nn",
        "N",
        "#",
        "#1",
        "#-0e0",
        "#0e1",
        "#10e0",
        "#01e0",
        "#1e+1",
        "#1E1",
        "#+1e0",
        "#1e401",
        "#1e-401",
        "#1e-0",
        "#100000000000000000000000000000000000001e0",
        "@-0",
        "@+1",
        "@01",
        "@170141183460469231731687303715884105728",
        "\"04:Zoë",
        "\"3:Zoë",
        "\"5:Zoë",
        "\"4:Zoë;",
        "\"4Zoë",
        "?-1:",
    ] {
        assert!(rt; read_value(alloc, text.as_bytes())?.is_none(), "{text}");
    }
    assert!(rt; read_value(alloc, b"\"1:\xff")?.is_none());
    Ok(())
}
