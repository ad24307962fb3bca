// The decimals of number literals, worked out with Python's decimal.
use json_scalar::decimal_of;

#[test]
fn literals_have_one_normal_form(rt: HostRuntime) {
    for (text, is_negative, digits, raised, lowered) in [
        ("0", false, 0, 0, 0),
        ("-0.00e-9", false, 0, 0, 0),
        ("0e99999999999999999999999", false, 0, 0, 0),
        ("1.50", false, 15, 0, 1),
        ("-100", true, 1, 2, 0),
        ("0.1e401", false, 1, 400, 0),
        ("10e399", false, 1, 400, 0),
        ("0.1e-399", false, 1, 0, 400),
        ("10e-401", false, 1, 0, 400),
        (
            "99999999999999999999999999999999999999",
            false,
            99999999999999999999999999999999999999,
            0,
            0,
        ),
        ("100000000000000000000000000000000000000", false, 1, 38, 0),
        (
            "0.0000000000000000000000000000000000000000012",
            false,
            12,
            0,
            43,
        ),
        (
            "12E+0000000000000000000000000000000000000000002",
            false,
            12,
            2,
            0,
        ),
    ] {
        let found = decimal_of(text.as_bytes());
        assert!(rt; found.is_some(), "{text}");
        if let Some(decimal) = found {
            assert!(rt; decimal.is_negative == is_negative, "{text}");
            assert_eq!(rt; decimal.digits, digits, "{text}");
            assert_eq!(rt; decimal.raised, raised, "{text}");
            assert_eq!(rt; decimal.lowered, lowered, "{text}");
        }
    }
}

#[test]
fn long_literals_and_other_texts_have_none(rt: HostRuntime) {
    for text in [
        "1e401",
        "10e400",
        "1e-401",
        "0.1e-400",
        "100000000000000000000000000000000000001",
        "1e99999999999999999999999999999999999999999",
        "-1e-99999999999999999999999999999999999999999",
        "007",
        "+1",
        "1.",
        " 1",
        "",
        "-",
        "1e",
    ] {
        assert!(rt; decimal_of(text.as_bytes()).is_none(), "{text}");
    }
}
