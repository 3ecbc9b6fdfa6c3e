//! Texts and the amounts that they are read as, and amounts and the texts that they are written as.

use rc_fixed::NumFault::{Form, TooFine, TooLarge};
use rc_fixed::{Fixed, digits, is_decimal, is_units, parse_fixed, parse_rule, per_unit};

/// Numbers of rules in units of 10^-9, and numbers in units of 10^-15. A bar stands between the texts of a row.
#[test]
fn amounts_at_their_limits(rt: HostRuntime) {
    let rules = [
        ("5e-05", Ok(50_000)),
        ("1e-10|10000.0000000001|0.0000000001|1e-99", Err(TooFine)),
        ("10000|1e4|1E+04|10000.0", Ok(10_000_000_000_000)),
        ("10000.000000001|1e5|1e99", Err(TooLarge)),
        ("0|+0|0.00000000000000|0e99|0.00e-99", Ok(0)),
        ("-0|-1|-1e|-1e-10|1e004|e5|.|1.2.3|1e||+|1 ", Err(Form)),
        ("9999.999999999", Ok(9_999_999_999_999)),
        ("0.000000001|0.0000000010|1e-9|10e-10|0.1e-8", Ok(1)),
        (".5", Ok(500_000_000)),
        ("5.", Ok(5_000_000_000)),
        ("00012.5", Ok(12_500_000_000)),
    ];
    for (texts, rule) in rules {
        for text in texts.split('|') {
            assert_eq!(rt; parse_rule(text.as_bytes()), rule, "{text}");
        }
    }
    let plain = [
        (
            "1e-16|1000000000000000000000.0000000000000001|1.5e-15|0.0000000000000001|1e-99",
            Err(TooFine),
        ),
        (
            "1e22|1000000000000000000000.000000000000001|1e99",
            Err(TooLarge),
        ),
        ("-1|-0|-0.0|1e000|e1", Err(Form)),
        (
            "1e21",
            Ok(1_000_000_000_000_000_000_000_000_000_000_000_000),
        ),
        (
            "999999999999999999999.999999999999999",
            Ok(999_999_999_999_999_999_999_999_999_999_999_999),
        ),
        ("1e-15|10e-16|0.000000000000001|0.0000000000000010", Ok(1)),
        ("0.0000000000000000|+0|0e99", Ok(0)),
        (".5", Ok(500_000_000_000_000)),
        ("5.", Ok(5_000_000_000_000_000)),
        (
            "1E+00|1e00|0000000000000000000000001",
            Ok(1_000_000_000_000_000),
        ),
    ];
    for (texts, number) in plain {
        for text in texts.split('|') {
            assert_eq!(rt;
                parse_fixed(text.as_bytes(), 0),
                number.map(Fixed),
                "{text}"
            );
        }
    }
    let raised = [
        ("0.001", Ok(1_000_000_000_000_000)),
        (
            "1e18|1e+18",
            Ok(1_000_000_000_000_000_000_000_000_000_000_000_000),
        ),
        (
            "1e19|1000000000000000000.000000000000000001|1e99",
            Err(TooLarge),
        ),
        (
            "1000000000000000000.0000000000000000001|1e-19",
            Err(TooFine),
        ),
        ("1e-18|0.000000000000000001|0.0000000000000000010", Ok(1)),
        (
            "999999999999999999.999999999999999999",
            Ok(999_999_999_999_999_999_999_999_999_999_999_999),
        ),
        ("-0|.", Err(Form)),
        ("1.5", Ok(1_500_000_000_000_000_000)),
    ];
    for (texts, number) in raised {
        for text in texts.split('|') {
            assert_eq!(rt;
                parse_fixed(text.as_bytes(), 3),
                number.map(Fixed),
                "{text}"
            );
        }
    }
    assert!(rt; is_decimal(b"-1.5e-07"));
    assert!(rt; !is_decimal(b"-1.5e-007"));
}

/// Numbers, their texts, and what is read back from them.
#[test]
fn numbers_and_their_texts(rt: HostRuntime) {
    let written: [(u128, &str); 8] = [
        (0, "0"),
        (1, "0.000000000000001"),
        (1_000_000_000_000_000, "1"),
        (260_000_000_000_000, "0.26"),
        (1_000_000_000_000_010, "1.00000000000001"),
        (100_000_000_000_000_000, "100"),
        (
            1_000_000_000_000_000_000_000_000_000_000_000_000,
            "1000000000000000000000",
        ),
        (u128::MAX, "340282366920938463463374.607431768211455"),
    ];
    for (value, text) in written {
        let mut out = [0; 48];
        let end = digits(Fixed(value), &mut out);
        assert_eq!(rt; &out[..end], text.as_bytes(), "{value}");
        let back = parse_fixed(&out[..end], 0);
        if value > 1_000_000_000_000_000_000_000_000_000_000_000_000 {
            assert_eq!(rt; back, Err(TooLarge), "{value}");
        } else {
            assert_eq!(rt; back, Ok(Fixed(value)), "{value}");
        }
    }
    assert_eq!(rt; per_unit(10_000_000_000_000, 100), 100_000_000_000_000_000);
    assert_eq!(rt; per_unit(1, 20_000), 50);
    for units in [100, 200, 400, 800, 1000, 2000, 4000, 8000, 10_000, 20_000] {
        assert!(rt; is_units(units), "{units}");
    }
    for units in [0, 1, 99, 300, 500, 1600, 5000, 16_000, 20_001, 40_000] {
        assert!(rt; !is_units(units), "{units}");
    }
}
