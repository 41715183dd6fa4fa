use crate::numbers::{NumberWhy, read_coordinate};
use crate::references::vertex_number;
use std::test::Fail;

/// The values are those of Python's `fractions`.
#[test]
fn reads_numerals_at_two_scales(rt: HostRuntime) {
    let cases = [
        ("0", Ok(0), Ok(0)),
        ("-0", Ok(0), Ok(0)),
        ("1", Ok(1000), Ok(1024)),
        ("+1", Ok(1000), Ok(1024)),
        ("-1", Ok(-1000), Ok(-1024)),
        ("1024", Ok(1_024_000), Ok(1_048_576)),
        ("1024.0004", Ok(1_024_000), Ok(1_048_576)),
        ("1024.0005", Ok(1_024_001), Err(NumberWhy::Range)),
        ("-1024.0004", Ok(-1_024_000), Ok(-1_048_576)),
        ("-1024.0005", Ok(-1_024_000), Err(NumberWhy::Range)),
        ("1048.576", Ok(1_048_576), Err(NumberWhy::Range)),
        ("1048.5765", Err(NumberWhy::Range), Err(NumberWhy::Range)),
        ("-1048.5765", Ok(-1_048_576), Err(NumberWhy::Range)),
        ("1048.5764999", Ok(1_048_576), Err(NumberWhy::Range)),
        ("0.0005", Ok(1), Ok(1)),
        ("-0.0005", Ok(0), Ok(-1)),
        ("0.00048828125", Ok(0), Ok(1)),
        ("-0.00048828125", Ok(0), Ok(0)),
        ("0.00048828124999999", Ok(0), Ok(0)),
        (".5", Ok(500), Ok(512)),
        ("5.", Ok(5000), Ok(5120)),
        ("-.25", Ok(-250), Ok(-256)),
        (".", Err(NumberWhy::Bad), Err(NumberWhy::Bad)),
        ("-", Err(NumberWhy::Bad), Err(NumberWhy::Bad)),
        ("+", Err(NumberWhy::Bad), Err(NumberWhy::Bad)),
        ("1e", Err(NumberWhy::Bad), Err(NumberWhy::Bad)),
        ("1e+", Err(NumberWhy::Bad), Err(NumberWhy::Bad)),
        ("1E2", Ok(100_000), Ok(102_400)),
        ("1e-3", Ok(1), Ok(1)),
        ("1.5e-20", Ok(0), Ok(0)),
        ("12.5e+1", Ok(125_000), Ok(128_000)),
        ("0e9999", Ok(0), Ok(0)),
        ("1e9999", Err(NumberWhy::Range), Err(NumberWhy::Range)),
        ("1e-9999", Ok(0), Ok(0)),
        ("1e10000", Err(NumberWhy::Bad), Err(NumberWhy::Bad)),
        ("1e00002", Err(NumberWhy::Bad), Err(NumberWhy::Bad)),
        ("e3", Err(NumberWhy::Bad), Err(NumberWhy::Bad)),
        (".e3", Err(NumberWhy::Bad), Err(NumberWhy::Bad)),
        ("1.2.3", Err(NumberWhy::Bad), Err(NumberWhy::Bad)),
        ("1e1.5", Err(NumberWhy::Bad), Err(NumberWhy::Bad)),
        ("--1", Err(NumberWhy::Bad), Err(NumberWhy::Bad)),
        ("+-1", Err(NumberWhy::Bad), Err(NumberWhy::Bad)),
        ("1+", Err(NumberWhy::Bad), Err(NumberWhy::Bad)),
        ("nan", Err(NumberWhy::Bad), Err(NumberWhy::Bad)),
        ("inf", Err(NumberWhy::Bad), Err(NumberWhy::Bad)),
        ("0x10", Err(NumberWhy::Bad), Err(NumberWhy::Bad)),
        ("1,5", Err(NumberWhy::Bad), Err(NumberWhy::Bad)),
        ("123456789012345678e-15", Ok(123_457), Ok(126_420)),
        (
            "1234567890123456789e-16",
            Err(NumberWhy::Bad),
            Err(NumberWhy::Bad),
        ),
        ("0.0000012345678901234567e6", Ok(1235), Ok(1264)),
        (
            "999999999999999999",
            Err(NumberWhy::Range),
            Err(NumberWhy::Range),
        ),
        ("999.999999999999999999", Ok(1_000_000), Ok(1_024_000)),
        ("0.4999999999999999995", Ok(500), Ok(512)),
        (
            "1000000000000000000e-18",
            Err(NumberWhy::Bad),
            Err(NumberWhy::Bad),
        ),
        ("000000000000000000000000123", Ok(123_000), Ok(125_952)),
        (
            "0.00000000000000000000000000000000000000123e38",
            Ok(123),
            Ok(126),
        ),
        ("314159265358979323e-17", Ok(3142), Ok(3217)),
        ("2718281828459045e-15", Ok(2718), Ok(2784)),
        ("92233720368547758.07e-15", Ok(92_234), Ok(94_447)),
        ("1844674407370955.1616e-13", Ok(184_467), Ok(188_895)),
        ("46116860184273879.04e-14", Ok(461_169), Ok(472_237)),
    ];
    for (word, at_1000, at_1024) in cases {
        assert_eq!(rt;
            read_coordinate(word.as_bytes(), 1000),
            at_1000,
            "{word} at 1,000"
        );
        assert_eq!(rt;
            read_coordinate(word.as_bytes(), 1024),
            at_1024,
            "{word} at 1,024"
        );
    }
}

#[test]
fn reads_numerals_at_the_least_and_the_greatest_scale(rt: HostRuntime) {
    let cases = [
        ("1048576", Ok(1_048_576), Err(NumberWhy::Range)),
        ("16", Ok(16), Ok(1_048_576)),
        ("-16.00001", Ok(-16), Err(NumberWhy::Range)),
        ("-16.000007", Ok(-16), Ok(-1_048_576)),
        ("7.62939453125e-6", Ok(0), Ok(1)),
        ("-7.62939453125e-6", Ok(0), Ok(0)),
    ];
    for (word, at_1, at_65536) in cases {
        assert_eq!(rt; read_coordinate(word.as_bytes(), 1), at_1, "{word} at 1");
        assert_eq!(rt;
            read_coordinate(word.as_bytes(), 65536),
            at_65536,
            "{word} at 65,536"
        );
    }
}

#[test]
fn reads_a_numeral_of_2_20_digits(rt: HostRuntime) -> Result<(), Fail> {
    let mut word = vec![in rt.alloc(); b'0'; 1 << 20]?;
    word.push(b'3')?;
    assert_eq!(rt; read_coordinate(&word, 1000), Ok(3000));
    word.push(b'.')?;
    word.extend_from_slice(b"0006e0")?;
    assert_eq!(rt; read_coordinate(&word, 1000), Ok(3001));
    Ok(())
}

#[test]
fn reads_the_number_before_a_slash(rt: HostRuntime) {
    let cases = [
        ("1", Some((false, 1))),
        ("-1", Some((true, 1))),
        ("0", Some((false, 0))),
        ("-0", Some((true, 0))),
        ("007", Some((false, 7))),
        ("12/3", Some((false, 12))),
        ("12/3/4", Some((false, 12))),
        ("12//4", Some((false, 12))),
        ("12/", Some((false, 12))),
        ("-12/x y", Some((true, 12))),
        ("999999999999999999", Some((false, 999_999_999_999_999_999))),
        ("-999999999999999999", Some((true, 999_999_999_999_999_999))),
        ("1000000000000000000", None),
        ("0000000000000000001", None),
        ("000000000000000000", Some((false, 0))),
        ("+1", None),
        ("", None),
        ("-", None),
        ("/", None),
        ("/1", None),
        ("-/1", None),
        ("1-", None),
        ("--1", None),
        ("1.0", None),
        ("1e3", None),
        ("a", None),
        ("12a/3", None),
        ("12 3", None),
    ];
    for (word, want) in cases {
        let found = vertex_number(word.as_bytes());
        let found = found.map(|reference| (reference.is_negative, reference.number));
        assert_eq!(rt; found, want, "{word}");
    }
}
