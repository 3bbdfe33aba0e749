use ofit_num::{Frac, NumFault, append_decimal, lowest, read_decimal};
use std::test::Fail;

const MOST: i64 = 1_000_000_000;

fn read(text: &[u8], places: u32, limit: i64) -> Option<Result<i64, NumFault>> {
    if places <= 6 && 0 <= limit {
        Some(read_decimal(text, places, limit))
    } else {
        None
    }
}

#[test]
fn decimals_are_read_at_their_places(rt: HostRuntime) {
    let cases: [(&[u8], u32, i64, i64); 26] = [
        (b"1e+05", 3, MOST, 100_000_000),
        (b"99999.5", 3, MOST, 99_999_500),
        (b".5", 3, MOST, 500),
        (b"5.", 3, MOST, 5000),
        (b"+3", 0, MOST, 3),
        (b"1.50", 1, MOST, 15),
        (b"0e-9", 0, MOST, 0),
        (b"-0.5", 1, MOST, -5),
        (b"-0", 6, 0, 0),
        (b"-0.000", 0, 0, 0),
        (b"  7 ", 2, MOST, 700),
        (b" -7.25  ", 2, MOST, -725),
        (b"12E2", 0, MOST, 1200),
        (b"1200e-2", 0, MOST, 12),
        (b"1200E-02", 0, MOST, 12),
        (b"0.001e3", 0, MOST, 1),
        (b"00012.3400", 2, MOST, 1234),
        (b"1000000000", 0, MOST, MOST),
        (b"-1000000000", 0, MOST, -MOST),
        (b"9223372036854775807", 0, i64::MAX, i64::MAX),
        (b"0e999", 6, 0, 0),
        (b"0.0e-999", 0, 0, 0),
        (b"1e-6", 6, MOST, 1),
        (b"1e9", 0, MOST, MOST),
        (
            b"00000000000000000000000000000000000000000000000000000005",
            0,
            5,
            5,
        ),
        (
            b"5.00000000000000000000000000000000000000000000000000000",
            0,
            5,
            5,
        ),
    ];
    for (text, places, limit, units) in cases {
        assert_eq!(rt; read(text, places, limit), Some(Ok(units)));
    }
}

#[test]
fn other_texts_have_the_first_of_three_faults(rt: HostRuntime) {
    let texts: [&[u8]; 22] = [
        b"", b" ", b"NA", b"1,5", b"0x1", b"--1", b"+-1", b"- 1", b".", b"-.", b"1.2.3", b"e5",
        b".e5", b"1e", b"1e+", b"1e1000", b"1e0000", b"1 2", b"1e5.", b"\t1", b"1\n", b"inf",
    ];
    for text in texts {
        assert_eq!(rt; read(text, 6, MOST), Some(Err(NumFault::NotNumber)));
    }
    let cases: [(&[u8], u32, i64, NumFault); 13] = [
        (b"0.00001x", 0, 0, NumFault::NotNumber),
        (b"1e-7", 6, MOST, NumFault::TooFine),
        (b"1.2345", 3, MOST, NumFault::TooFine),
        (b"1.5", 0, MOST, NumFault::TooFine),
        (b"99999999999.5", 0, MOST, NumFault::TooFine),
        (b"1e-999", 6, MOST, NumFault::TooFine),
        (b"105e-2", 1, MOST, NumFault::TooFine),
        (b"1000000001", 0, MOST, NumFault::TooLarge),
        (b"-1000000001", 0, MOST, NumFault::TooLarge),
        (b"1000000.001", 3, MOST, NumFault::TooLarge),
        (b"1e999", 6, i64::MAX, NumFault::TooLarge),
        (b"9223372036854775808", 0, i64::MAX, NumFault::TooLarge),
        (b"0.1", 1, 0, NumFault::TooLarge),
    ];
    for (text, places, limit, fault) in cases {
        assert_eq!(rt; read(text, places, limit), Some(Err(fault)));
    }
}

#[test]
fn decimals_are_written(rt: HostRuntime) -> Result<(), Fail> {
    let cases: [(i128, u32, &[u8]); 8] = [
        (0, 0, b"0"),
        (0, 3, b"0.000"),
        (-5, 1, b"-0.5"),
        (2250, 3, b"2.250"),
        (-1, 9, b"-0.000000001"),
        (1_000_000_000, 9, b"1.000000000"),
        (-70, 0, b"-70"),
        (i128::MIN, 1, b"-17014118346046923173168730371588410572.8"),
    ];
    for (units, places, want) in cases {
        let mut text = Vec::new(rt.alloc());
        append_decimal(&mut text, units, places)?;
        assert_eq!(rt; text.as_slice(), want);
    }
    Ok(())
}

fn floor(num: i128, den: i128, tens: u32) -> Option<i128> {
    let made = Frac::make(num, den)?;
    if tens <= 9 {
        Some(made.floor_scaled(tens))
    } else {
        None
    }
}

#[test]
fn fractions_are_rounded_down(rt: HostRuntime) {
    for (num, den, tens, want) in [
        (-1, 3, 0, -1),
        (-1, 3, 3, -334),
        (5, 2, 0, 2),
        (5, 2, 9, 2_500_000_000),
    ] {
        assert_eq!(rt; floor(num, den, tens), Some(want));
    }
}

#[test]
fn fractions_are_reduced(rt: HostRuntime) {
    assert_eq!(rt; lowest(10, 4), (5, 2));
    assert_eq!(rt; lowest(0, 7), (0, 1));
}
