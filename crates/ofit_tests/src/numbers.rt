use ofit_num::{
    Frac, Groups, Row, WholeFault, append_signed, append_whole, read_signed, read_whole,
};
use std::cmp::Ordering;
use std::test::Fail;

fn parts(num: i128, den: i128) -> Option<(i128, i128)> {
    let made = Frac::make(num, den)?;
    Some((made.num(), made.den()))
}

const MOST_NUM: i128 = 1_000_000_000_000_000_000_000;

const MOST_DEN: i128 = 1_000_000_000_000;

#[test]
fn fractions_are_made_in_lowest_terms_and_keep_their_limits(rt: HostRuntime) {
    let cases: [(i128, i128, Option<(i128, i128)>); 14] = [
        (10, 4, Some((5, 2))),
        (-10, 4, Some((-5, 2))),
        (0, 7, Some((0, 1))),
        (7, 1, Some((7, 1))),
        (3, 0, None),
        (3, -2, None),
        (MOST_NUM, 1, Some((MOST_NUM, 1))),
        (-MOST_NUM, 1, Some((-MOST_NUM, 1))),
        (MOST_NUM + 1, 1, None),
        (1, MOST_DEN, Some((1, MOST_DEN))),
        (1, MOST_DEN + 1, None),
        (2, 2 * MOST_DEN, Some((1, MOST_DEN))),
        (i128::MIN, i128::MAX, None),
        (i128::MIN, 1, None),
    ];
    for (num, den, made) in cases {
        assert_eq!(rt; parts(num, den), made);
    }
}

#[test]
fn fractions_compare_by_value(rt: HostRuntime) -> Result<(), Fail> {
    let half = Frac::make(1, 2).ok_or("a half")?;
    let third = Frac::make(1, 3).ok_or("a third")?;
    let debt = Frac::make(-1, 3).ok_or("minus a third")?;
    assert_eq!(rt; half.compare(&third), Ordering::Greater);
    assert_eq!(rt; third.compare(&half), Ordering::Less);
    assert_eq!(rt; debt.compare(&third), Ordering::Less);
    assert_eq!(rt; half.compare(&half), Ordering::Equal);
    Ok(())
}

#[test]
fn texts_are_canonical(rt: HostRuntime) -> Result<(), Fail> {
    let mut text = Vec::new(rt.alloc());
    append_whole(&mut text, 0)?;
    append_signed(&mut text, -5)?;
    append_signed(&mut text, 7)?;
    append_whole(&mut text, u128::MAX)?;
    append_signed(&mut text, i128::MIN)?;
    let want =
        b"0-57340282366920938463463374607431768211455-170141183460469231731687303715884105728";
    assert_eq!(rt; text.as_slice(), want.as_slice());
    Ok(())
}

#[test]
fn canonical_texts_are_read(rt: HostRuntime) {
    let wholes: [(&[u8], u128, Result<u128, WholeFault>); 6] = [
        (b"0", 0, Ok(0)),
        (b"907", 907, Ok(907)),
        (b"908", 907, Err(WholeFault::TooLarge)),
        (
            b"340282366920938463463374607431768211455",
            u128::MAX,
            Ok(u128::MAX),
        ),
        (
            b"340282366920938463463374607431768211456",
            u128::MAX,
            Err(WholeFault::TooLarge),
        ),
        (
            b"99999999999999999999999999999999999999999999999999",
            u128::MAX,
            Err(WholeFault::TooLarge),
        ),
    ];
    for (text, limit, want) in wholes {
        assert_eq!(rt; read_whole(text, limit), want);
    }
    let signed: [(&[u8], Result<i128, WholeFault>); 3] = [
        (b"-5", Ok(-5)),
        (b"9", Ok(9)),
        (b"-10", Err(WholeFault::TooLarge)),
    ];
    for (text, want) in signed {
        assert_eq!(rt; read_signed(text, 9), want);
    }
}

#[test]
fn other_texts_are_not_numbers(rt: HostRuntime) {
    let texts: [&[u8]; 9] = [b"", b"00", b"01", b"+1", b"-", b"1 ", b" 1", b"1x", b"1.0"];
    for text in texts {
        assert_eq!(rt; read_whole(text, 9), Err(WholeFault::NotWhole));
        assert_eq!(rt; read_signed(text, 9), Err(WholeFault::NotWhole));
    }
    assert_eq!(rt; read_whole(b"-1", 9), Err(WholeFault::NotWhole));
    let signed: [&[u8]; 3] = [b"-0", b"-01", b"--1"];
    for text in signed {
        assert_eq!(rt; read_signed(text, 9), Err(WholeFault::NotWhole));
    }
}

#[test]
fn rows_that_are_added_at_once_are_one_group(rt: HostRuntime) -> Result<(), Fail> {
    let row = Row {
        number: 1,
        value: 3,
        weight: 1,
    };
    let mut groups = Groups::new(rt.alloc());
    groups.add(&[row, row])?;
    assert_eq!(rt; groups.count(), 1);
    Ok(())
}
