// Rounding, and the limits of facts and hours on both sides of each bound.
use std::test::Fail;
use tariff::{Facts, Fraction, HourList, HourRow, PlainFacts};

fn cents(numerator: i128, divisor: u64) -> Option<i64> {
    Fraction { numerator, divisor }.cents()
}

#[test]
fn halves_go_away_from_zero(rt: HostRuntime) {
    let cases = [
        (1, 2, Some(1)),
        (-1, 2, Some(-1)),
        (3, 2, Some(2)),
        (-3, 2, Some(-2)),
        (4_999, 10_000, Some(0)),
        (-4_999, 10_000, Some(0)),
        (5_000, 10_000, Some(1)),
        (-5_001, 10_000, Some(-1)),
        (1, 0, None),
        (
            9_223_372_036_854_775_807,
            1,
            Some(9_223_372_036_854_775_807),
        ),
        (9_223_372_036_854_775_808, 1, None),
        (-9_223_372_036_854_775_808, 1, None),
    ];
    for (numerator, divisor, rounded) in cases {
        assert_eq!(rt; cents(numerator, divisor), rounded);
    }
}

fn facts([contract, substation, peak, peak_kva, ratchet_peak]: [u32; 5]) -> bool {
    Facts::new(PlainFacts {
        contract,
        substation,
        peak,
        peak_kva,
        ratchet_peak,
    })
    .is_ok()
}

#[test]
fn facts_have_limits(rt: HostRuntime) -> Result<(), Fail> {
    let cases = [
        ([1, 1, 0, 0, 0], true),
        ([1_000_000; 5], true),
        ([0, 1, 0, 0, 0], false),
        ([2, 1, 0, 0, 0], false),
        ([1, 1_000_001, 0, 0, 0], false),
        ([1, 1, 1, 0, 0], false),
        ([1, 1, 0, 1_000_001, 0], false),
        ([1, 1, 0, 0, 1_000_001], false),
    ];
    for (plain, within) in cases {
        assert_eq!(rt; facts(plain), within);
    }
    let none = PlainFacts {
        contract: 0,
        substation: 0,
        peak: 0,
        peak_kva: 0,
        ratchet_peak: 0,
    };
    let refusal = Facts::new(none).err().ok_or("no contract was taken")?;
    assert_eq!(rt; refusal.numbers().number, 10);
    Ok(())
}

fn hour((energy, price, scheduled): (u32, u32, u32)) -> bool {
    let row = HourRow {
        energy,
        price,
        scheduled,
    };
    HourList::check(&[row]).is_ok()
}

fn taken(rows: &[HourRow]) -> usize {
    HourList::new(rows).rows.len()
}

#[test]
fn hours_have_limits(rt: HostRuntime) {
    let cases = [
        ((0, 0, 0), true),
        ((4_000_000, 99_999, 1_000_000), true),
        ((4_000_001, 0, 0), false),
        ((0, 100_000, 0), false),
        ((0, 0, 1_000_001), false),
    ];
    for (row, within) in cases {
        assert_eq!(rt; hour(row), within);
    }
    let good = HourRow {
        energy: 1,
        price: 1,
        scheduled: 1,
    };
    let wrong = HourRow {
        energy: 4_000_001,
        price: 1,
        scheduled: 1,
    };
    assert_eq!(rt; taken(&[good, good, wrong, good]), 2);
    assert_eq!(rt; taken(&[good, good]), 2);
    assert_eq!(rt; taken(&[]), 0);
}
