// Months priced under DTS and GTS. The amounts are worked out by hand from the rate.
use crate::support;
use crate::support::sealed;
use rates::dts::{DTS_2007, DtsDraft, GTS_2007};
use std::test::Fail;
use tariff::{Facts, HourRow, LINES, Line, Numbers, PlainFacts, Refusal};

fn cents(draft: DtsDraft, plain: PlainFacts, rows: &[HourRow]) -> Result<[i64; LINES], Refusal> {
    support::cents(&sealed(draft)?, plain, rows)
}

fn month(peak: u32, peak_kva: u32) -> PlainFacts {
    PlainFacts {
        contract: 20_000,
        substation: 30_000,
        peak,
        peak_kva,
        ratchet_peak: 30_000,
    }
}

const HOUR: HourRow = HourRow {
    energy: 40_000,
    price: 5_000,
    scheduled: 0,
};

#[test]
fn gts_has_its_own_delivery(rt: HostRuntime) -> Result<(), Fail> {
    let lines = cents(GTS_2007, month(25_000, 30_000), &[HOUR; 2])?;
    assert_eq!(rt;
        lines,
        [
            4_360_500, 2_820, 14_058_900, 0, 3_740, 1_980, 170_000, 90_000, 0, 0, 0, 0, 0, 0,
        ]
    );
    Ok(())
}

#[test]
fn power_factor_counts_below_nine_tenths(rt: HostRuntime) -> Result<(), Fail> {
    assert_eq!(rt;
        cents(DTS_2007, month(9_000, 10_000), &[])?[Line::PowerFactor.index()],
        0
    );
    assert_eq!(rt;
        cents(DTS_2007, month(9_000, 10_001), &[])?[Line::PowerFactor.index()],
        440
    );
    Ok(())
}

#[test]
fn the_highest_of_three_is_billed(rt: HostRuntime) -> Result<(), Fail> {
    let peak = PlainFacts {
        contract: 1,
        substation: 1,
        peak: 10,
        peak_kva: 10,
        ratchet_peak: 11,
    };
    let ratchet_peak = PlainFacts {
        ratchet_peak: 12,
        ..peak
    };
    let contract = PlainFacts {
        contract: 13,
        substation: 13,
        ..ratchet_peak
    };
    assert_eq!(rt; Facts::new(peak)?.billing_capacity(), 100);
    assert_eq!(rt; Facts::new(ratchet_peak)?.billing_capacity(), 108);
    assert_eq!(rt; Facts::new(contract)?.billing_capacity(), 117);
    Ok(())
}

#[test]
fn a_month_has_744_hours_at_most(rt: HostRuntime) -> Result<(), Fail> {
    let most = HourRow {
        energy: 4_000_000,
        price: 99_999,
        scheduled: 0,
    };
    let full = cents(DTS_2007, month(1_000_000, 1_000_000), &[most; 744])?;
    assert_eq!(rt; full[Line::OperatingReserve.index()], 2_782_532_174);
    let priced = cents(DTS_2007, month(0, 0), &[HOUR; 745]);
    let refusal = priced.err().ok_or("745 hours were priced")?;
    assert_eq!(rt;
        refusal.numbers(),
        Numbers {
            number: 8,
            month: 0,
            place: 745,
            rider: 0
        }
    );
    Ok(())
}
