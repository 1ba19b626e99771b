// Rate XTS: its sheet's limits and what it charges. The amounts are worked out by hand from the rate.
use crate::support::{HIGHEST, filled, idle_cents, limits, refused, refused_at};
use rates::xts::{XTS_2007, XtsDraft};
use std::test::Fail;
use tariff::{HourRow, Line, Numbers, Refusal};

const LEAST: [i64; 4] = [0; 4];

const MOST: [i64; 4] = [100_000, 10_000, 100_000, 100_000];

#[test]
fn each_figure_has_limits(rt: HostRuntime) -> Result<(), Fail> {
    assert_eq!(rt; refused_at(XTS_2007), None);
    limits::<XtsDraft, 4>(&rt, LEAST, MOST)
}

const OUTSIDE: XtsDraft = XtsDraft {
    interconnection: 377,
    operating_reserve: 374,
    voltage_control: 100_001,
    other_support: -1,
};

#[test]
fn a_refused_draft_comes_back(rt: HostRuntime) -> Result<(), Fail> {
    let unsealed = refused(OUTSIDE)?;
    assert_eq!(rt;
        unsealed.refusal.numbers(),
        Numbers {
            number: 18,
            month: 0,
            place: 3,
            rider: 0
        }
    );
    assert_eq!(rt; unsealed.draft, OUTSIDE);
    Ok(())
}

#[test]
fn what_was_scheduled_counts_at_nine_tenths(rt: HostRuntime) -> Result<(), Fail> {
    let hour = HourRow {
        energy: 800_000,
        price: 5_000,
        scheduled: 250_000,
    };
    assert_eq!(rt;
        idle_cents(XTS_2007, &[hour; 4])?,
        [
            0, 0, 0, 0, 149_600, 79_200, 8_000, 0, 339_300, 0, 0, 0, 0, 0,
        ]
    );
    Ok(())
}

#[test]
fn energy_alone_is_charged(rt: HostRuntime) -> Result<(), Fail> {
    let hour = HourRow {
        energy: 40_000,
        price: 5_000,
        scheduled: 0,
    };
    assert_eq!(rt;
        idle_cents(XTS_2007, &[hour; 3])?,
        [0, 0, 0, 0, 5_610, 2_970, 300, 0, 11_310, 0, 0, 0, 0, 0]
    );
    Ok(())
}

fn interconnection(draft: XtsDraft, energy: u32, scheduled: u32) -> Result<i64, Refusal> {
    let hour = HourRow {
        energy,
        price: 0,
        scheduled,
    };
    Ok(idle_cents(draft, &[hour])?[Line::Interconnection.index()])
}

const DEAREST: XtsDraft = XtsDraft {
    interconnection: 100_000,
    operating_reserve: 0,
    voltage_control: 0,
    other_support: 0,
};

#[test]
fn the_greater_part_is_charged(rt: HostRuntime) -> Result<(), Fail> {
    let cases = [
        (DEAREST, 3_599_999, 1_000_000, 90_000_000),
        (DEAREST, 3_600_000, 1_000_000, 90_000_000),
        (DEAREST, 3_600_001, 1_000_000, 90_000_025),
        (XTS_2007, 3_599_989, 1_000_000, 339_300),
        (XTS_2007, 3_600_011, 1_000_000, 339_301),
        (XTS_2007, 0, 3_000, 1_018),
    ];
    for (draft, energy, scheduled, cents) in cases {
        assert_eq!(rt; interconnection(draft, energy, scheduled)?, cents);
    }
    Ok(())
}

#[test]
fn the_highest_month_is_priced(rt: HostRuntime) -> Result<(), Fail> {
    assert_eq!(rt;
        idle_cents(filled::<XtsDraft>(&MOST)?, &[HIGHEST; 744])?,
        [
            0,
            0,
            0,
            0,
            74_399_256_000,
            74_400_000_000,
            74_400_000_000,
            0,
            74_400_000_000,
            0,
            0,
            0,
            0,
            0,
        ]
    );
    Ok(())
}
