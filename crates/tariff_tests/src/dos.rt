// Rate DOS 7 Minutes: its sheet's limits and what it charges. The amounts are worked out by hand from
// the rate.
use crate::support::{HIGHEST, filled, idle_cents, limits, refused, refused_at};
use rates::dos::DosDraft;
use std::test::Fail;
use tariff::{HourRow, Line, Numbers, Refusal};

const LEAST: [i64; 4] = [0, 0, 1, -10_000];

const MOST: [i64; 4] = [100_000, 10_000_000, 1_000_000, 10_000];

#[test]
fn each_figure_has_limits(rt: HostRuntime) -> Result<(), Fail> {
    assert_eq!(rt; refused_at(DosDraft::published_2009(10_000, 500)), None);
    limits::<DosDraft, 4>(&rt, LEAST, MOST)
}

#[test]
fn a_refused_draft_comes_back(rt: HostRuntime) -> Result<(), Fail> {
    let draft = DosDraft {
        energy: 528,
        transaction_fee: 50_000,
        opportunity_capacity: 0,
        loss_factor: 10_001,
    };
    let unsealed = refused(DosDraft::published_2009(0, 10_001))?;
    assert_eq!(rt;
        unsealed.refusal.numbers(),
        Numbers {
            number: 18,
            month: 0,
            place: 3,
            rider: 0
        }
    );
    assert_eq!(rt; unsealed.draft, draft);
    Ok(())
}

const TRANSACTION: HourRow = HourRow {
    energy: 32_000,
    price: 5_000,
    scheduled: 1,
};

const OTHER: HourRow = HourRow {
    energy: 40_000,
    price: 9_000,
    scheduled: 0,
};

#[test]
fn energy_and_losses_are_charged(rt: HostRuntime) -> Result<(), Fail> {
    assert_eq!(rt;
        idle_cents(DosDraft::published_2009(10_000, 500), &[TRANSACTION; 20])?,
        [0, 0, 0, 0, 0, 0, 0, 0, 124_480, 50_000, 0, 0, 0, 0]
    );
    Ok(())
}

// The cents of the interconnection charge.
fn interconnection(
    opportunity_capacity: i64,
    loss_factor: i64,
    rows: &[HourRow],
) -> Result<i64, Refusal> {
    let draft = DosDraft::published_2009(opportunity_capacity, loss_factor);
    Ok(idle_cents(draft, rows)?[Line::Interconnection.index()])
}

#[test]
fn other_hours_have_energy_and_no_losses(rt: HostRuntime) -> Result<(), Fail> {
    let rows = [TRANSACTION, OTHER, TRANSACTION, OTHER];
    assert_eq!(rt; interconnection(10_000, 500, &rows)?, 23_008);
    assert_eq!(rt; interconnection(10_000, -500, &rows)?, 15_008);
    assert_eq!(rt; interconnection(10_000, 500, &[OTHER; 5])?, 26_400);
    Ok(())
}

#[test]
fn the_greater_part_is_charged(rt: HostRuntime) -> Result<(), Fail> {
    let cases = [
        (10_000, -65, 79_280),
        (10_000, -66, 79_200),
        (10_000, -67, 79_200),
        (10_000, -10_000, 79_200),
        (15_717, 500, 124_480),
        (15_718, 500, 124_487),
    ];
    for (capacity, loss_factor, cents) in cases {
        assert_eq!(rt;
            interconnection(capacity, loss_factor, &[TRANSACTION; 20])?,
            cents
        );
    }
    Ok(())
}

#[test]
fn each_transaction_hour_has_its_minimum(rt: HostRuntime) -> Result<(), Fail> {
    let idle = HourRow {
        energy: 0,
        price: 9_000,
        scheduled: 1,
    };
    assert_eq!(rt; interconnection(10_000, 500, &[idle; 3])?, 11_880);
    Ok(())
}

#[test]
fn the_fee_is_charged_every_month(rt: HostRuntime) -> Result<(), Fail> {
    assert_eq!(rt;
        idle_cents(DosDraft::published_2009(10_000, 500), &[])?,
        [0, 0, 0, 0, 0, 0, 0, 0, 0, 50_000, 0, 0, 0, 0]
    );
    Ok(())
}

#[test]
fn the_highest_month_is_priced(rt: HostRuntime) -> Result<(), Fail> {
    assert_eq!(rt;
        idle_cents(filled::<DosDraft>(&MOST)?, &[HIGHEST; 744])?,
        [
            0,
            0,
            0,
            0,
            0,
            0,
            0,
            0,
            148_799_256_000,
            10_000_000,
            0,
            0,
            0,
            0,
        ]
    );
    let credit = DosDraft {
        loss_factor: -10_000,
        ..filled::<DosDraft>(&MOST)?
    };
    let lines = idle_cents(credit, &[HIGHEST; 744])?;
    assert_eq!(rt; lines[Line::Interconnection.index()], 55_800_000_000);
    Ok(())
}
