// Rate STS: its sheet's limits and what it charges. The amounts are worked out by hand from the rate.
use crate::support::{HIGHEST, filled, idle_cents, limits, refused, refused_at};
use rates::sts::StsDraft;
use std::test::Fail;
use tariff::{HourRow, Line, Numbers, Refusal};

const LEAST: [i64; 3] = [-10_000, 0, 0];

const MOST: [i64; 3] = [10_000, 1_000_000, 10_000_000];

#[test]
fn each_figure_has_limits(rt: HostRuntime) -> Result<(), Fail> {
    assert_eq!(rt; refused_at(StsDraft::published_2009(-300, 1_500)), None);
    limits::<StsDraft, 3>(&rt, LEAST, MOST)
}

#[test]
fn a_refused_draft_comes_back(rt: HostRuntime) -> Result<(), Fail> {
    let draft = StsDraft {
        loss_factor: 10_000,
        unit_rating: -1,
        unit_connection: 25_900,
    };
    let unsealed = refused(StsDraft::published_2009(10_000, -1))?;
    assert_eq!(rt;
        unsealed.refusal.numbers(),
        Numbers {
            number: 18,
            month: 0,
            place: 2,
            rider: 0
        }
    );
    assert_eq!(rt; unsealed.draft, draft);
    Ok(())
}

#[test]
fn losses_and_connection_are_charged(rt: HostRuntime) -> Result<(), Fail> {
    let hour = HourRow {
        energy: 100_000,
        price: 4_000,
        scheduled: 0,
    };
    assert_eq!(rt;
        idle_cents(StsDraft::published_2009(-300, 1_500), &[hour; 4])?,
        [0, 0, 0, 0, 0, 0, 0, 0, 0, 0, -12_000, 38_850, 0, 0]
    );
    Ok(())
}

fn losses(loss_factor: i64) -> Result<i64, Refusal> {
    let hour = HourRow {
        energy: 1,
        price: 20_000,
        scheduled: 0,
    };
    let lines = idle_cents(StsDraft::published_2009(loss_factor, 0), &[hour])?;
    Ok(lines[Line::Losses.index()])
}

#[test]
fn half_a_cent_of_losses_goes_away_from_zero(rt: HostRuntime) -> Result<(), Fail> {
    for (loss_factor, cents) in [(1_000, 1), (999, 0), (-999, 0), (-1_000, -1)] {
        assert_eq!(rt; losses(loss_factor)?, cents);
    }
    Ok(())
}

fn unit_connection(unit_rating: i64) -> Result<i64, Refusal> {
    let lines = idle_cents(StsDraft::published_2009(0, unit_rating), &[])?;
    Ok(lines[Line::UnitConnection.index()])
}

#[test]
fn a_rating_is_charged_by_the_kw(rt: HostRuntime) -> Result<(), Fail> {
    for (unit_rating, cents) in [(0, 0), (1, 26), (15, 389)] {
        assert_eq!(rt; unit_connection(unit_rating)?, cents);
    }
    Ok(())
}

#[test]
fn the_highest_month_is_priced(rt: HostRuntime) -> Result<(), Fail> {
    let lines = idle_cents(
        filled::<StsDraft>(&[-10_000, 1_000_000, 10_000_000])?,
        &[HIGHEST; 744],
    )?;
    assert_eq!(rt;
        lines,
        [
            0,
            0,
            0,
            0,
            0,
            0,
            0,
            0,
            0,
            0,
            -74_399_256_000,
            10_000_000_000,
            0,
            0,
        ]
    );
    Ok(())
}
