// Riders piled over rates.
use crate::support;
use crate::support::{limits, refused_at, sealed};
use rates::dts::{DTS_2007, DtsDraft};
use riders::Rider;
use riders::credit::CreditDraft;
use riders::energy::EnergyDraft;
use riders::percent::PercentDraft;
use std::test::Fail;
use tariff::{HourRow, LINES, Line, Numbers, PlainFacts, Refusal, Schedule};

// A sheet that charges nothing.
const NOTHING: DtsDraft = DtsDraft {
    system_demand: 0,
    system_energy: 0,
    delivery_demand: 0,
    delivery_fixed: 0,
    operating_reserve: 0,
    voltage_control: 0,
    other_support: 0,
    power_factor: 0,
};

const FULL: HourRow = HourRow {
    energy: 4_000_000,
    price: 0,
    scheduled: 0,
};

fn cents<S: Schedule>(
    schedule: &S,
    substation: u32,
    rows: &[HourRow],
) -> Result<[i64; LINES], Refusal> {
    let plain = PlainFacts {
        contract: 20_000,
        substation,
        peak: 30_000,
        peak_kva: 30_000,
        ratchet_peak: 0,
    };
    support::cents(schedule, plain, rows)
}

fn energy(number: i64, rate: i64) -> EnergyDraft {
    EnergyDraft { number, rate }
}

fn percent(number: i64, factor: i64) -> PercentDraft {
    PercentDraft { number, factor }
}

#[test]
fn credit_by_bands(rt: HostRuntime) -> Result<(), Fail> {
    let credited = Rider::over(sealed(CreditDraft::published_2009(1))?, sealed(NOTHING)?);
    assert_eq!(rt;
        cents(&credited, 20_000, &[])?[Line::PrimaryServiceCredit.index()],
        -3_305_650
    );
    assert_eq!(rt;
        cents(&credited, 40_000, &[])?[Line::PrimaryServiceCredit.index()],
        -2_298_325
    );
    Ok(())
}

#[test]
fn a_percent_of_all_lines_beneath(rt: HostRuntime) -> Result<(), Fail> {
    let small = HourRow {
        energy: 4_000,
        price: 0,
        scheduled: 0,
    };
    let pile = Rider::over(
        sealed(percent(2, 100))?,
        Rider::over(sealed(energy(1, -50))?, sealed(NOTHING)?),
    );
    assert_eq!(rt; cents(&pile, 30_000, &[small])?[Line::Riders.index()], -51);
    let turned = Rider::over(sealed(percent(2, -10_000))?, sealed(DTS_2007)?);
    assert_eq!(rt;
        cents(&turned, 30_000, &[FULL])?[Line::Riders.index()],
        -8_779_333
    );
    Ok(())
}

// Three energy riders at the top rate pass the limit of a line in a full month, and no two do.
#[test]
fn the_third_passes_the_limit(rt: HostRuntime) -> Result<(), Fail> {
    let two = Rider::over(
        sealed(energy(8, 100_000))?,
        Rider::over(sealed(energy(7, 100_000))?, sealed(NOTHING)?),
    );
    assert_eq!(rt;
        cents(&two, 30_000, &[FULL; 744])?[Line::Riders.index()],
        148_800_000_000
    );
    let three = Rider::over(
        sealed(energy(9, 100_000))?,
        Rider::over(
            sealed(energy(8, 100_000))?,
            Rider::over(sealed(energy(7, 100_000))?, sealed(NOTHING)?),
        ),
    );
    // a fault comes up unchanged through what lies above
    let four = Rider::over(sealed(percent(10, 1))?, three);
    let priced = cents(&four, 30_000, &[FULL; 744]);
    let refusal = priced.err().ok_or("a line past the limit was priced")?;
    assert_eq!(rt;
        refusal.numbers(),
        Numbers {
            number: 15,
            month: 0,
            place: 14,
            rider: 9
        }
    );
    Ok(())
}

#[test]
fn rider_figures_have_limits(rt: HostRuntime) -> Result<(), Fail> {
    limits::<EnergyDraft, 2>(&rt, [1, -100_000], [65_535, 100_000])?;
    limits::<PercentDraft, 2>(&rt, [1, -10_000], [65_535, 10_000])?;
    limits::<CreditDraft, 6>(
        &rt,
        [1, 0, 0, 0, 0, 0],
        [65_535, 500_000, 500_000, 500_000, 500_000, 10_000_000],
    )
}

#[test]
fn the_first_figure_outside_is_named(rt: HostRuntime) {
    assert_eq!(rt; refused_at(percent(0, 10_001)), Some(1));
}
