// Rates and piles of riders chosen at run time.
use crate::support::{HIGHEST, cents, sealed};
use piles::{Pile, RateDraft, RateSheet, RiderDraft, RiderSheet};
use rates::dos::DosDraft;
use rates::dts::{DTS_2007, DtsDraft, GTS_2007};
use rates::sts::StsDraft;
use rates::xts::{XTS_2007, XtsDraft};
use riders::Rider;
use riders::credit::CreditDraft;
use riders::energy::EnergyDraft;
use riders::percent::PercentDraft;
use std::process::Abort;
use std::test::Fail;
use tariff::{Fault, HourRow, LINES, Line, PlainFacts, Rate, Refusal, Schedule, Unsealed};

const PLANT: PlainFacts = PlainFacts {
    contract: 20_000,
    substation: 30_000,
    peak: 25_000,
    peak_kva: 30_000,
    ratchet_peak: 30_000,
};

// Something bought, something sold and something scheduled.
const ROWS: [HourRow; 3] = [
    HourRow {
        energy: 100_000,
        price: 5_000,
        scheduled: 0,
    },
    HourRow {
        energy: 80_000,
        price: 99_999,
        scheduled: 15_000,
    },
    HourRow {
        energy: 0,
        price: 0,
        scheduled: 1,
    },
];

fn plant_cents<S: Schedule>(schedule: &S) -> Result<[i64; LINES], Refusal> {
    cents(schedule, PLANT, &ROWS)
}

fn chosen_cents(draft: RateDraft) -> Result<[i64; LINES], Refusal> {
    plant_cents(&RateSheet::try_from(draft)?)
}

fn sealed_cents<R: Rate>(draft: R) -> Result<[i64; LINES], Refusal> {
    plant_cents(&sealed(draft)?)
}

// Priced as the rate is, with what one line comes to that no other rate has so.
fn is_that_rate<R: Rate>(
    rt: &impl Abort,
    chosen: RateDraft,
    draft: R,
    line: Line,
    amount: i64,
) -> Result<(), Fail> {
    let priced = chosen_cents(chosen)?;
    assert_eq!(rt; priced, sealed_cents(draft)?);
    assert_eq!(rt; priced[line.index()], amount);
    Ok(())
}

#[test]
fn each_rate_chosen_is_that_rate(rt: HostRuntime) -> Result<(), Fail> {
    let dts = RateDraft::Dts(DTS_2007);
    is_that_rate(&rt, dts, DTS_2007, Line::DeliveryFixed, 1_516_333)?;
    let gts = RateDraft::Gts(GTS_2007);
    is_that_rate(&rt, gts, GTS_2007, Line::DeliveryDemand, 14_058_900)?;
    let xts = RateDraft::Xts(XTS_2007);
    is_that_rate(&rt, xts, XTS_2007, Line::Interconnection, 16_965)?;
    let dos = RateDraft::Dos(DosDraft::published_2009(10_000, -500));
    let alone = DosDraft::published_2009(10_000, -500);
    is_that_rate(&rt, dos, alone, Line::TransactionFee, 50_000)?;
    let sts = RateDraft::Sts(StsDraft::published_2009(-300, 40_000));
    let alone = StsDraft::published_2009(-300, 40_000);
    is_that_rate(&rt, sts, alone, Line::UnitConnection, 1_036_000)
}

fn energy(number: i64, rate: i64) -> EnergyDraft {
    EnergyDraft { number, rate }
}

fn percent(number: i64, factor: i64) -> PercentDraft {
    PercentDraft { number, factor }
}

#[test]
fn a_chosen_pile_is_the_nested_riders(rt: HostRuntime) -> Result<(), Fail> {
    let mut pile = Pile::new(rt.alloc(), RateSheet::try_from(RateDraft::Dts(DTS_2007))?);
    assert_eq!(rt; plant_cents(&pile)?, sealed_cents(DTS_2007)?);
    pile.pile(RiderSheet::try_from(RiderDraft::Credit(CreditDraft::published_2009(7)))?)?;
    pile.pile(RiderSheet::try_from(RiderDraft::Energy(energy(11, -250)))?)?;
    pile.pile(RiderSheet::try_from(RiderDraft::Percent(percent(12, 374)))?)?;
    let nested = Rider::over(
        sealed(percent(12, 374))?,
        Rider::over(
            sealed(energy(11, -250))?,
            Rider::over(sealed(CreditDraft::published_2009(7))?, sealed(DTS_2007)?),
        ),
    );
    let priced = plant_cents(&pile)?;
    assert_eq!(rt; priced, plant_cents(&nested)?);
    // B × S is 8,100,000,000: the first three bands whole and 100,000,000 of the rest, so
    // 2,511,933 and a third off
    assert_eq!(rt; priced[Line::PrimaryServiceCredit.index()], -2_511_933);
    Ok(())
}

const NOTHING: StsDraft = StsDraft {
    loss_factor: 0,
    unit_rating: 0,
    unit_connection: 0,
};

fn ten() -> Result<RiderSheet, Refusal> {
    Ok(RiderSheet::try_from(RiderDraft::Energy(energy(1, 10)))?)
}

fn doubling() -> Result<RiderSheet, Refusal> {
    Ok(RiderSheet::try_from(RiderDraft::Percent(percent(2, 10_000)))?)
}

// The order counts: a percent rider takes what lies beneath it alone.
#[test]
fn riders_pile_upwards(rt: HostRuntime) -> Result<(), Fail> {
    let row = [HourRow {
        energy: 4_000,
        price: 0,
        scheduled: 0,
    }];
    let mut above = Pile::new(rt.alloc(), sealed(NOTHING)?);
    above.pile(ten()?)?;
    above.pile(doubling()?)?;
    assert_eq!(rt; cents(&above, PLANT, &row)?[Line::Riders.index()], 20);
    let mut beneath = Pile::new(rt.alloc(), sealed(NOTHING)?);
    beneath.pile(doubling()?)?;
    beneath.pile(ten()?)?;
    assert_eq!(rt; cents(&beneath, PLANT, &row)?[Line::Riders.index()], 10);
    Ok(())
}

// The third energy rider at the top rate passes the limit in a full month; its fault comes up through
// the fourth.
#[test]
fn a_fault_names_its_rider(rt: HostRuntime) -> Result<(), Fail> {
    let sts = StsDraft::published_2009(0, 0);
    let mut pile = Pile::new(rt.alloc(), RateSheet::try_from(RateDraft::Sts(sts))?);
    for number in 7..10 {
        pile.pile(RiderSheet::try_from(RiderDraft::Energy(energy(number, 100_000)))?)?;
    }
    pile.pile(RiderSheet::try_from(RiderDraft::Percent(percent(10, 1)))?)?;
    assert_eq!(rt;
        cents(&pile, PLANT, &[HIGHEST; 744]).err(),
        Some(Refusal::LinePastLimit {
            month: 0,
            fault: Fault {
                line: Line::Riders,
                rider: Some(9)
            }
        })
    );
    Ok(())
}

fn rate_refused(draft: RateDraft) -> Option<Refusal> {
    RateSheet::try_from(draft).err().map(Refusal::from)
}

fn rider_refused(draft: RiderDraft) -> Option<Refusal> {
    RiderSheet::try_from(draft).err().map(Refusal::from)
}

fn at(place: u64) -> Option<Refusal> {
    Some(Refusal::FigureOutside { place })
}

const OUTSIDE: DtsDraft = DtsDraft {
    operating_reserve: 10_001,
    power_factor: -1,
    ..DTS_2007
};

#[test]
fn a_figure_outside_is_named(rt: HostRuntime) {
    let xts = XtsDraft {
        other_support: -1,
        ..XTS_2007
    };
    let rates = [
        (RateDraft::Dts(OUTSIDE), 5),
        (RateDraft::Gts(OUTSIDE), 5),
        (RateDraft::Xts(xts), 4),
        (RateDraft::Dos(DosDraft::published_2009(0, 0)), 3),
        (RateDraft::Sts(StsDraft::published_2009(0, 1_000_001)), 2),
    ];
    for (draft, place) in rates {
        assert_eq!(rt; rate_refused(draft), at(place));
    }
    let credit = CreditDraft {
        fixed: -1,
        ..CreditDraft::published_2009(1)
    };
    let riders = [
        (RiderDraft::Energy(energy(0, 0)), 1),
        (RiderDraft::Percent(percent(1, 10_001)), 2),
        (RiderDraft::Credit(credit), 6),
    ];
    for (draft, place) in riders {
        assert_eq!(rt; rider_refused(draft), at(place));
    }
}

#[test]
fn a_refused_draft_is_mended_and_sealed(rt: HostRuntime) -> Result<(), Fail> {
    let Err(
        Unsealed {
            draft: RateDraft::Gts(mut draft),
            ..
        },
    ) = RateSheet::try_from(RateDraft::Gts(OUTSIDE))
    else {
        return Err("another draft came back".into());
    };
    assert_eq!(rt; draft, OUTSIDE);
    draft.operating_reserve = DTS_2007.operating_reserve;
    draft.power_factor = DTS_2007.power_factor;
    assert_eq!(rt;
        chosen_cents(RateDraft::Gts(draft))?,
        sealed_cents(DTS_2007)?
    );
    let Err(
        Unsealed {
            draft: RiderDraft::Energy(mut draft),
            ..
        },
    ) = RiderSheet::try_from(RiderDraft::Energy(energy(0, 10)))
    else {
        return Err("another draft came back".into());
    };
    assert_eq!(rt; draft, energy(0, 10));
    draft.number = 1;
    assert!(rt; rider_refused(RiderDraft::Energy(draft)).is_none());
    Ok(())
}
