// What the tests share.
use std::process::Abort;
use std::test::Fail;
use tariff::{
    Draft, Facts, HourList, HourRow, LINES, PlainFacts, Rate, Refusal, Schedule, Sealed, Unsealed,
    price,
};

// The facts of a month with nothing on its meter.
const IDLE: PlainFacts = PlainFacts {
    contract: 1,
    substation: 1,
    peak: 0,
    peak_kva: 0,
    ratchet_peak: 0,
};

// An hour with each value at its limit.
pub(crate) const HIGHEST: HourRow = HourRow {
    energy: 4_000_000,
    price: 99_999,
    scheduled: 1_000_000,
};

// The cents of each line of a month.
pub(crate) fn cents<S: Schedule>(
    schedule: &S,
    plain: PlainFacts,
    rows: &[HourRow],
) -> Result<[i64; LINES], Refusal> {
    let facts = Facts::new(plain)?;
    let amounts = price(schedule, &facts, &HourList::new(rows))?;
    Ok(amounts.cents)
}

// Those under a rate alone, with nothing on the meter.
pub(crate) fn idle_cents<R: Rate>(draft: R, rows: &[HourRow]) -> Result<[i64; LINES], Refusal> {
    cents(&sealed(draft)?, IDLE, rows)
}

pub(crate) fn sealed<D: Draft>(draft: D) -> Result<Sealed<D>, Refusal> {
    Ok(draft.seal()?)
}

// What sealing hands back of a draft that it refuses.
pub(crate) fn refused<D: Draft>(draft: D) -> Result<Unsealed<D>, Fail> {
    let unsealed = draft.seal().err();
    Ok(unsealed.ok_or("a figure past its limit was sealed")?)
}

// The place of the figure that sealing refuses; None where it seals.
pub(crate) fn refused_at<D: Draft>(draft: D) -> Option<u64> {
    sealed(draft).err().map(|refusal| refusal.numbers().place)
}

// A draft that is filled in from its figures in their order.
pub(crate) fn filled<D: Draft>(figures: &[i64]) -> Result<D, Fail> {
    Ok(D::from_figures(figures).ok_or("not as many figures as the sheet has")?)
}

// Sealed with every figure at its least or at its most, and refused by its place with one a
// step past a limit.
pub(crate) fn limits<D: Draft, const N: usize>(
    rt: &impl Abort,
    least: [i64; N],
    most: [i64; N],
) -> Result<(), Fail> {
    a_step_past::<D, N>(rt, least, -1)?;
    a_step_past::<D, N>(rt, most, 1)
}

fn a_step_past<D: Draft, const N: usize>(
    rt: &impl Abort,
    limits: [i64; N],
    step: i64,
) -> Result<(), Fail> {
    assert_eq!(rt; refused_at(filled::<D>(&limits)?), None);
    for (i, limit) in limits.iter().enumerate() {
        let mut past = limits;
        past[i] = limit.saturating_add(step);
        assert_eq!(rt; refused_at(filled::<D>(&past)?), Some(i as u64 + 1));
    }
    Ok(())
}
