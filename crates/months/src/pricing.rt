// The price of a month under the rate and the riders of its line.
use crate::month::Month;
use piles::{Pile, PileError, RateSheet, RiderSheet};
use std::alloc::Global;
use tariff::{Amounts, Facts, HourList, price};

/// Refused by the first of these that says no: facts, hours, the rate's sheet, the riders' from below,
/// and then the pricing.
pub(crate) fn price_month(alloc: Global, month: Month) -> Result<Amounts, PileError> {
    let Month {
        facts,
        hours,
        rate,
        riders,
    } = month;
    let facts = Facts::new(facts)?;
    let hours = HourList::try_from(&hours[..])?;
    let mut pile = Pile::new(alloc, RateSheet::try_from(rate)?);
    for rider in riders {
        pile.pile(RiderSheet::try_from(rider)?)?;
    }
    Ok(price(&pile, &facts, &hours)?)
}
