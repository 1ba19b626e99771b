// The pricing of a month for a caller in C.
ghost use Rattle.std.specs.Prelude.{MatchResult};
ghost use Rattle.exports.specs.Prices.{AnswersPricing, FailsToPrice, PricesMonth};

use crate::answer::AnswerRecord;
use crate::failure::Failure;
use crate::pile::pile;
use crate::sheets::{RateRecord, RiderRecord};
use book::Answer;
use std::alloc::Global;
use tariff::{Amounts, Facts, HourList, HourRow, LINES, PlainFacts, price};

/// The amounts of a bill.
#[repr(C)]
#[derive(Clone, Copy, PartialEq, Eq, Debug)]
pub struct CentsRecord {
    /// Of each line in the order of the bill, in cents.
    pub cents: [i64; LINES],
}

fn price_month(
    alloc: Global,
    rate: &RateRecord,
    riders: &[RiderRecord],
    facts: &PlainFacts,
    hours: &[HourRow],
) -> Result<Amounts, Failure>
    ensures { MatchResult result
        (λ amounts. PricesMonth rate.now riders.now facts.now hours.now amounts.cents)
        (FailsToPrice rate.now riders.now facts.now hours.now) }
{
    let pile = pile(alloc, rate, riders)?;
    let facts = Facts::new(*facts)?;
    let hours = HourList::try_from(hours)?;
    Ok(price(&pile, &facts, &hours)?)
}

/// Prices a month under the sheets that the records describe, the riders over the rate, the lowest
/// first; there is a row for each hour of the month. The cents are written where the answer is that
/// it is done; else they stay as they were. It is refused with the first that holds: a damaged
/// record or a figure outside its limits, of the rate and then of the riders; facts outside their
/// limits; hours outside theirs, or too many; a line past the limit of an amount.
#[unsafe(no_mangle)]
pub extern "C" fn mohzetna_price(
    alloc: Global,
    rate: &RateRecord,
    riders: &[RiderRecord],
    facts: &PlainFacts,
    hours: &[HourRow],
    cents: &mut CentsRecord,
) -> AnswerRecord
    ensures { AnswersPricing
        rate.now riders.now facts.now hours.now
        cents.old result cents.new }
{
    match price_month(alloc, rate, riders, facts, hours) {
        Ok(amounts) => {
            let each = amounts.cents;
            cents.cents = each;
            Answer::Done.into()
        }
        Err(failure) => failure.into(),
    }
}
