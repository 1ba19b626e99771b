// The pile of sheets that records describe.
ghost use Rattle.std.specs.Prelude.{MatchResult};
ghost use Rattle.exports.specs.Piles.{DescribesSheets, FailsToPile};

use crate::failure::Failure;
use crate::sheets::{RateRecord, RiderRecord};
use piles::Pile;
use std::alloc::Global;

// The rate with the riders over it, the lowest first.
pub(crate) fn pile(
    alloc: Global,
    rate: &RateRecord,
    riders: &[RiderRecord],
) -> Result<Pile, Failure>
    ensures { MatchResult result
        (λ pile. DescribesSheets rate.now riders.now pile.schedule pile.riders.items)
        (FailsToPile rate.now riders.now) }
{
    let mut pile = Pile::new(alloc, rate.sheet()?);
    for rider in riders {
        let Ok(()) = pile.pile(rider.sheet()?) else {
            return Err(Failure::NoMemory);
        };
    }
    Ok(pile)
}
