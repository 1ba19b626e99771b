ghost use Rattle.std.specs.Prelude.{◌≡◌, MatchResult};
ghost use Rattle.tariff.specs.Sheets.{FigureWithin, FiguresWithin, IsFirstOutside};

use crate::limits::{WithinLimits, first_outside};
use crate::refusal::Refusal;

/// A figure of a sheet, in the unit that its draft says, with the limits within which it can be
/// sealed.
#[derive(Clone, Copy, PartialEq, Eq, Debug)]
pub struct Figure {
    /// What was filled in, any number.
    pub value: i64,
    /// The least that it can be sealed at.
    pub low: i64,
    /// The most that it can be sealed at.
    pub high: i64,
}

impl WithinLimits for Figure {
    ghost within = { FigureWithin };

    fn is_within(&self) -> bool {
        self.low <= self.value && self.value <= self.high
    }
}

impl Figure {
    /// A figure that can be sealed from `low` to `high`, both included.
    pub fn between(low: i64, high: i64, value: i64) -> Figure
        ensures { result ≡ record { value = value; low = low; high = high } }
    {
        Figure { value, low, high }
    }

    /// Whether all lie within their limits, of however many. Refused where one does not, with the
    /// place of the first such, from 1.
    pub fn check(figures: &[Figure]) -> Result<(), Refusal>
        ensures { MatchResult result
            (λ _. FiguresWithin figures.now)
            (IsFirstOutside figures.now) }
    {
        match first_outside(figures) {
            Some(before) => Err(Refusal::FigureOutside {
                place: before as u64 + 1,
            }),
            None => Ok(()),
        }
    }
}
