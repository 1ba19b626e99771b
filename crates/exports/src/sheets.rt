// A rate and a rider as records that C can fill.
ghost use Rattle.std.specs.Prelude.{◌≡◌, ◌≤◌, ℕ, List, None, Some, length, MatchResult};
ghost use Rattle.std.specs.List.{slice_get};
ghost use Rattle.std.proofs.Common.{rules};
ghost use Rattle.piles.specs.Rates.{rate_draft};
ghost use Rattle.piles.specs.Riders.{rider_draft};
ghost use Rattle.exports.specs.Piles.{RateFails, RiderFails};
ghost use Rattle.exports.specs.Sheets.{described_draft, described_rate, described_rider, rate_kinds, rider_kinds};
ghost use Rattle.exports.specs.declared.sheets.TheConstants.{RIDER_FIGURES as rider_figures};
ghost use Rattle.tariff.specs.declared.figures.TheConstants.{MOST_FIGURES as most_figures};

use crate::failure::{Damaged, Failure};
use piles::{RateKind, RateSheet, RiderKind, RiderSheet, SheetKind};
use tariff::MOST_FIGURES;

/// The most figures that the sheet of a rider has, its number among them.
pub const RIDER_FIGURES: usize = 6;

/// A rate and its sheet.
#[repr(C)]
#[derive(Clone, Copy, PartialEq, Eq, Debug)]
pub struct RateRecord {
    /// Which rate: 0 DTS, 1 its grandfathered form, 2 XTS, 3 DOS, 4 STS. A record of another number
    /// is damaged.
    pub rate: u32,
    /// The figures in the order of the sheet, each in the unit of its draft; what lies past them is
    /// not read. There are as many places as any sheet has figures: [`tariff::MOST_FIGURES`].
    pub figures: [i64; MOST_FIGURES],
}

/// A rider and its sheet.
#[repr(C)]
#[derive(Clone, Copy, PartialEq, Eq, Debug)]
pub struct RiderRecord {
    /// Which rider: 0 so much for each MWh, 1 so much of all the lines beneath, 2 the Primary
    /// Service Credit. A record of another number is damaged.
    pub rider: u32,
    /// The figures in the order of the sheet, the rider's number first; what lies past them is not
    /// read.
    pub figures: [i64; RIDER_FIGURES],
}

// In the order of their numbers, from 0.
const RATE_KINDS: [RateKind; 5] = [
    RateKind::Dts,
    RateKind::Gts,
    RateKind::Xts,
    RateKind::Dos,
    RateKind::Sts,
];

const RIDER_KINDS: [RiderKind; 3] = [RiderKind::Energy, RiderKind::Percent, RiderKind::Credit];

// A kind of sheet by its number.
trait NumberedKind: SheetKind {
    // in the order of their numbers, from 0
    ghost kinds: { List Self };

    // how many figures a record of one has room for
    ghost room: { ℕ };

    fn numbered(number: u32) -> Result<Self, Damaged>
        ensures { MatchResult result
            (λ kind. slice_get kinds number ≡ Some kind)
            (λ _. slice_get kinds number ≡ None) };

    // a record has room for all the figures of a sheet
    ghost fits: { (kind : Self) → length (Self.figures (Self.published kind)) ≤ room };
}

impl NumberedKind for RateKind {
    ghost kinds = { rate_kinds };

    ghost room = { most_figures };

    ghost fits = { Prim.search rules };

    fn numbered(number: u32) -> Result<RateKind, Damaged> {
        RATE_KINDS.get(number as usize).copied().ok_or(Damaged)
    }
}

impl NumberedKind for RiderKind {
    ghost kinds = { rider_kinds };

    ghost room = { rider_figures };

    ghost fits = { Prim.search rules };

    fn numbered(number: u32) -> Result<RiderKind, Damaged> {
        RIDER_KINDS.get(number as usize).copied().ok_or(Damaged)
    }
}

// The draft of the kind of this number, of as many of these figures as its sheet has.
fn draft<K: NumberedKind>(number: u32, figures: &[i64]) -> Result<K::Draft, Damaged>
    requires { length figures.now ≡ K.room }
    ensures { MatchResult result
        (λ draft.
        described_draft K.kinds K.published K.figures K.from_figures number figures.now
        ≡ Some draft)
        (λ _. slice_get K.kinds number ≡ None) }
{
    let kind = K::numbered(number)?;
    let published = K::figures(&kind.published());
    let count = published.as_slice().len();
    Ok(kind.from_figures(&figures[..count]).unwrap())
}

impl RateRecord {
    // The sheet sealed from the rate's draft.
    pub(crate) fn sheet(&self) -> Result<RateSheet, Failure>
        ensures { MatchResult result
            (λ sheet. described_rate self.now ≡ Some (rate_draft sheet))
            (RateFails self.now) }
    {
        Ok(RateSheet::try_from(draft::<RateKind>(self.rate, &self.figures)?)?)
    }
}

impl RiderRecord {
    // The sheet sealed from the rider's draft.
    pub(crate) fn sheet(&self) -> Result<RiderSheet, Failure>
        ensures { MatchResult result
            (λ sheet. described_rider self.now ≡ Some (rider_draft sheet))
            (RiderFails self.now) }
    {
        Ok(RiderSheet::try_from(draft::<RiderKind>(self.rider, &self.figures)?)?)
    }
}
