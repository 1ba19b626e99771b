ghost use Rattle.std.specs.Prelude.{◌≡◌, MatchResult};
ghost use Rattle.tariff.specs.Sheets.{IsFirstOutside};
ghost use Rattle.piles.specs.Riders.{rider_amount, rider_draft, rider_figures, rider_from_figures, rider_kind, rider_line, rider_number, rider_own, rider_published};
ghost use Rattle.piles.specs.RiderLaws.{rider_bounded, rider_complete, rider_given_back, rider_read_back};

use crate::kind::{SheetKind, of_kind};
use riders::Adjustment;
use riders::credit::{CreditDraft, CreditSheet};
use riders::energy::{EnergyDraft, EnergySheet};
use riders::percent::{PercentDraft, PercentSheet};
use tariff::{Amounts, Draft, Facts, Figures, Fraction, Hours, Line, OwnFigures, Unsealed};

/// Which rider stands over a schedule.
#[derive(Clone, Copy, PartialEq, Eq, Debug)]
pub enum RiderKind {
    /// So much for each MWh.
    Energy,
    /// So much of all the lines beneath.
    Percent,
    /// The Primary Service Credit.
    Credit,
}

impl SheetKind for RiderKind {
    type Draft = RiderDraft;

    ghost kind_of = { rider_kind };

    ghost figures = { rider_figures };

    ghost from_figures = { rider_from_figures };

    ghost published = { rider_published };

    ghost own = { rider_own };

    ghost read_back = { rider_read_back };

    ghost given_back = { rider_given_back };

    ghost complete = { rider_complete };

    fn of(draft: &RiderDraft) -> RiderKind {
        match draft {
            RiderDraft::Energy(_) => RiderKind::Energy,
            RiderDraft::Percent(_) => RiderKind::Percent,
            RiderDraft::Credit(_) => RiderKind::Credit,
        }
    }

    fn figures(draft: &RiderDraft) -> Figures {
        match draft {
            RiderDraft::Energy(draft) => draft.figures(),
            RiderDraft::Percent(draft) => draft.figures(),
            RiderDraft::Credit(draft) => draft.figures(),
        }
    }

    fn from_figures(self, values: &[i64]) -> Option<RiderDraft> {
        Some(match self {
            RiderKind::Energy => RiderDraft::Energy(EnergyDraft::from_figures(values)?),
            RiderKind::Percent => RiderDraft::Percent(PercentDraft::from_figures(values)?),
            RiderKind::Credit => RiderDraft::Credit(CreditDraft::from_figures(values)?),
        })
    }

    fn published(self) -> RiderDraft {
        match self {
            RiderKind::Energy => RiderDraft::Energy(EnergyDraft { number: 0, rate: 0 }),
            RiderKind::Percent => RiderDraft::Percent(PercentDraft {
                number: 0,
                factor: 0,
            }),
            RiderKind::Credit => RiderDraft::Credit(CreditDraft::published_2009(0)),
        }
    }

    fn own(self) -> OwnFigures {
        match self {
            RiderKind::Energy => EnergyDraft::own(),
            RiderKind::Percent => PercentDraft::own(),
            RiderKind::Credit => CreditDraft::own(),
        }
    }
}

/// The draft of any rider.
#[derive(PartialEq, Eq, Debug, Drop)]
pub enum RiderDraft {
    /// So much for each MWh.
    Energy(EnergyDraft),
    /// So much of all the lines beneath.
    Percent(PercentDraft),
    /// The Primary Service Credit.
    Credit(CreditDraft),
}

/// The sealed sheet of any rider, which adds as that rider does.
#[derive(Drop)]
pub enum RiderSheet {
    /// So much for each MWh.
    Energy(EnergySheet),
    /// So much of all the lines beneath.
    Percent(PercentSheet),
    /// The Primary Service Credit.
    Credit(CreditSheet),
}

impl TryFrom<RiderDraft> for RiderSheet {
    type Error = Unsealed<RiderDraft>;

    // sealed as the draft of that rider is, or it comes back with its first figure outside named
    ghost try_from_gives = { λ draft result. MatchResult result
        (λ sheet. rider_draft sheet ≡ draft)
        (λ unsealed. (unsealed.draft ≡ draft) ×
        IsFirstOutside (rider_figures draft) unsealed.refusal) };

    fn try_from(draft: RiderDraft) -> Result<RiderSheet, Unsealed<RiderDraft>> {
        match draft {
            RiderDraft::Energy(draft) => of_kind(
                draft.seal(),
                RiderSheet::Energy,
                RiderDraft::Energy,
            ),
            RiderDraft::Percent(draft) => of_kind(
                draft.seal(),
                RiderSheet::Percent,
                RiderDraft::Percent,
            ),
            RiderDraft::Credit(draft) => of_kind(
                draft.seal(),
                RiderSheet::Credit,
                RiderDraft::Credit,
            ),
        }
    }
}

impl Adjustment for RiderSheet {
    ghost number = { rider_number };

    ghost line = { rider_line };

    ghost exact = { rider_amount };

    ghost bounded = { rider_bounded };

    fn number(&self) -> u16 {
        match self {
            RiderSheet::Energy(sheet) => sheet.number(),
            RiderSheet::Percent(sheet) => sheet.number(),
            RiderSheet::Credit(sheet) => sheet.number(),
        }
    }

    fn line(&self) -> Line {
        match self {
            RiderSheet::Energy(sheet) => sheet.line(),
            RiderSheet::Percent(sheet) => sheet.line(),
            RiderSheet::Credit(sheet) => sheet.line(),
        }
    }

    fn exact(&self, facts: &Facts, hours: &Hours<'_>, beneath: &Amounts) -> Fraction {
        match self {
            RiderSheet::Energy(sheet) => sheet.exact(facts, hours, beneath),
            RiderSheet::Percent(sheet) => sheet.exact(facts, hours, beneath),
            RiderSheet::Credit(sheet) => sheet.exact(facts, hours, beneath),
        }
    }
}
