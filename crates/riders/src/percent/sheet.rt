ghost use Rattle.std.specs.Prelude.{◌≡◌, refl};
ghost use Rattle.tariff.specs.Sheets.{values_of};
ghost use Rattle.tariff.proofs.DraftFigures.{inverse};
ghost use Rattle.riders.specs.Percent.{percent_draft, percent_figures, percent_from_figures, percent_own};

use tariff::{Draft, Figure, Figures, OwnFigures, Sealed};

/// The figures of a percent rider that is still being filled in, any numbers; both are the
/// customer's own.
#[derive(PartialEq, Eq, Debug, Drop)]
pub struct PercentDraft {
    /// The rider's number, from 1 to 65,535.
    pub number: i64,
    /// Hundredths of a percent of all the lines beneath, from -10,000 to 10,000.
    pub factor: i64,
}

/// A sealed sheet of a percent rider.
pub type PercentSheet = Sealed<PercentDraft>;

impl Draft for PercentDraft {
    ghost figures = { percent_figures };

    ghost from_figures = { percent_from_figures };

    ghost own = { percent_own };

    ghost inverse = { inverse _ percent_draft
        (λ draft. values_of (percent_figures draft))
        (λ _. refl) (λ _. refl) (λ _. refl) };

    fn figures(&self) -> Figures {
        Figures::new(&[
            Figure::between(1, 65_535, self.number),
            Figure::between(-10_000, 10_000, self.factor),
        ])
    }

    fn from_figures(values: &[i64]) -> Option<PercentDraft> {
        match *values {
            [number, factor] => Some(PercentDraft { number, factor }),
            _ => None,
        }
    }

    fn own() -> OwnFigures {
        OwnFigures { first: 0, count: 2 }
    }
}
