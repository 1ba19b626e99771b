ghost use Rattle.std.specs.Prelude.{◌≡◌, refl};
ghost use Rattle.tariff.specs.Sheets.{values_of};
ghost use Rattle.tariff.proofs.DraftFigures.{inverse};
ghost use Rattle.rates.specs.Sts.{sts_2009, sts_draft, sts_figures, sts_from_figures, sts_own};

use tariff::{Draft, Figure, Figures, MOST_DEMAND, OwnFigures, Sealed};

/// The published figure for the connection of units, in cents per MW: AESO tariff, rate STS, 2009.
pub const STS_2009_UNIT_CONNECTION: i64 = 25_900;

/// The figures of a sheet of rate STS that is still being filled in, any numbers.
#[derive(PartialEq, Eq, Debug, Drop)]
pub struct StsDraft {
    /// The customer's own: hundredths of a percent of the pool price, from -10,000 (a credit) to 10,000.
    pub loss_factor: i64,
    /// The customer's own: kW, from 0 to `MOST_DEMAND`.
    pub unit_rating: i64,
    /// Cents per MW, from 0 to 10,000,000.
    pub unit_connection: i64,
}

/// A sealed sheet of rate STS.
pub type StsSheet = Sealed<StsDraft>;

impl StsDraft {
    /// The published figure with a customer's own loss factor and unit rating.
    pub fn published_2009(loss_factor: i64, unit_rating: i64) -> StsDraft
        ensures { result ≡ sts_2009 loss_factor unit_rating }
    {
        StsDraft {
            loss_factor,
            unit_rating,
            unit_connection: STS_2009_UNIT_CONNECTION,
        }
    }
}

impl Draft for StsDraft {
    ghost figures = { sts_figures };

    ghost from_figures = { sts_from_figures };

    ghost own = { sts_own };

    ghost inverse = { inverse _ sts_draft
        (λ draft. values_of (sts_figures draft))
        (λ _. refl) (λ _. refl) (λ _. refl) };

    fn figures(&self) -> Figures {
        Figures::new(&[
            Figure::between(-10_000, 10_000, self.loss_factor),
            Figure::between(0, MOST_DEMAND.into(), self.unit_rating),
            Figure::between(0, 10_000_000, self.unit_connection),
        ])
    }

    fn from_figures(values: &[i64]) -> Option<StsDraft> {
        match *values {
            [loss_factor, unit_rating, unit_connection] => Some(StsDraft {
                loss_factor,
                unit_rating,
                unit_connection,
            }),
            _ => None,
        }
    }

    fn own() -> OwnFigures {
        OwnFigures { first: 0, count: 2 }
    }
}
