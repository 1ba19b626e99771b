ghost use Rattle.std.specs.Prelude.{◌≡◌, refl};
ghost use Rattle.tariff.specs.Sheets.{values_of};
ghost use Rattle.tariff.proofs.DraftFigures.{inverse};
ghost use Rattle.rates.specs.Dos.{dos_2009, dos_draft, dos_figures, dos_from_figures, dos_own};

use tariff::{Draft, Figure, Figures, MOST_DEMAND, OwnFigures, Sealed};

/// The published energy figure, in cents per MWh: AESO tariff, rate DOS 7 Minutes, 2009.
pub const DOS_2009_ENERGY: i64 = 528;

/// The published transaction fee, in cents per month: AESO tariff, rate DOS 7 Minutes, 2009.
pub const DOS_2009_TRANSACTION_FEE: i64 = 50_000;

/// The figures of a sheet of rate DOS 7 Minutes that is still being filled in, any numbers.
#[derive(PartialEq, Eq, Debug, Drop)]
pub struct DosDraft {
    /// Cents per MWh, from 0 to 100,000.
    pub energy: i64,
    /// Cents per month, from 0 to 10,000,000.
    pub transaction_fee: i64,
    /// The customer's own: kW, from 1 to `MOST_DEMAND`.
    pub opportunity_capacity: i64,
    /// The customer's own: hundredths of a percent of the pool price, from -10,000 (a credit) to 10,000.
    pub loss_factor: i64,
}

/// A sealed sheet of rate DOS 7 Minutes.
pub type DosSheet = Sealed<DosDraft>;

impl DosDraft {
    /// The published figures with a customer's own capacity and loss factor.
    pub fn published_2009(opportunity_capacity: i64, loss_factor: i64) -> DosDraft
        ensures { result ≡ dos_2009 opportunity_capacity loss_factor }
    {
        DosDraft {
            energy: DOS_2009_ENERGY,
            transaction_fee: DOS_2009_TRANSACTION_FEE,
            opportunity_capacity,
            loss_factor,
        }
    }
}

impl Draft for DosDraft {
    ghost figures = { dos_figures };

    ghost from_figures = { dos_from_figures };

    ghost own = { dos_own };

    ghost inverse = { inverse _ dos_draft
        (λ draft. values_of (dos_figures draft))
        (λ _. refl) (λ _. refl) (λ _. refl) };

    fn figures(&self) -> Figures {
        Figures::new(&[
            Figure::between(0, 100_000, self.energy),
            Figure::between(0, 10_000_000, self.transaction_fee),
            Figure::between(1, MOST_DEMAND.into(), self.opportunity_capacity),
            Figure::between(-10_000, 10_000, self.loss_factor),
        ])
    }

    fn from_figures(values: &[i64]) -> Option<DosDraft> {
        match *values {
            [energy, transaction_fee, opportunity_capacity, loss_factor] => Some(DosDraft {
                energy,
                transaction_fee,
                opportunity_capacity,
                loss_factor,
            }),
            _ => None,
        }
    }

    fn own() -> OwnFigures {
        OwnFigures { first: 2, count: 2 }
    }
}
