ghost use Rattle.std.specs.Prelude.{◌≡◌, refl};
ghost use Rattle.tariff.specs.Sheets.{values_of};
ghost use Rattle.tariff.proofs.DraftFigures.{inverse};
ghost use Rattle.riders.specs.Energy.{energy_draft, energy_figures, energy_from_figures, energy_own};

use tariff::{Draft, Figure, Figures, OwnFigures, Sealed};

/// The figures of an energy rider that is still being filled in, any numbers; both are the
/// customer's own.
#[derive(PartialEq, Eq, Debug, Drop)]
pub struct EnergyDraft {
    /// The rider's number, from 1 to 65,535.
    pub number: i64,
    /// Cents per MWh, from -100,000 to 100,000.
    pub rate: i64,
}

/// A sealed sheet of an energy rider.
pub type EnergySheet = Sealed<EnergyDraft>;

impl Draft for EnergyDraft {
    ghost figures = { energy_figures };

    ghost from_figures = { energy_from_figures };

    ghost own = { energy_own };

    ghost inverse = { inverse _ energy_draft
        (λ draft. values_of (energy_figures draft))
        (λ _. refl) (λ _. refl) (λ _. refl) };

    fn figures(&self) -> Figures {
        Figures::new(&[
            Figure::between(1, 65_535, self.number),
            Figure::between(-100_000, 100_000, self.rate),
        ])
    }

    fn from_figures(values: &[i64]) -> Option<EnergyDraft> {
        match *values {
            [number, rate] => Some(EnergyDraft { number, rate }),
            _ => None,
        }
    }

    fn own() -> OwnFigures {
        OwnFigures { first: 0, count: 2 }
    }
}
