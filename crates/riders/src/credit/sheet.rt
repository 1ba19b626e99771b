ghost use Rattle.std.specs.Prelude.{◌≡◌, pos, refl};
ghost use Rattle.tariff.specs.Sheets.{values_of};
ghost use Rattle.tariff.proofs.DraftFigures.{inverse};
ghost use Rattle.riders.specs.Credit.{credit_draft, credit_figures, credit_from_figures, credit_own, psc_2009};

use tariff::{Draft, Figure, Figures, OwnFigures, Sealed};

/// The figures of a Primary Service Credit that is still being filled in, any numbers. A band is of
/// billing capacity times substation total over contract; each of its figures is in cents per MW,
/// from 0 to 500,000.
#[derive(PartialEq, Eq, Debug, Drop)]
pub struct CreditDraft {
    /// The rider's number, the customer's own: from 1 to 65,535.
    pub number: i64,
    /// The first 7.5 MW.
    pub first: i64,
    /// The next 9.5 MW.
    pub second: i64,
    /// The next 23 MW.
    pub third: i64,
    /// What is above.
    pub last: i64,
    /// Cents per month, from 0 to 10,000,000.
    pub fixed: i64,
}

/// The published figures: AESO tariff, Primary Service Credit, 2009. The number is the customer's
/// own, and 0 here, which cannot be sealed.
pub const PSC_2009: CreditDraft = CreditDraft {
    number: 0,
    first: 217_500,
    second: 75_200,
    third: 44_100,
    last: 42_500,
    fixed: 386_700,
};

/// A sealed sheet of a Primary Service Credit.
pub type CreditSheet = Sealed<CreditDraft>;

impl CreditDraft {
    /// The published figures under a customer's own number.
    pub fn published_2009(number: i64) -> CreditDraft
        ensures figures { result ≡ psc_2009 number }
        ensures unnumbered { PSC_2009 ≡ psc_2009 (pos 0) }
    {
        CreditDraft { number, ..PSC_2009 }
    }
}

impl Draft for CreditDraft {
    ghost figures = { credit_figures };

    ghost from_figures = { credit_from_figures };

    ghost own = { credit_own };

    ghost inverse = { inverse _ credit_draft
        (λ draft. values_of (credit_figures draft))
        (λ _. refl) (λ _. refl) (λ _. refl) };

    fn figures(&self) -> Figures {
        Figures::new(&[
            Figure::between(1, 65_535, self.number),
            Figure::between(0, 500_000, self.first),
            Figure::between(0, 500_000, self.second),
            Figure::between(0, 500_000, self.third),
            Figure::between(0, 500_000, self.last),
            Figure::between(0, 10_000_000, self.fixed),
        ])
    }

    fn from_figures(values: &[i64]) -> Option<CreditDraft> {
        match *values {
            [number, first, second, third, last, fixed] => Some(CreditDraft {
                number,
                first,
                second,
                third,
                last,
                fixed,
            }),
            _ => None,
        }
    }

    fn own() -> OwnFigures {
        OwnFigures { first: 0, count: 1 }
    }
}
