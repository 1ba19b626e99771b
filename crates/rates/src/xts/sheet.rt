ghost use Rattle.std.specs.Prelude.{◌≡◌, refl};
ghost use Rattle.tariff.specs.Sheets.{no_own, values_of};
ghost use Rattle.tariff.proofs.DraftFigures.{inverse};
ghost use Rattle.rates.specs.Xts.{xts_2007, xts_draft, xts_figures, xts_from_figures};

use tariff::{Draft, Figure, Figures, OwnFigures, Sealed};

/// The figures of a sheet of rate XTS that is still being filled in, any numbers. Each can be
/// sealed from 0.
#[derive(PartialEq, Eq, Debug, Drop)]
pub struct XtsDraft {
    /// Cents per MWh, at most 100,000.
    pub interconnection: i64,
    /// Hundredths of a percent of the pool price, at most 10,000.
    pub operating_reserve: i64,
    /// Cents per MWh, at most 100,000.
    pub voltage_control: i64,
    /// Cents per MWh, at most 100,000.
    pub other_support: i64,
}

/// The published figures: AESO tariff, rate XTS, 2007.
pub const XTS_2007: XtsDraft = XtsDraft {
    interconnection: 377,
    operating_reserve: 374,
    voltage_control: 99,
    other_support: 10,
};

/// A sealed sheet of rate XTS.
pub type XtsSheet = Sealed<XtsDraft>;

impl XtsDraft {
    /// The published figures: `XTS_2007`, as a call that promises them.
    pub fn published_2007() -> XtsDraft
        ensures { result ≡ xts_2007 }
    {
        XTS_2007
    }
}

impl Draft for XtsDraft {
    ghost figures = { xts_figures };

    ghost from_figures = { xts_from_figures };

    ghost own = { no_own };

    ghost inverse = { inverse _ xts_draft
        (λ draft. values_of (xts_figures draft))
        (λ _. refl) (λ _. refl) (λ _. refl) };

    fn figures(&self) -> Figures {
        Figures::new(&[
            Figure::between(0, 100_000, self.interconnection),
            Figure::between(0, 10_000, self.operating_reserve),
            Figure::between(0, 100_000, self.voltage_control),
            Figure::between(0, 100_000, self.other_support),
        ])
    }

    fn from_figures(values: &[i64]) -> Option<XtsDraft> {
        match *values {
            [
                interconnection,
                operating_reserve,
                voltage_control,
                other_support,
            ] => Some(XtsDraft {
                interconnection,
                operating_reserve,
                voltage_control,
                other_support,
            }),
            _ => None,
        }
    }

    fn own() -> OwnFigures {
        OwnFigures { first: 0, count: 0 }
    }
}
