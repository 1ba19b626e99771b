ghost use Rattle.std.specs.Prelude.{◌≡◌, ◌↔◌, List, ℤ, Option, Some, MatchResult};
ghost use Rattle.tariff.specs.Refusals.{refusal_text};
ghost use Rattle.tariff.specs.Sheets.{FigureList, FiguresWithin, IsFirstOutside, figure_list, values_of};
ghost use Rattle.tariff.specs.declared.figures.OwnFigures.{OwnFigures};

use crate::figure::Figure;
use crate::figures::{Figures, OwnFigures};
use crate::refusal::Refusal;
use std::error::Error;
use std::fmt;

/// A draft that could not be sealed, as it was, with the reason: it can be mended and sealed again.
#[derive(PartialEq, Eq, Debug, Drop)]
pub struct Unsealed<D> {
    /// Why: the first figure outside its limits.
    pub refusal: Refusal,
    /// As it was given.
    pub draft: D,
}

impl<D: Drop> From<Unsealed<D>> for Refusal {
    ghost from_gives = { λ unsealed refusal. refusal ≡ unsealed.refusal };

    fn from(unsealed: Unsealed<D>) -> Refusal {
        unsealed.refusal
    }
}

impl<D: Drop> fmt::Display for Unsealed<D> {
    ghost output = { λ unsealed. Some (refusal_text unsealed.refusal) };

    fn fmt<W: fmt::Write>(&self, f: &mut fmt::Formatter<W>) -> fmt::Result {
        write!(f, "{}", self.refusal)
    }
}

impl<D: fmt::Debug + Drop> Error for Unsealed<D> {}

/// The figures of a sheet that is still being filled in, any numbers.
pub trait Draft: Sized + Drop {
    // each figure in its order with its limits
    ghost figures: { Self → FigureList };

    // the draft of these figures, where there are just so many
    ghost from_figures: { List ℤ → Option Self };

    ghost own: { OwnFigures };

    /// The figures in the order of the sheet, each with its limits.
    fn figures(&self) -> Figures
        ensures { figure_list result ≡ figures self.now };

    /// The draft of these figures, in the order of the sheet; `None` unless there are just so many.
    fn from_figures(values: &[i64]) -> Option<Self>
        ensures { result ≡ from_figures values.now };

    /// Which figures are the customer's own.
    fn own() -> OwnFigures
        ensures { result ≡ own };

    /// Takes the draft. Refused where a figure is outside its limits, with the place of the first
    /// such, from 1; the draft then comes back as it was.
    final fn seal(self) -> Result<Sealed<Self>, Unsealed<Self>>
        ensures { MatchResult result
            (λ sheet. sheet.draft ≡ self)
            (λ unsealed. (unsealed.draft ≡ self) × IsFirstOutside (figures self) unsealed.refusal) }
    {
        let figures = self.figures();
        match Figure::check(figures.as_slice()) {
            Ok(()) => Ok(Sealed { draft: self }),
            Err(refusal) => Err(Unsealed {
                refusal,
                draft: self,
            }),
        }
    }

    // a draft is made of its own figures alone, and has those that it was made of
    ghost inverse: { (values : List ℤ) (draft : Self) →
        (from_figures values ≡ Some draft) ↔ (values_of (figures draft) ≡ values) };
}

/// A sealed sheet: its figures lie within their limits and stay as they are.
#[derive(Drop)]
pub struct Sealed<D: Draft> {
    draft: D,
    ghost within: { FiguresWithin (D.figures draft) },
}

impl<D: Draft> Sealed<D> {
    /// The draft that was sealed.
    pub fn draft(&self) -> &D
        ensures draft { result.now ≡ self.now.draft }
        ensures within { FiguresWithin (D.figures result.now) }
    {
        &self.draft
    }
}
