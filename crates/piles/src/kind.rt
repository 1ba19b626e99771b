ghost use Rattle.std.specs.Prelude.{◌≡◌, ◌↔◌, List, ℤ, Option, Some, length, IsSome, MatchResult, Ok, Err};
ghost use Rattle.tariff.specs.Sheets.{FigureList, figure_list, values_of};
ghost use Rattle.tariff.specs.declared.figures.OwnFigures.{OwnFigures};

use tariff::{Figures, OwnFigures, Unsealed};

/// A kind of sheet that is chosen at run time: which rate, or which rider.
pub trait SheetKind: Copy {
    /// The draft of any such kind.
    type Draft: Drop;

    ghost kind_of: { Self.Draft → Self };

    // each figure in its order with its limits
    ghost figures: { Self.Draft → FigureList };

    ghost from_figures: { Self → List ℤ → Option Self.Draft };

    ghost published: { Self → Self.Draft };

    ghost own: { Self → OwnFigures };

    /// Which kind a draft is of.
    fn of(draft: &Self::Draft) -> Self
        ensures { result ≡ kind_of draft.now };

    /// The figures of a draft in the order of its sheet, each with its limits.
    fn figures(draft: &Self::Draft) -> Figures
        ensures { figure_list result ≡ figures draft.now };

    /// The draft of these figures, in the order of the sheet; `None` unless there are just so many.
    fn from_figures(self, values: &[i64]) -> Option<Self::Draft>
        ensures { result ≡ from_figures self values.now };

    /// The published sheet; the figures that are the customer's own are 0.
    fn published(self) -> Self::Draft
        ensures { result ≡ published self };

    /// Which figures are the customer's own.
    fn own(self) -> OwnFigures
        ensures { result ≡ own self };

    // a draft is made again of its own figures
    ghost read_back: { (draft : Self.Draft) →
        from_figures (kind_of draft) (values_of (figures draft)) ≡ Some draft };

    // a draft has the kind and the figures that it was made of
    ghost given_back: { (kind : Self) (values : List ℤ) (draft : Self.Draft) →
        from_figures kind values ≡ Some draft →
        (kind_of draft ≡ kind) × (values_of (figures draft) ≡ values) };

    // a draft is made of as many figures as the published sheet has
    ghost complete: { (kind : Self) (values : List ℤ) →
        IsSome (from_figures kind values) ↔
        (length values ≡ length (figures (published kind))) };
}

// What came of sealing: the sheet as `sheet` has it, or the refused draft as `back` has it.
pub(crate) fn of_kind<S, D, T, E, F: FnOnce(S) -> T, G: FnOnce(D) -> E>(
    sealing: Result<S, Unsealed<D>>,
    sheet: F,
    back: G,
) -> Result<T, Unsealed<E>>
    requires sheet { F.IsAlwaysCallable sheet }
    requires back { G.IsAlwaysCallable back }
    ensures { MatchResult sealing
        (λ sealed. (made : T) × (result ≡ Ok made) × F.post sheet sealed made)
        (λ unsealed. (draft : E) × (result ≡ Err (record { refusal = unsealed.refusal; draft = draft })) ×
        G.post back unsealed.draft draft) }
{
    match sealing {
        Ok(sealed) => Ok(sheet(sealed)),
        Err(Unsealed { refusal, draft }) => Err(Unsealed {
            refusal,
            draft: back(draft),
        }),
    }
}
