// Rates and riders in words: the kind of a sheet, and its figures.
ghost use Rattle.std.proofs.Common.{rules};
ghost use Rattle.std.specs.Prelude.{◌≡◌, ◌+◌, ◌++◌, ◌≤◌, ℕ, List, ℤ, Option, Some, length, IfOk, IsTrue, OnOk, string_bytes};
ghost use Rattle.tariff.specs.Sheets.{figure_list, values_of};
ghost use Rattle.journal.specs.Drafts.{complete_figures, draft_of, draft_words, line_order, rate_named, rate_word, rider_named, rider_word};
ghost use Rattle.journal.specs.Words.{are_words, is_word, words_of, words_text};

use crate::line_text::write_word;
use crate::token::{parse_all, write_all};
use crate::words::next_word;
use piles::{RateKind, RiderKind, SheetKind};
use std::alloc::{AllocError, Global};
use tariff::{Figures, OwnFigures};

// A kind of sheet by the word that names it.
pub(crate) trait NamedKind: SheetKind {
    ghost named: { List ℕ → Option Self };

    ghost word: { Self → List ℕ };

    fn named(text: &str) -> Option<Self>
        ensures { result ≡ named text.now };

    fn word(self) -> &'static str
        ensures word { result.now ≡ word self }
        ensures whole { IsTrue (is_word (word self)) }
        ensures again { named (word self) ≡ Some self };

    // the customer's own figures are among those of the sheet
    ghost own_within: { (kind : Self) →
        (Self.own kind).first + (Self.own kind).count
        ≤ length (Self.figures (Self.published kind)) };
}

impl NamedKind for RateKind {
    ghost named = { rate_named };

    ghost word = { rate_word };

    ghost own_within = { Prim.search rules };

    fn named(text: &str) -> Option<RateKind> {
        match text {
            "dts" => Some(RateKind::Dts),
            "gts" => Some(RateKind::Gts),
            "xts" => Some(RateKind::Xts),
            "dos" => Some(RateKind::Dos),
            "sts" => Some(RateKind::Sts),
            _ => None,
        }
    }

    fn word(self) -> &'static str {
        match self {
            RateKind::Dts => "dts",
            RateKind::Gts => "gts",
            RateKind::Xts => "xts",
            RateKind::Dos => "dos",
            RateKind::Sts => "sts",
        }
    }
}

impl NamedKind for RiderKind {
    ghost named = { rider_named };

    ghost word = { rider_word };

    ghost own_within = { Prim.search rules };

    fn named(text: &str) -> Option<RiderKind> {
        match text {
            "energy" => Some(RiderKind::Energy),
            "percent" => Some(RiderKind::Percent),
            "psc" => Some(RiderKind::Credit),
            _ => None,
        }
    }

    fn word(self) -> &'static str {
        match self {
            RiderKind::Energy => "energy",
            RiderKind::Percent => "percent",
            RiderKind::Credit => "psc",
        }
    }
}

fn values(alloc: Global, figures: &Figures) -> Result<Vec<i64>, AllocError>
    ensures { IfOk result (λ values. values.items ≡ values_of (figure_list figures.now)) }
{
    figures
        .as_slice()
        .iter()
        .map(|figure| figure.value)
        .collect(alloc)
}

// The figures of a sheet as a line has them, the customer's own before the others. With the two
// counts of `own` exchanged it is the way back.
fn line_order(alloc: Global, own: OwnFigures, figures: &[i64]) -> Result<Vec<i64>, AllocError>
    requires { own.first + own.count ≤ length figures.now }
    ensures { IfOk result (λ ordered. ordered.items ≡ line_order own figures.now) }
{
    let end = own.first + own.count;
    let mut ordered = Vec::new(alloc);
    ordered.extend_from_slice(&figures[own.first..end])?;
    ordered.extend_from_slice(&figures[..own.first])?;
    ordered.extend_from_slice(&figures[end..])?;
    Ok(ordered)
}

// Where only the customer's own figures are given, the published sheet has the others.
fn complete(given: &mut Vec<i64>, own: OwnFigures, published: &[i64]) -> Result<(), AllocError>
    requires { own.first + own.count ≤ length published.now }
    ensures { OnOk result (given.new.items ≡ complete_figures own published.now given.old.items) }
{
    if given.len() == own.count {
        given.extend_from_slice(&published[..own.first])?;
        given.extend_from_slice(&published[own.first + own.count..])?;
    }
    Ok(())
}

// The draft that a text names: a kind's word, and its figures.
pub(crate) fn parse_draft<K: NamedKind>(
    alloc: Global,
    text: &str,
) -> Result<Option<K::Draft>, AllocError>
    ensures { IfOk result (λ draft.
        draft ≡ draft_of K.named K.own K.published K.figures K.from_figures (words_of text.now)) }
{
    let Some((word, text)) = next_word(text) else {
        return Ok(None);
    };
    let Some(kind) = K::named(word) else {
        return Ok(None);
    };
    let Some(mut given) = parse_all::<i64>(alloc, text)? else {
        return Ok(None);
    };
    let own = kind.own();
    let published = values(alloc, &K::figures(&kind.published()))?;
    complete(&mut given, own, &published)?;
    if given.len() != published.len() {
        return Ok(None);
    }
    let back = OwnFigures {
        first: own.count,
        count: own.first,
    };
    Ok(kind.from_figures(&line_order(alloc, back, &given)?))
}

// The words of a draft at the end of a line.
pub(crate) fn write_draft<K: NamedKind>(
    alloc: Global,
    line: &mut String,
    draft: &K::Draft,
) -> Result<(), AllocError>
    ensures written { OnOk result (
        string_bytes line.new ≡ string_bytes line.old
        ++ words_text (draft_words K.word K.kind_of K.own K.figures draft.now)) }
    ensures words { OnOk result (
        IsTrue (are_words (draft_words K.word K.kind_of K.own K.figures draft.now))) }
    ensures again { OnOk result (
        draft_of K.named K.own K.published K.figures K.from_figures
        (draft_words K.word K.kind_of K.own K.figures draft.now) ≡ Some draft.now) }
{
    let kind = K::of(draft);
    let figures = values(alloc, &K::figures(draft))?;
    let ordered = line_order(alloc, kind.own(), &figures)?;
    write_word(line, kind.word())?;
    write_all(line, &ordered)?;
    Ok(())
}
