// The words of a call, written.
ghost use Rattle.std.specs.Prelude.{◌≡◌, ◌++◌, [], ◌∷◌, Some, IsTrue, OnOk, string_bytes};
ghost use Rattle.journal.specs.LineText.{IsWritable, parts_of};
ghost use Rattle.journal.specs.Lines.{call_of_verb, call_value};
ghost use Rattle.journal.specs.Words.{are_words, words_text};

use crate::call::Call;
use crate::drafts::write_draft;
use crate::token::{Token, write_all};
use piles::{RateKind, RiderKind};
use std::alloc::{AllocError, Global};
use store::{Post, Reading};

// A word at the end of a line.
pub(crate) fn write_word(line: &mut String, word: &str) -> Result<(), AllocError>
    ensures { OnOk result (
        string_bytes line.new ≡ string_bytes line.old ++ words_text (word.now ∷ [])) }
{
    write!(line, " {word}")
}

// The words of a call after its verb.
pub(crate) fn write_words(
    alloc: Global,
    line: &mut String,
    call: &Call<'_>,
) -> Result<(), AllocError>
    ensures written { OnOk result (
        string_bytes line.new ≡ string_bytes line.old ++ words_text (parts_of call.now).1) }
    ensures words { OnOk result (IsWritable call.now → IsTrue (are_words (parts_of call.now).1)) }
    ensures again { OnOk result (
        call_of_verb (parts_of call.now).0 (parts_of call.now).1 ≡ Some (call_value call.now)) }
{
    match call {
        Call::Memory { months, entries } => write_all(line, &[*months, *entries]),
        Call::Rate(draft) => write_draft::<RateKind>(alloc, line, draft),
        Call::Rider(draft) => write_draft::<RiderKind>(alloc, line, draft),
        Call::Open {
            code,
            contract,
            substation,
            carried,
        } => {
            write_word(line, code)?;
            contract.write(line)?;
            substation.write(line)?;
            write_all(line, carried)
        }
        Call::Start { days } => write_all(line, &[*days]),
        Call::Post {
            month,
            place,
            post: Post::Reading(Reading { kw, kva }),
        } => write_all(line, &[*month, *place, *kw, *kva]),
        Call::Post {
            month,
            place,
            post: Post::Price(value) | Post::Scheduled(value),
        } => write_all(line, &[*month, *place, *value]),
        Call::PostRange {
            month,
            first,
            last,
            post: Post::Reading(Reading { kw, kva }),
        } => write_all(line, &[*month, *first, *last, *kw, *kva]),
        Call::PostRange {
            month,
            first,
            last,
            post: Post::Price(value) | Post::Scheduled(value),
        } => write_all(line, &[*month, *first, *last, *value]),
        Call::PostDay {
            month,
            day,
            code,
            readings,
        } => {
            month.write(line)?;
            day.write(line)?;
            write_word(line, code)?;
            write_all(line, readings)
        }
        Call::Load { kind, month, file } => {
            write_word(line, kind.word())?;
            month.write(line)?;
            write_word(line, file)
        }
        Call::Bill { month }
        | Call::TrueUp { month }
        | Call::Finalise { month }
        | Call::Due { month }
        | Call::Statement { month } => write_all(line, &[*month]),
        Call::Total {
            month,
            line: number,
        } => write_all(line, &[*month, *number]),
        Call::Text { entry } => write_all(line, &[*entry]),
        Call::Ledger => Ok(()),
    }
}
