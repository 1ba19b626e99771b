// A line read as the call that it writes down.
ghost use Rattle.std.specs.Prelude.{◌≡◌, Option, Some, None, IfOk, MatchOption};
ghost use Rattle.std.specs.Option.{option_map};
ghost use Rattle.journal.specs.Lines.{Gives, call_of_verb, first_number, load_of, open_of, parse_result, post_day_of, call_value};
ghost use Rattle.journal.specs.Words.{uncommented, words_of};

use crate::call::Call;
use crate::drafts::parse_draft;
use crate::numbers::call_of_numbers;
use crate::parse_error::ParseError;
use crate::post_kind::PostKind;
use crate::token::{Token, parse_all};
use crate::verb::Verb;
use crate::words::{next_word, uncommented};
use piles::{RateKind, RiderKind};
use std::alloc::{AllocError, Global};
use store::Reading;

// The number that a text begins with, and what stands after it.
fn next_number(text: &str) -> Option<(u32, &str)>
    ensures { MatchOption result (first_number (words_of text.now) ≡ None) (λ found.
        first_number (words_of text.now) ≡ Some (found.0, words_of found.1.now)) }
{
    let (word, text) = next_word(text)?;
    let number = u32::parse(word)?;
    Some((number, text))
}

// The call `open`, by the text after its verb.
fn open_of(alloc: Global, text: &str) -> Result<Option<Call<'_>>, AllocError>
    ensures { IfOk result (λ call. option_map call_value call ≡ open_of (words_of text.now)) }
{
    let Some((code, text)) = next_word(text) else {
        return Ok(None);
    };
    let Some((contract, text)) = next_number(text) else {
        return Ok(None);
    };
    let Some((substation, text)) = next_number(text) else {
        return Ok(None);
    };
    let Some(carried) = parse_all::<u32>(alloc, text)? else {
        return Ok(None);
    };
    Ok(Some(Call::Open {
        code,
        contract,
        substation,
        carried,
    }))
}

// The call `day`.
fn post_day_of(alloc: Global, text: &str) -> Result<Option<Call<'_>>, AllocError>
    ensures { IfOk result (λ call. option_map call_value call ≡ post_day_of (words_of text.now)) }
{
    let Some((month, text)) = next_number(text) else {
        return Ok(None);
    };
    let Some((day, text)) = next_number(text) else {
        return Ok(None);
    };
    let Some((code, text)) = next_word(text) else {
        return Ok(None);
    };
    let Some(readings) = parse_all::<Reading>(alloc, text)? else {
        return Ok(None);
    };
    Ok(Some(Call::PostDay {
        month,
        day,
        code,
        readings,
    }))
}

// The call `load`.
fn load_of(text: &str) -> Option<Call<'_>>
    ensures { option_map call_value result ≡ load_of (words_of text.now) }
{
    let (word, text) = next_word(text)?;
    let kind = PostKind::named(word)?;
    let (month, text) = next_number(text)?;
    let (file, text) = next_word(text)?;
    match next_word(text) {
        Some(_) => None,
        None => Some(Call::Load { kind, month, file }),
    }
}

// The call of a verb, by the text after it.
fn call_of_verb(alloc: Global, verb: Verb, text: &str) -> Result<Option<Call<'_>>, AllocError>
    ensures { IfOk result (λ call. option_map call_value call ≡ call_of_verb verb (words_of text.now)) }
{
    match verb {
        Verb::Rate => match parse_draft::<RateKind>(alloc, text)? {
            Some(draft) => Ok(Some(Call::Rate(draft))),
            None => Ok(None),
        },
        Verb::Rider => match parse_draft::<RiderKind>(alloc, text)? {
            Some(draft) => Ok(Some(Call::Rider(draft))),
            None => Ok(None),
        },
        Verb::Open => open_of(alloc, text),
        Verb::Day => post_day_of(alloc, text),
        Verb::Load => Ok(load_of(text)),
        _ => match parse_all::<u32>(alloc, text)? {
            Some(numbers) => Ok(call_of_numbers(verb, &numbers)),
            None => Ok(None),
        },
    }
}

/// The call that a line writes down: none where it has no word, or only a comment; an error where
/// its first word begins no call, or its other words are not those of the call.
pub fn read(alloc: Global, line: &str) -> Result<Option<Call<'_>>, ParseError>
    ensures { Gives result (parse_result (words_of (uncommented line.now))) }
{
    let Some((name, text)) = next_word(uncommented(line)) else {
        return Ok(None);
    };
    let Some(verb) = Verb::named(name) else {
        return Err(ParseError::NoCall);
    };
    match call_of_verb(alloc, verb, text)? {
        Some(call) => Ok(Some(call)),
        None => Err(ParseError::Expected(verb)),
    }
}
