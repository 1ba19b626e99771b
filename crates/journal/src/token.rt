// What one word of a line can write down: a number, a figure, a reading.
ghost use Rattle.std.specs.Prelude.{◌≡◌, ◌<◌, ℕ, ◌++◌, List, [], ◌∷◌, map, Option, Some, IfOk, IsTrue, OnOk, decimal, string_bytes};
ghost use Rattle.std.specs.Fmt.{signed_decimal};
ghost use Rattle.std.specs.Option.{option_map};
ghost use Rattle.journal.specs.Tokens.{parsed_figure, parsed_number, reading_between, parsed_reading, reading_text, parsed_values};
ghost use Rattle.journal.specs.Words.{are_words, is_word, words_of, words_text};

use crate::words::next_word;
use std::alloc::{AllocError, Global};
use store::Reading;

// A value that one word writes down.
pub(crate) trait Token: Drop {
    ghost parse: { List ℕ → Option Self };

    ghost text: { Self → List ℕ };

    fn parse(word: &str) -> Option<Self>
        ensures { result ≡ parse word.now };

    // At the end of a line, as one word more.
    fn write(&self, line: &mut String) -> Result<(), AllocError>
        ensures written { OnOk result (
            string_bytes line.new ≡ string_bytes line.old ++ words_text (text self.now ∷ [])) }
        ensures word { OnOk result (IsTrue (is_word (text self.now))) }
        ensures again { OnOk result (parse (text self.now) ≡ Some self.now) };
}

impl Token for u32 {
    ghost parse = { parsed_number };

    ghost text = { decimal };

    fn parse(word: &str) -> Option<u32> {
        word.parse().ok()
    }

    fn write(&self, line: &mut String) -> Result<(), AllocError> {
        let number = *self;
        write!(line, " {number}")
    }
}

impl Token for i64 {
    ghost parse = { parsed_figure };

    ghost text = { signed_decimal };

    fn parse(word: &str) -> Option<i64> {
        word.parse().ok()
    }

    fn write(&self, line: &mut String) -> Result<(), AllocError> {
        let figure = *self;
        write!(line, " {figure}")
    }
}

// Two numbers, kW and kVA, and this between them.
pub(crate) fn reading_between(text: &str, separator: char) -> Option<Reading>
    requires { separator < 128 }
    ensures { result ≡ reading_between separator text.now }
{
    let (kw, kva) = text.split_once(separator)?;
    let kw = u32::parse(kw)?;
    let kva = u32::parse(kva)?;
    Some(Reading { kw, kva })
}

impl Token for Reading {
    ghost parse = { parsed_reading };

    ghost text = { reading_text };

    fn parse(word: &str) -> Option<Reading> {
        reading_between(word, '/')
    }

    fn write(&self, line: &mut String) -> Result<(), AllocError> {
        let Reading { kw, kva } = *self;
        write!(line, " {kw}/{kva}")
    }
}

// What all the words of a text write down; none where one of them is no such token.
pub(crate) fn parse_all<T: Token>(alloc: Global, text: &str) -> Result<Option<Vec<T>>, AllocError>
    ensures { IfOk result (λ found.
        option_map (λ items. items.items) found ≡ parsed_values T.parse (words_of text.now)) }
{
    let mut items = Vec::new(alloc);
    let mut left = text;
    while let Some((word, after)) = next_word(left) {
        let Some(item) = T::parse(word) else {
            return Ok(None);
        };
        items.push(item)?;
        left = after;
    }
    Ok(Some(items))
}

// All of these at the end of a line.
pub(crate) fn write_all<T: Token>(line: &mut String, items: &[T]) -> Result<(), AllocError>
    ensures written { OnOk result (
        string_bytes line.new ≡ string_bytes line.old ++ words_text (map T.text items.now)) }
    ensures words { OnOk result (IsTrue (are_words (map T.text items.now))) }
    ensures again { OnOk result (parsed_values T.parse (map T.text items.now) ≡ Some items.now) }
{
    for item in items {
        item.write(line)?;
    }
    Ok(())
}
