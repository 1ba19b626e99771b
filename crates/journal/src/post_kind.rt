// What a file that is loaded holds, and a line of it.
ghost use Rattle.std.specs.Prelude.{◌≡◌};
ghost use Rattle.journal.specs.PostKinds.{kind_named, kind_word, post_form, post_line, post_of, post_after};
ghost use Rattle.journal.specs.Tokens.{parsed_number};
ghost use Rattle.journal.specs.Words.{uncommented, words_of};

use crate::parse_error::ParseError;
use crate::token::{Token, reading_between};
use crate::words::{next_word, uncommented};
use store::Post;

/// What a file that is loaded holds, line by line.
#[derive(Clone, Copy, PartialEq, Eq, Debug)]
pub enum PostKind {
    /// Readings of quarters, in kW and kVA.
    Reading,
    /// Pool prices of hours, in cents per MWh.
    Price,
    /// Scheduled kW of hours.
    Scheduled,
}

impl PostKind {
    // The kind that a word of a `load` line names.
    pub(crate) fn named(word: &str) -> Option<PostKind>
        ensures { result ≡ kind_named word.now }
    {
        match word {
            "readings" => Some(PostKind::Reading),
            "prices" => Some(PostKind::Price),
            "schedule" => Some(PostKind::Scheduled),
            _ => None,
        }
    }

    // The word that names it.
    pub(crate) fn word(self) -> &'static str
        ensures { result.now ≡ kind_word self }
    {
        match self {
            PostKind::Reading => "readings",
            PostKind::Price => "prices",
            PostKind::Scheduled => "schedule",
        }
    }

    // What a line of such a file is written as.
    pub(crate) fn form(self) -> &'static str
        ensures { result.now ≡ post_form self }
    {
        match self {
            PostKind::Reading => "QUARTER,KW,KVA",
            PostKind::Price => "HOUR,CENTS",
            PostKind::Scheduled => "HOUR,KW",
        }
    }

    // The post that stands after its place.
    fn value(self, text: &str) -> Option<Post>
        ensures { result ≡ post_after self text.now }
    {
        Some(match self {
            PostKind::Reading => Post::Reading(reading_between(text, ',')?),
            PostKind::Price => Post::Price(u32::parse(text)?),
            PostKind::Scheduled => Post::Scheduled(u32::parse(text)?),
        })
    }

    // A place, a comma, and the post.
    fn post(self, word: &str) -> Option<(u32, Post)>
        ensures { result ≡ post_of self word.now }
    {
        let (place, text) = word.split_once(',')?;
        let place = u32::parse(place)?;
        let post = self.value(text)?;
        Some((place, post))
    }

    /// The quarter or hour, and what is posted to it, that a line of such a file writes down: none
    /// where it has no word, or only a comment.
    pub fn read(self, line: &str) -> Result<Option<(u32, Post)>, ParseError>
        ensures { result ≡ post_line self (words_of (uncommented line.now)) }
    {
        let Some((word, text)) = next_word(uncommented(line)) else {
            return Ok(None);
        };
        let None = next_word(text) else {
            return Err(ParseError::NoPost(self));
        };
        match self.post(word) {
            Some(post) => Ok(Some(post)),
            None => Err(ParseError::NoPost(self)),
        }
    }
}
