// The calls that a line can write down.
ghost use Rattle.std.specs.Prelude.{◌≡◌, Some, Ok, IfOk, string_bytes};
ghost use Rattle.journal.specs.LineText.{IsWritable, line_text, parts_of};
ghost use Rattle.journal.specs.Lines.{parse_result, call_value};
ghost use Rattle.journal.specs.Words.{uncommented, words_of};

use crate::line_text::write_words;
use crate::post_kind::PostKind;
use crate::verb::Verb;
use piles::{RateDraft, RiderDraft};
use std::alloc::{AllocError, Global};
use store::{Post, Reading};

/// A call, with its numbers as the line has them: whether they lie within their limits is for
/// whoever performs it. Months are numbered from 1; days, quarters, hours and entries from 0.
#[derive(PartialEq, Eq, Debug, Drop)]
pub enum Call<'a> {
    /// How many months and entries the book has room for.
    Memory {
        months: u32,
        entries: u32,
    },
    /// The rate that prices.
    Rate(RateDraft),
    /// A rider over what prices already.
    Rider(RiderDraft),
    /// The point's code, its contract and its substation total, both in kW, and the peaks in kW of the
    /// months before, the latest first.
    Open {
        code: &'a str,
        contract: u32,
        substation: u32,
        carried: Vec<u32>,
    },
    /// One month more.
    Start {
        days: u32,
    },
    /// What is posted to one quarter or hour.
    Post {
        month: u32,
        place: u32,
        post: Post,
    },
    /// The same posted to each quarter or hour from the first to the last.
    PostRange {
        month: u32,
        first: u32,
        last: u32,
        post: Post,
    },
    /// A day's readings, quarter by quarter.
    PostDay {
        month: u32,
        day: u32,
        code: &'a str,
        readings: Vec<Reading>,
    },
    /// A file of posts.
    Load {
        kind: PostKind,
        month: u32,
        file: &'a str,
    },
    /// An entry for each line of the month's first pricing.
    Bill {
        month: u32,
    },
    /// An entry for each line of a billed month that now prices otherwise.
    TrueUp {
        month: u32,
    },
    /// A month to which nothing more is posted.
    Finalise {
        month: u32,
    },
    /// Whether pricing the month now would alter a line.
    Due {
        month: u32,
    },
    /// What the month's entries for a line, numbered from 1, come to.
    Total {
        month: u32,
        line: u32,
    },
    /// One entry of the ledger as text.
    Text {
        entry: u32,
    },
    /// All entries as text.
    Ledger,
    /// A month for people.
    Statement {
        month: u32,
    },
}

impl Call<'_> {
    /// The verb that its line begins with.
    pub fn verb(&self) -> Verb
        ensures { result ≡ (parts_of self.now).0 }
    {
        match self {
            Call::Memory { .. } => Verb::Memory,
            Call::Rate(_) => Verb::Rate,
            Call::Rider(_) => Verb::Rider,
            Call::Open { .. } => Verb::Open,
            Call::Start { .. } => Verb::Start,
            Call::Post {
                post: Post::Reading(_),
                ..
            } => Verb::Reading,
            Call::Post {
                post: Post::Price(_),
                ..
            } => Verb::Price,
            Call::Post {
                post: Post::Scheduled(_),
                ..
            } => Verb::Schedule,
            Call::PostRange {
                post: Post::Reading(_),
                ..
            } => Verb::Readings,
            Call::PostRange {
                post: Post::Price(_),
                ..
            } => Verb::Prices,
            Call::PostRange {
                post: Post::Scheduled(_),
                ..
            } => Verb::Schedules,
            Call::PostDay { .. } => Verb::Day,
            Call::Load { .. } => Verb::Load,
            Call::Bill { .. } => Verb::Bill,
            Call::TrueUp { .. } => Verb::TrueUp,
            Call::Finalise { .. } => Verb::Finalise,
            Call::Due { .. } => Verb::Due,
            Call::Total { .. } => Verb::Total,
            Call::Text { .. } => Verb::Text,
            Call::Ledger => Verb::Ledger,
            Call::Statement { .. } => Verb::Statement,
        }
    }

    /// The line that writes it down. It reads as the call again, where the texts that the call
    /// names are words: not empty, without a space and without `#`.
    pub fn write(&self, alloc: Global) -> Result<String, AllocError>
        ensures text { IfOk result (λ line. string_bytes line ≡ line_text self.now) }
        ensures again { IfOk result (λ line. IsWritable self.now →
            parse_result (words_of (uncommented (string_bytes line)))
            ≡ Ok (Some (call_value self.now))) }
    {
        let mut line = String::from_str(alloc, self.verb().word())?;
        write_words(alloc, &mut line, self)?;
        Ok(line)
    }
}
