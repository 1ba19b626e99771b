// What `desk --help` prints.
use crate::running::{USUAL_ENTRIES, USUAL_MONTHS};
use journal::Verb;
use std::{fmt, io};

const USAGE: &str = "\
desk              reads a journal from standard input
desk FILE         reads it from a file
desk --explain N  prints what refusal N means
desk --help       prints this

A journal has one call a line, words apart by spaces; # begins a comment. Memory, rate and riders come
first. Each call answers a line: ok and what it comes to, or refused NUMBER MONTH PLACE RIDER.
";

// What a call is for.
#[derive(Clone, Copy)]
struct Note(Verb);

impl fmt::Display for Note {
    fn fmt<W: fmt::Write>(&self, f: &mut fmt::Formatter<W>) -> fmt::Result {
        let text = match self.0 {
            Verb::Memory => {
                return write!(
                    f,
                    "what the book has room for; {USUAL_MONTHS} and {USUAL_ENTRIES} where this is left out"
                );
            }
            Verb::Rate =>
                "what prices: DTS where this is left out, published figures where they are",
            Verb::Rider => "laid over what is there already",
            Verb::Open => "a code of 8 bytes, and the peaks of the months before, the latest first",
            Verb::Start => "one month more; answers its number",
            Verb::Reading => "a quarter's reading, the quarters counted from 0",
            Verb::Readings => "the same reading for each quarter from the first to the last",
            Verb::Day => "a day's 96 readings, the days counted from 0",
            Verb::Price => "an hour's pool price in cents per MWh, the hours counted from 0",
            Verb::Prices => "the same price for each hour from the first to the last",
            Verb::Schedule => "an hour's scheduled kW",
            Verb::Schedules => "the same scheduled kW for each hour from the first to the last",
            Verb::Load => "a file with a post a line: QUARTER,KW,KVA or HOUR,CENTS or HOUR,KW",
            Verb::Bill => "writes an entry for each line; answers how many",
            Verb::TrueUp => "writes an entry for each line that differs; answers how many",
            Verb::Finalise => "nothing more is posted to the month",
            Verb::Due => "whether pricing the month now would alter a line",
            Verb::Total => "what the month's entries for a line come to, in cents",
            Verb::Text => "an entry of the ledger, counted from 0",
            Verb::Ledger => "all entries, one a line",
            Verb::Statement => "a month for people, in dollars and cents",
        };
        f.write_str(text)
    }
}

pub(crate) fn print_help(rt: &impl Print) -> io::Result<()> {
    println!(rt; "{USAGE}")?;
    for verb in Verb::ALL.iter() {
        let form = verb.form();
        let note = Note(*verb);
        println!(rt; "    {form}\n        {note}")?;
    }
    Ok(())
}
