// The desk: a book, the schedule that prices it, and the calls of a journal performed on them.
use crate::line_error::LineError;
use crate::loading::load;
use crate::schedule::ChosenSchedule;
use crate::statement::Statement;
use anyhow::Result;
use book::{Answer, Book, PointCode, Request, perform};
use journal::{Call, Verb};
use ledger::MOST_BYTES;
use piles::PileError;
use std::alloc::Global;
use std::io::Write;
use store::Post;
use tariff::Refusal;

/// Where the desk's files and memory come from.
#[derive(Clone, Copy)]
pub(crate) struct Surroundings<'r> {
    pub(crate) rt: &'r HostRuntime,
    // the folder of the journal, where the files lie that it loads
    pub(crate) folder: &'r str,
}

#[derive(Drop)]
pub(crate) struct Desk<'b> {
    book: Book<'b, 'b, 'b>,
    schedule: ChosenSchedule,
}

impl<'b> Desk<'b> {
    pub(crate) fn new(book: Book<'b, 'b, 'b>, mut schedule: ChosenSchedule) -> Desk<'b> {
        schedule.put_in_use();
        Desk { book, schedule }
    }

    /// Whether another schedule prices than the first.
    pub(crate) fn has_changed(&self) -> bool {
        self.schedule.has_changed()
    }

    /// Performs a call and writes what it answers.
    pub(crate) fn perform<W: Write>(
        &mut self,
        surroundings: Surroundings<'_>,
        call: Call<'_>,
        out: &mut W,
    ) -> Result<()> {
        let alloc = surroundings.rt.alloc();
        // what the desk does itself is answered here, and the rest is asked of the book
        match call {
            // memory is given before the book is made
            Call::Memory { .. } => Err(LineError::LateMemory.into()),
            Call::Rate(rate) => write_chosen(out, self.schedule.begin(alloc, rate)),
            Call::Rider(rider) => write_chosen(out, self.schedule.add_rider(rider)),
            Call::PostRange {
                month,
                first,
                last,
                post,
            } => {
                let count = (u64::from(last) + 1).saturating_sub(first.into());
                write_count(out, self.post_range(month, first, last, post), count)
            }
            Call::Load { kind, month, file } => {
                let posts = load(surroundings, kind, file)?;
                write_count(out, self.post_list(month, &posts), posts.len() as u64)
            }
            Call::Text { entry } => self.write_text(entry, out),
            Call::Ledger => self.write_ledger(out),
            Call::Statement { month } => self.write_statement(alloc, month, out),
            Call::Open {
                code,
                contract,
                substation,
                carried,
            } => {
                let request = Request::Open {
                    code: point_code(code, Verb::Open)?,
                    contract,
                    substation,
                    carried: &carried[..],
                };
                self.ask(request, out)
            }
            Call::PostDay {
                month,
                day,
                code,
                readings,
            } => {
                let request = Request::PostDay {
                    month,
                    day,
                    code: point_code(code, Verb::Day)?,
                    readings: &readings[..],
                };
                self.ask(request, out)
            }
            Call::Post { month, place, post } => {
                self.ask(Request::Post { month, place, post }, out)
            }
            Call::Start { days } => self.ask(Request::Start { days }, out),
            Call::Bill { month } => self.ask(Request::Bill { month }, out),
            Call::TrueUp { month } => self.ask(Request::TrueUp { month }, out),
            Call::Finalise { month } => self.ask(Request::Finalise { month }, out),
            Call::Due { month } => self.ask(Request::Due { month }, out),
            Call::Total { month, line } => self.ask(Request::Total { month, line }, out),
        }
    }

    // Every call that the desk makes of the book, but for what only reads it.
    fn perform_on_book(&mut self, request: Request<'_>) -> Answer {
        perform(&mut self.book, &self.schedule.pile, request)
    }

    fn ask<W: Write>(&mut self, request: Request<'_>, out: &mut W) -> Result<()> {
        let answer = self.perform_on_book(request);
        write_answer(out, &answer)
    }

    fn post(&mut self, month: u32, place: u32, post: Post) -> Result<(), Refusal> {
        match self.perform_on_book(Request::Post { month, place, post }) {
            Answer::Refused(refusal) => Err(refusal),
            _ => Ok(()),
        }
    }

    // Posts place after place, up to the first that is refused.
    fn post_range(&mut self, month: u32, first: u32, last: u32, post: Post) -> Result<(), Refusal> {
        for place in first..=last {
            self.post(month, place, post)?;
        }
        Ok(())
    }

    fn post_list(&mut self, month: u32, posts: &[(u32, Post)]) -> Result<(), Refusal> {
        for (place, post) in posts {
            self.post(month, *place, *post)?;
        }
        Ok(())
    }

    fn write_text<W: Write>(&self, entry: u32, out: &mut W) -> Result<()> {
        let mut line = [0; MOST_BYTES];
        match self.book.text(entry, &mut line) {
            Ok(length) => out.write_all(&line[..length])?,
            Err(refusal) => writeln!(out, "{refusal}")?,
        }
        Ok(())
    }

    // All entries; a blank book has no ledger to be asked for.
    fn write_ledger<W: Write>(&self, out: &mut W) -> Result<()> {
        let mut line = [0; MOST_BYTES];
        if let Err(blank @ Refusal::BookBlank { .. }) = self.book.text(0, &mut line) {
            writeln!(out, "{blank}")?;
        }
        let entries = self.book.ledger();
        for entry in 0..entries.slice.len() {
            let length = entries.text(entry, &mut line)?;
            out.write_all(&line[..length])?;
        }
        Ok(())
    }

    fn write_statement<W: Write>(&self, alloc: Global, month: u32, out: &mut W) -> Result<()> {
        match Statement::new(&self.book, month, &self.schedule.pile) {
            Ok(statement) => statement.write(alloc, out),
            Err(refusal) => Ok(writeln!(out, "{refusal}")?),
        }
    }
}

// The code of a point, of a call of this verb.
fn point_code(code: &str, verb: Verb) -> Result<PointCode, LineError> {
    PointCode::try_from(code).map_err(|_| LineError::Code(verb))
}

pub(crate) fn write_chosen<W: Write>(out: &mut W, chosen: Result<(), PileError>) -> Result<()> {
    match chosen {
        Ok(()) => writeln!(out, "ok")?,
        Err(PileError::Refused(refusal)) => writeln!(out, "{refusal}")?,
        Err(PileError::OutOfMemory(error)) => return Err(error.into()),
    }
    Ok(())
}

fn write_count<W: Write>(out: &mut W, posted: Result<(), Refusal>, count: u64) -> Result<()> {
    match posted {
        Ok(()) => writeln!(out, "ok {count}")?,
        Err(refusal) => writeln!(out, "{refusal}")?,
    }
    Ok(())
}

fn write_answer<W: Write>(out: &mut W, answer: &Answer) -> Result<()> {
    match answer {
        Answer::Begun | Answer::Done => writeln!(out, "ok")?,
        Answer::Started(month) => writeln!(out, "ok {month}")?,
        Answer::Written(entries) => writeln!(out, "ok {entries}")?,
        Answer::IsDue(true) => writeln!(out, "ok yes")?,
        Answer::IsDue(false) => writeln!(out, "ok no")?,
        Answer::Sum(cents) => writeln!(out, "ok {cents}")?,
        Answer::Refused(refusal) => writeln!(out, "{refusal}")?,
    }
    Ok(())
}
