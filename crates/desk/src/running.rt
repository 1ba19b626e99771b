// A journal performed from its first line to its last.
use crate::desk::{Desk, Surroundings, write_chosen};
use crate::line_error::LineError;
use crate::schedule::ChosenSchedule;
use anyhow::{Context, Result};
use book::BookMemory;
use journal::{Call, read};
use std::alloc::Global;
use std::io::Write;
use store::MOST_MONTHS;

// Four years, and as many true-ups as such years have.
pub(crate) const USUAL_MONTHS: u32 = MOST_MONTHS as u32;

pub(crate) const USUAL_ENTRIES: u32 = 2000;

// What stands before the book's first call: how many months and entries there is room for, and what
// prices.
#[derive(Drop)]
struct Setup {
    months: u32,
    entries: u32,
    schedule: ChosenSchedule,
}

// The promise over runs is for one schedule throughout. It is said once where another begins.
#[derive(Clone, Copy)]
struct Notice {
    given: bool,
}

impl Notice {
    fn give(&mut self, rt: &HostRuntime, changed: bool, number: usize) -> Result<()> {
        if changed && !self.given {
            self.given = true;
            eprintln!(rt;
                "journal line {number}: another schedule prices from here on; \
                 what is promised over a run is for one schedule throughout"
            )?;
        }
        Ok(())
    }
}

// The call that a line writes down, if it is not empty.
fn call(alloc: Global, number: usize, line: &str) -> Result<Option<Call<'_>>> {
    let read = read(alloc, line).map_err(LineError::from);
    read.context(format_args!("journal line {number}"))
}

// Performs the lines before the book's first call, and says how many they are.
fn begin<W: Write>(
    surroundings: Surroundings<'_>,
    lines: &[&str],
    setup: &mut Setup,
    notice: &mut Notice,
    out: &mut W,
) -> Result<usize> {
    let alloc = surroundings.rt.alloc();
    for (i, line) in lines.iter().enumerate() {
        let schedule = &mut setup.schedule;
        match call(alloc, i + 1, line)? {
            None => {}
            Some(Call::Memory { months, entries }) => {
                setup.months = months;
                setup.entries = entries;
                writeln!(out, "ok")?;
            }
            Some(Call::Rate(rate)) => write_chosen(out, schedule.begin(alloc, rate))?,
            Some(Call::Rider(rider)) => write_chosen(out, schedule.add_rider(rider))?,
            Some(_) => return Ok(i),
        }
        notice.give(surroundings.rt, setup.schedule.has_changed(), i + 1)?;
    }
    Ok(lines.len())
}

// Performs the lines from the book's first call on.
fn go_on<W: Write>(
    surroundings: Surroundings<'_>,
    lines: &[&str],
    begun: usize,
    desk: &mut Desk<'_>,
    notice: &mut Notice,
    out: &mut W,
) -> Result<()> {
    for (i, line) in lines.iter().enumerate().skip(begun) {
        if let Some(call) = call(surroundings.rt.alloc(), i + 1, line)? {
            desk.perform(surroundings, call, out)
                .context(format_args!("journal line {}", i + 1))?;
            notice.give(surroundings.rt, desk.has_changed(), i + 1)?;
        }
    }
    Ok(())
}

pub(crate) fn run<W: Write>(
    surroundings: Surroundings<'_>,
    journal: &str,
    out: &mut W,
) -> Result<()> {
    let alloc = surroundings.rt.alloc();
    let lines = journal.lines().collect::<Vec<&str>>(alloc)?;
    let mut setup = Setup {
        months: USUAL_MONTHS,
        entries: USUAL_ENTRIES,
        schedule: ChosenSchedule::published_dts(alloc)?,
    };
    let mut notice = Notice { given: false };
    let begun = begin(surroundings, &lines, &mut setup, &mut notice, out)?;
    let Setup {
        months,
        entries,
        schedule,
    } = setup;
    let mut memory = BookMemory::new(alloc, months, entries as usize)?;
    let mut desk = Desk::new(memory.book(), schedule);
    go_on(surroundings, &lines, begun, &mut desk, &mut notice, out)
}
