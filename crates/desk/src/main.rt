//! The desk: a book kept as a plain-text journal, which is read and performed line by line.

#![tactic(auto)]

mod desk;
mod dollars;
mod help;
mod line_error;
mod loading;
mod meanings;
mod running;
mod schedule;
mod statement;
#[cfg(test)]
mod tests;

use crate::desk::Surroundings;
use crate::help::print_help;
use crate::meanings::meaning_of;
use crate::running::run;
use anyhow::{Context, Result, bail};
use std::io::{self, BufWriter, Write};
use std::process::ExitCode;
use std::{env, fs};
use tariff::Refusal;

fn explain(rt: &HostRuntime, number: &str) -> Result<()> {
    let meaning = number.parse().ok().and_then(meaning_of);
    println!(rt;
        "{}",
        meaning.context(format_args!("refusals are numbered from 1 to {}", Refusal::KINDS.len()))?
    )?;
    Ok(())
}

// Performs a journal; what it answered before it stopped is written all the same.
fn perform_journal(rt: &HostRuntime, folder: &str, journal: &str) -> Result<()> {
    let mut out = BufWriter::new(rt.alloc(), io::writer(rt))?;
    let ended = run(Surroundings { rt, folder }, journal, &mut out);
    out.flush()?;
    ended
}

// The folder of a file, with the slash after it; nothing where it has none.
fn folder_of(path: &str) -> &str {
    path.rfind('/').map_or("", |slash| &path[..=slash])
}

// What the desk is called for.
#[derive(Drop)]
enum Command {
    Journal,
    JournalIn(String),
    Meaning(String),
    Help,
}

fn read_words(rt: &HostRuntime) -> Result<Command> {
    let mut words = env::args(rt)?.skip(1);
    let Some(word) = words.next() else {
        return Ok(Command::Journal);
    };
    let next = words.next();
    if words.next().is_some() {
        bail!("desk --help says how it is called");
    }
    match (word.as_str(), next) {
        ("--help", None) => Ok(Command::Help),
        ("--explain", Some(number)) => Ok(Command::Meaning(number)),
        (path, None) if !path.starts_with("--") => Ok(Command::JournalIn(word)),
        _ => bail!("desk --help says how it is called"),
    }
}

fn perform_file(rt: &HostRuntime, path: &str) -> Result<()> {
    let journal = fs::read_to_string(rt, path).context(format_args!("cannot read {path}"))?;
    perform_journal(rt, folder_of(path), &journal)
}

fn answer(rt: &HostRuntime) -> Result<()> {
    match read_words(rt)? {
        Command::Journal => perform_journal(rt, "", &io::read_to_string(rt.alloc(), rt.reader())?),
        Command::JournalIn(path) => perform_file(rt, &path),
        Command::Meaning(number) => explain(rt, &number),
        Command::Help => Ok(print_help(rt)?),
    }
}

fn main(rt: HostRuntime) -> Result<ExitCode> {
    match answer(&rt) {
        Ok(()) => Ok(ExitCode::SUCCESS),
        Err(error) => {
            eprintln!(rt; "{error:#}")?;
            Ok(ExitCode::FAILURE)
        }
    }
}
