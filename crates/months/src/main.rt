//! Reads a table of months and prints what each comes to, one a line: its 14 amounts in cents, or
//! its refusal.

#![tactic(auto)]

mod month;
mod pricing;

use anyhow::Context;
use month::read_month;
use piles::PileError;
use pricing::price_month;
use std::alloc::Global;
use std::io::{self, BufRead, BufReader};
use tariff::Amounts;

fn print_amounts(rt: &impl Print, amounts: &Amounts) -> io::Result<()> {
    for (i, cents) in amounts.cents.iter().enumerate() {
        let gap = if i == 0 { "" } else { " " };
        print!(rt; "{gap}{cents}")?;
    }
    println!(rt; "")
}

fn answer(rt: &impl Print, alloc: Global, line: &str) -> anyhow::Result<()> {
    let Some(month) = read_month(alloc, line)? else {
        return Ok(());
    };
    match price_month(alloc, month) {
        Ok(amounts) => print_amounts(rt, &amounts)?,
        Err(PileError::Refused(refusal)) => println!(rt; "{refusal}")?,
        Err(PileError::OutOfMemory(error)) => return Err(error.into()),
    }
    Ok(())
}

fn main(rt: HostRuntime) -> anyhow::Result<()> {
    let alloc = rt.alloc();
    for (i, line) in BufReader::new(alloc, rt.reader())?.lines(alloc).enumerate() {
        answer(&rt, alloc, &line?).context(format_args!("line {}", i + 1))?;
    }
    Ok(())
}
