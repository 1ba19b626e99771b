//! Bills a month, takes a late reading, trues the month up, and prints the ledger.

#![tactic(auto)]

use audit::{Analyst, audit};
use book::{Answer, Book, PointCode, Request};
use ledger::{Entry, MOST_BYTES};
use rates::dts::{DTS_2007, DtsSheet};
use std::array;
use std::ops::Range;
use store::{DAY_HOURS, DAY_QUARTERS, Hour, MONTH_HOURS, MONTH_QUARTERS, Post, Quarter, Reading};
use tariff::{Draft, Refusal};

const CODE: [u8; 8] = *b"ALTA0001";

const MONTH: u32 = 1;

const DAYS: u32 = 30;

const HOURS: u32 = DAY_HOURS as u32 * DAYS;

// Room for two months, and for their bills with a few true-ups.
const MONTHS: usize = 2;

const ENTRIES: usize = 48;

// More calls than the plan has.
const TURNS: usize = 1_000;

const READING: Reading = Reading {
    kw: 10_000,
    kva: 10_000,
};

const PEAK: Reading = Reading {
    kw: 25_000,
    kva: 30_000,
};

const LATE: Reading = Reading {
    kw: 20_000,
    kva: 22_000,
};

// Opens, starts, posts the days and the prices, bills, posts a late reading and trues up. The calls
// are made as they are asked for, so that the run needs no heap.
#[derive(Drop)]
struct Plan<'d> {
    opening: array::IntoIter<Request<'d>, 2>,
    days: Range<u32>,
    peak_day: &'d [Reading],
    usual_day: &'d [Reading],
    hours: Range<u32>,
    billing: array::IntoIter<Request<'d>, 3>,
}

impl<'d> Analyst<'d> for Plan<'d> {
    ghost chooses = { λ _ _ _ _. Unit {0} };

    fn next(&mut self, _last: &Answer) -> Option<Request<'d>> {
        if let Some(request) = self.opening.next() {
            return Some(request);
        }
        if let Some(day) = self.days.next() {
            return Some(Request::PostDay {
                month: MONTH,
                day,
                code: PointCode::from(CODE),
                readings: if day == 0 {
                    self.peak_day
                } else {
                    self.usual_day
                },
            });
        }
        if let Some(hour) = self.hours.next() {
            return Some(Request::Post {
                month: MONTH,
                place: hour,
                post: Post::Price(5_000),
            });
        }
        self.billing.next()
    }
}

fn plan_of<'d>(carried: &'d [u32], peak_day: &'d [Reading], usual_day: &'d [Reading]) -> Plan<'d> {
    let opening = [
        Request::Open {
            code: PointCode::from(CODE),
            contract: 20_000,
            substation: 30_000,
            carried,
        },
        Request::Start { days: DAYS },
    ];
    let billing = [
        Request::Bill { month: MONTH },
        Request::Post {
            month: MONTH,
            place: 0,
            post: Post::Reading(LATE),
        },
        Request::TrueUp { month: MONTH },
    ];
    Plan {
        opening: opening.into_iter(),
        days: 0..DAYS,
        peak_day,
        usual_day,
        hours: 0..HOURS,
        billing: billing.into_iter(),
    }
}

fn sheet() -> Result<DtsSheet, Refusal> {
    Ok(DTS_2007.seal()?)
}

fn run(rt: &HostRuntime) -> anyhow::Result<()> {
    let mut quarters = [Quarter::NEVER_POSTED; MONTHS * MONTH_QUARTERS];
    let mut hours = [Hour::NEVER_POSTED; MONTHS * MONTH_HOURS];
    let mut entries = [Entry::UNWRITTEN; ENTRIES];
    let sheet = sheet()?;
    let day = [READING; DAY_QUARTERS];
    let mut peak_day = day;
    peak_day[0] = PEAK;
    let mut plan = plan_of(&[30_000], &peak_day, &day);
    let book = audit(
        &mut quarters,
        &mut hours,
        &mut entries,
        &sheet,
        &mut plan,
        TURNS,
    );
    print_ledger(rt, &book)
}

// Each entry by its number, as its line.
fn print_ledger(rt: &HostRuntime, book: &Book<'_, '_, '_>) -> anyhow::Result<()> {
    let mut line = [0; MOST_BYTES];
    for entry in 0..u32::try_from(book.ledger().slice.len())? {
        let length = book.text(entry, &mut line)?;
        rt.write_all(&line[..length])?;
    }
    Ok(())
}

fn main(rt: HostRuntime) -> anyhow::Result<()> {
    run(&rt)
}
