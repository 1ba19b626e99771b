// What the tests share.
use book::Book;
use ledger::{Entry, EntryKind};
use store::{DAY_HOURS, DAY_QUARTERS, Hour, Post, Quarter, Reading};
use tariff::{LINES, Line, Refusal};

// The code of the point.
pub(crate) const CODE: [u8; 8] = *b"POINT001";

// What may stand in a ledger's memory.
pub(crate) const STALE: Entry = Entry {
    month: 1,
    kind: EntryKind::Bill,
    line: 1,
    cents: 1,
};

pub(crate) const USUAL: Reading = Reading {
    kw: 10_000,
    kva: 10_000,
};

// The lines of the usual month with a first reading of 25,000 kW and 30,000 kVA, under DTS and
// after a month of 30,000 kW. Worked out by hand from the rate.
pub(crate) const LINES_BILLED: [i64; LINES] = [
    4_360_500, 1_015_729, 1_776_600, 1_516_333, 1_347_101, 713_171, 170_000, 90_000, 0, 0, 0, 0, 0,
    0,
];

// Lent memory for quarters, hours and entries.
#[derive(Drop)]
pub(crate) struct Memory<const Q: usize, const H: usize, const E: usize> {
    quarters: [Quarter; Q],
    hours: [Hour; H],
    entries: [Entry; E],
}

impl<const Q: usize, const H: usize, const E: usize> Memory<Q, H, E> {
    pub(crate) fn new() -> Memory<Q, H, E> {
        Memory {
            quarters: [Quarter::NEVER_POSTED; Q],
            hours: [Hour::NEVER_POSTED; H],
            entries: [STALE; E],
        }
    }

    pub(crate) fn book(&mut self) -> Book<'_, '_, '_> {
        Book::new(&mut self.quarters, &mut self.hours, &mut self.entries)
    }
}

// Posts one reading to every quarter of a month and one price to every hour.
pub(crate) fn fill(
    book: &mut Book<'_, '_, '_>,
    month: u32,
    days: u8,
    reading: Reading,
    price: u32,
) -> Result<(), Refusal> {
    for day in 0..u32::from(days) {
        book.post_day(month, day, CODE.into(), &[reading; DAY_QUARTERS])?;
    }
    for hour in 0..DAY_HOURS as u32 * u32::from(days) {
        book.post(month, hour, Post::Price(price))?;
    }
    Ok(())
}

// Starts a month of 30 days and posts all that a bill of it wants.
pub(crate) fn start_full(book: &mut Book<'_, '_, '_>) -> Result<u32, Refusal> {
    let month = book.start(30)?;
    let first = Reading {
        kw: 25_000,
        kva: 30_000,
    };
    fill(book, month, 30, USUAL, 5_000)?;
    book.post(month, 0, Post::Reading(first))?;
    Ok(month)
}

// What the entries of each line of a month add up to.
pub(crate) fn totals(book: &Book<'_, '_, '_>, month: u32) -> Result<[i64; LINES], Refusal> {
    let mut cents = [0; LINES];
    for line in Line::ALL.iter() {
        cents[line.index()] = book.total(month, line.number().into())?;
    }
    Ok(cents)
}
