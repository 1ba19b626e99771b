// Peaks that stay in the ratchet for 24 months.
use crate::sheets::capacity;
use crate::support::{CODE, Memory, fill};
use book::Book;
use store::{Post, Reading};
use tariff::Refusal;

// The load of a month that sets no peak.
const LOW: Reading = Reading {
    kw: 1_000,
    kva: 1_000,
};

// Starts, fills and bills a month of 28 days; answers its billing capacity in tenths of a kW, which
// is all that the sheet charges, a cent each.
fn capacity_billed(book: &mut Book<'_, '_, '_>) -> Result<i64, Refusal> {
    let month = book.start(28)?;
    fill(book, month, 28, LOW, 0)?;
    book.bill(month, &capacity()?)?;
    book.total(month, 1)
}

// A peak of month 1 counts in months 2 to 25, and no more in month 26.
#[test]
fn a_peak_is_gone_in_the_25th_month(rt: HostRuntime) -> Result<(), Refusal> {
    let mut memory = Memory::<77376, 19344, 364>::new();
    let mut book = memory.book();
    book.open(CODE.into(), 1, 1, &[])?;
    assert_eq!(rt; capacity_billed(&mut book)?, 10_000);
    let high = Reading {
        kw: 30_000,
        kva: 30_000,
    };
    book.post(1, 0, Post::Reading(high))?;
    for _month in 2..26 {
        assert_eq!(rt; capacity_billed(&mut book)?, 270_000);
    }
    assert_eq!(rt; capacity_billed(&mut book)?, 10_000);
    Ok(())
}

// Of the carried peaks the earliest counts in month 1 alone, and the latest up to month 24.
#[test]
fn carried_peaks_age_out(rt: HostRuntime) -> Result<(), Refusal> {
    let mut memory = Memory::<74400, 18600, 350>::new();
    let mut book = memory.book();
    let mut carried = [0; 24];
    carried[0] = 20_000;
    carried[23] = 50_000;
    book.open(CODE.into(), 1, 1, &carried)?;
    assert_eq!(rt; capacity_billed(&mut book)?, 450_000);
    for _month in 2..25 {
        assert_eq!(rt; capacity_billed(&mut book)?, 180_000);
    }
    assert_eq!(rt; capacity_billed(&mut book)?, 10_000);
    Ok(())
}
