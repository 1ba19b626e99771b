// A ledger with exactly as many free entries as are to be written, and one too few; a book's size.
use crate::calls::{Ask, By, Call, Reply, refused, run};
use crate::support::Memory;
use book::Book;
use ledger::Entry;
use std::mem::size_of;
use store::{Hour, MONTH_HOURS, MONTH_QUARTERS, Quarter};

#[test]
fn a_bill_and_a_true_up_that_just_fit(rt: HostRuntime) {
    let mut memory = Memory::<MONTH_QUARTERS, MONTH_HOURS, 19>::new();
    let mut book = memory.book();
    run(
        &rt,
        &mut book,
        &[
            (Call::Open(20_000, 30_000), Ok(Reply::Done)),
            (Call::Full, Ok(Reply::Started(1))),
            (Call::Priced(Ask::Bill, 1, By::Dts), Ok(Reply::Written(14))),
            (Call::Reading(1, 0, 20_000, 22_000), Ok(Reply::Done)),
            (Call::Priced(Ask::TrueUp, 1, By::Dts), Ok(Reply::Written(5))),
            (Call::Entries, Ok(Reply::Entries(19))),
            (Call::Total(1, 2), Ok(Reply::Sum(1_015_553))),
            (Call::Total(1, 8), Ok(Reply::Sum(0))),
        ],
    );
}

#[test]
fn a_true_up_with_one_entry_too_few(rt: HostRuntime) {
    let mut memory = Memory::<MONTH_QUARTERS, MONTH_HOURS, 18>::new();
    let mut book = memory.book();
    run(
        &rt,
        &mut book,
        &[
            (Call::Open(20_000, 30_000), Ok(Reply::Done)),
            (Call::Full, Ok(Reply::Started(1))),
            (Call::Priced(Ask::Bill, 1, By::Dts), Ok(Reply::Written(14))),
            (Call::Reading(1, 0, 20_000, 22_000), Ok(Reply::Done)),
            (Call::Priced(Ask::TrueUp, 1, By::Dts), refused(16, 1, 4, 0)),
            (Call::Entries, Ok(Reply::Entries(14))),
            (Call::Total(1, 2), Ok(Reply::Sum(1_015_729))),
            (Call::Priced(Ask::Due, 1, By::Dts), Ok(Reply::IsDue(true))),
        ],
    );
}

// Two months, their bills and a few true-ups.
#[test]
fn a_book_of_two_months_fits_64_kib(rt: HostRuntime) {
    let readings = size_of::<[Quarter; 5952]>();
    let hours = size_of::<[Hour; 1488]>();
    let entries = size_of::<[Entry; 48]>();
    let book = size_of::<Book<'_, '_, '_>>();
    assert_eq!(rt; readings, 47_616);
    assert_eq!(rt; hours, 11_904);
    assert_eq!(rt; entries, 768);
    assert_eq!(rt; book, 664);
    assert!(rt; readings + hours + entries + book <= 65_536);
}
