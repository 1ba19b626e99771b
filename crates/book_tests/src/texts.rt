// Entries in print, in lent bytes.
use crate::support::{CODE, Memory, start_full};
use book::Book;
use ledger::{LineColumns, MOST_BYTES};
use rates::dts::DTS_2007;
use store::{MONTH_HOURS, MONTH_QUARTERS, Post, Reading};
use tariff::{Draft, Refusal};

// What stands in the bytes before a call.
const INK: u8 = b'#';

// A ledger with the bill of the usual month.
fn billed(book: &mut Book<'_, '_, '_>) -> Result<(), Refusal> {
    book.open(CODE.into(), 20_000, 30_000, &[30_000])?;
    let month = start_full(book)?;
    book.bill(month, &DTS_2007.seal()?)?;
    Ok(())
}

fn trued_up(book: &mut Book<'_, '_, '_>) -> Result<usize, Refusal> {
    book.true_up(1, &DTS_2007.seal()?)
}

#[test]
fn an_entry_stands_at_the_front(rt: HostRuntime) {
    let mut memory = Memory::<MONTH_QUARTERS, MONTH_HOURS, 14>::new();
    let mut book = memory.book();
    assert_eq!(rt; billed(&mut book), Ok(()));
    let mut bytes = [INK; 30];
    assert_eq!(rt; book.text(0, &mut bytes), Ok(14));
    assert_eq!(rt; &bytes, b"1 B 1 4360500\n################");
    // bytes past a shorter line stay as they were
    assert_eq!(rt; book.text(13, &mut bytes), Ok(9));
    assert_eq!(rt; &bytes, b"1 B 14 0\n0500\n################");
}

#[test]
fn a_sign_is_printed(rt: HostRuntime) {
    let mut memory = Memory::<MONTH_QUARTERS, MONTH_HOURS, 28>::new();
    let mut book = memory.book();
    assert_eq!(rt; billed(&mut book), Ok(()));
    let late_reading = Reading {
        kw: 20_000,
        kva: 22_000,
    };
    assert_eq!(rt; book.post(1, 0, Post::Reading(late_reading)), Ok(()));
    assert_eq!(rt; trued_up(&mut book), Ok(5));
    let mut bytes = [INK; MOST_BYTES];
    assert_eq!(rt; book.text(18, &mut bytes), Ok(13));
    assert_eq!(rt; &bytes[..13], b"1 T 8 -90000\n".as_slice());
}

#[test]
fn a_line_has_three_columns(rt: HostRuntime) {
    let mut memory = Memory::<MONTH_QUARTERS, MONTH_HOURS, 28>::new();
    let mut book = memory.book();
    assert_eq!(rt; billed(&mut book), Ok(()));
    let late_reading = Reading {
        kw: 20_000,
        kva: 22_000,
    };
    assert_eq!(rt; book.post(1, 0, Post::Reading(late_reading)), Ok(()));
    assert_eq!(rt; trued_up(&mut book), Ok(5));
    let power_factor = LineColumns {
        billed: 90_000,
        trued_up: -90_000,
        total: 0,
    };
    assert_eq!(rt; book.ledger().columns(1, 8), power_factor);
    let system_energy = LineColumns {
        billed: 1_015_729,
        trued_up: -176,
        total: 1_015_553,
    };
    assert_eq!(rt; book.ledger().columns(1, 2), system_energy);
}

#[test]
fn the_upper_row_wins(rt: HostRuntime) {
    let mut memory = Memory::<MONTH_QUARTERS, MONTH_HOURS, 14>::new();
    let mut book = memory.book();
    let mut few_bytes = [INK; MOST_BYTES - 1];
    let numbers = |refusal: Refusal| refusal.numbers();
    // a blank book has no entries either
    let on_blank_book = book.text(3, &mut few_bytes);
    assert_eq!(rt; on_blank_book, Err(Refusal::BookBlank { month: 0 }));
    assert_eq!(rt; billed(&mut book), Ok(()));
    let past_last = book.text(14, &mut few_bytes);
    assert_eq!(rt;
        past_last,
        Err(Refusal::NoSuchPlace {
            month: 0,
            place: 14
        })
    );
    let at_highest = book.text(u32::MAX, &mut few_bytes);
    assert_eq!(rt;
        at_highest,
        Err(Refusal::NoSuchPlace {
            month: 0,
            place: 4_294_967_295
        })
    );
    let in_few_bytes = book.text(13, &mut few_bytes);
    assert_eq!(rt; in_few_bytes, Err(Refusal::TooFewBytes));
    let refusal_numbers = in_few_bytes
        .map_err(numbers)
        .err()
        .map(|n| (n.number, n.month, n.place, n.rider));
    assert_eq!(rt; refusal_numbers, Some((19, 0, 0, 0)));
    assert_eq!(rt; few_bytes, [INK; MOST_BYTES - 1]);
    assert_eq!(rt; book.text(13, &mut [INK; MOST_BYTES]), Ok(9));
}
