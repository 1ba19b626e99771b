// Each row of the refusal table, and rows that hold together, of which the upper wins.
use crate::calls::{Ask, By, Call, Reply, refused, run};
use crate::support::{CODE, Memory, USUAL};
use std::test::Fail;
use store::{DAY_QUARTERS, MONTH_HOURS, MONTH_QUARTERS};

// The code of another point.
const OTHER: [u8; 8] = *b"POINT002";

#[test]
fn a_blank_book_takes_open_alone(rt: HostRuntime) {
    let mut memory = Memory::<0, 0, 0>::new();
    let mut book = memory.book();
    run(
        &rt,
        &mut book,
        &[
            (Call::Start(30), refused(1, 0, 0, 0)),
            // no month is free, and none has 27 days
            (Call::Start(27), refused(1, 0, 0, 0)),
            // there is no such month
            (Call::Reading(5, 0, 2, 1), refused(1, 5, 0, 0)),
            (Call::Day(5, 0, OTHER, 95, None), refused(1, 5, 0, 0)),
            (Call::Price(5, 0, 100_000), refused(1, 5, 0, 0)),
            (Call::Scheduled(5, 0, 1_000_001), refused(1, 5, 0, 0)),
            (Call::Priced(Ask::Bill, 5, By::Faulty), refused(1, 5, 0, 0)),
            (
                Call::Priced(Ask::TrueUp, 5, By::Faulty),
                refused(1, 5, 0, 0),
            ),
            (
                Call::Priced(Ask::Finalise, 5, By::Faulty),
                refused(1, 5, 0, 0),
            ),
            (Call::Priced(Ask::Due, 5, By::Faulty), refused(1, 5, 0, 0)),
            (Call::Total(5, 0), refused(1, 5, 0, 0)),
            (Call::Entries, Ok(Reply::Entries(0))),
            (Call::Open(0, 1), refused(3, 0, 0, 0)),
            (Call::Open(2, 1), refused(3, 0, 0, 0)),
            (Call::Open(1, 1_000_001), refused(3, 0, 0, 0)),
            (Call::Open(1_000_000, 1_000_000), Ok(Reply::Done)),
            (Call::Open(1, 1), refused(2, 0, 0, 0)),
            // a figure outside its limit
            (Call::Open(0, 1), refused(2, 0, 0, 0)),
            (Call::Start(30), refused(4, 0, 0, 0)),
            (Call::Start(32), refused(4, 0, 0, 0)),
        ],
    );
}

#[test]
fn carried_peaks_have_limits(rt: HostRuntime) {
    let mut memory = Memory::<0, 0, 0>::new();
    let mut book = memory.book();
    let many = book.open(CODE.into(), 1, 1, &[0; 25]);
    assert_eq!(rt; many.err().map(|refusal| refusal.numbers().number), Some(3));
    let high = book.open(CODE.into(), 1, 1, &[0, 1_000_001]);
    assert_eq!(rt; high.err().map(|refusal| refusal.numbers().number), Some(3));
    assert!(rt; book.open(CODE.into(), 1, 1, &[1_000_000; 24]).is_ok());
}

#[test]
fn months_have_28_to_31_days(rt: HostRuntime) {
    let mut memory = Memory::<5952, 1488, 0>::new();
    let mut book = memory.book();
    run(
        &rt,
        &mut book,
        &[
            (Call::Open(1, 1), Ok(Reply::Done)),
            (Call::Start(27), refused(5, 0, 0, 0)),
            (Call::Start(28), Ok(Reply::Started(1))),
            (Call::Start(32), refused(5, 0, 0, 0)),
            (Call::Start(31), Ok(Reply::Started(2))),
            (Call::Start(30), refused(4, 0, 0, 0)),
            (Call::Reading(1, 2_687, 1, 1), Ok(Reply::Done)),
            (Call::Reading(1, 2_688, 1, 1), refused(8, 1, 2_688, 0)),
            (Call::Reading(2, 2_975, 1, 1), Ok(Reply::Done)),
            (Call::Reading(2, 2_976, 1, 1), refused(8, 2, 2_976, 0)),
        ],
    );
}

#[test]
fn a_month_that_is_not_there(rt: HostRuntime) {
    let mut memory = Memory::<MONTH_QUARTERS, MONTH_HOURS, 14>::new();
    let mut book = memory.book();
    run(
        &rt,
        &mut book,
        &[
            (Call::Open(20_000, 30_000), Ok(Reply::Done)),
            (Call::Start(30), Ok(Reply::Started(1))),
            // each with other rows that hold of what is posted
            (Call::Reading(0, 9_999, 2, 1), refused(6, 0, 0, 0)),
            (Call::Day(2, 31, OTHER, 95, None), refused(6, 2, 0, 0)),
            (Call::Price(2, 999, 100_000), refused(6, 2, 0, 0)),
            (Call::Scheduled(0, 999, 1_000_001), refused(6, 0, 0, 0)),
            (Call::Priced(Ask::Bill, 2, By::Faulty), refused(6, 2, 0, 0)),
            (
                Call::Priced(Ask::TrueUp, 0, By::Faulty),
                refused(6, 0, 0, 0),
            ),
            (
                Call::Priced(Ask::Finalise, 2, By::Faulty),
                refused(6, 2, 0, 0),
            ),
            (Call::Priced(Ask::Due, 2, By::Faulty), refused(6, 2, 0, 0)),
            (Call::Total(2, 15), refused(6, 2, 0, 0)),
        ],
    );
}

#[test]
fn what_is_posted_has_limits(rt: HostRuntime) {
    let mut memory = Memory::<MONTH_QUARTERS, MONTH_HOURS, 14>::new();
    let mut book = memory.book();
    run(
        &rt,
        &mut book,
        &[
            (Call::Open(20_000, 30_000), Ok(Reply::Done)),
            (Call::Start(30), Ok(Reply::Started(1))),
            // a quarter that is not there, before a kVA below the kW
            (Call::Reading(1, 2_880, 2, 1), refused(8, 1, 2_880, 0)),
            (Call::Reading(1, 2_879, 2, 1), refused(10, 1, 0, 0)),
            (Call::Reading(1, 0, 1, 1_000_001), refused(10, 1, 0, 0)),
            (Call::Reading(1, 0, 1_000_000, 1_000_000), Ok(Reply::Done)),
            // a day that is not there, before another point's code and too few readings
            (Call::Day(1, 30, OTHER, 95, None), refused(8, 1, 30, 0)),
            (Call::Day(1, 29, OTHER, 95, None), refused(9, 1, 0, 0)),
            (Call::Day(1, 29, CODE, 95, Some(3)), refused(10, 1, 96, 0)),
            (Call::Day(1, 29, CODE, 97, Some(3)), refused(10, 1, 96, 0)),
            (Call::Day(1, 29, CODE, 96, Some(3)), refused(10, 1, 3, 0)),
            (Call::Day(1, 29, CODE, 96, Some(95)), refused(10, 1, 95, 0)),
            (Call::Day(1, 29, CODE, 96, None), Ok(Reply::Done)),
            // an hour that is not there, before a price and a kW past their limits
            (Call::Price(1, 720, 100_000), refused(8, 1, 720, 0)),
            (Call::Price(1, 719, 100_000), refused(10, 1, 0, 0)),
            (Call::Price(1, 719, 99_999), Ok(Reply::Done)),
            (Call::Scheduled(1, 720, 1_000_001), refused(8, 1, 720, 0)),
            (Call::Scheduled(1, 719, 1_000_001), refused(10, 1, 0, 0)),
            (Call::Scheduled(1, 719, 1_000_000), Ok(Reply::Done)),
        ],
    );
}

// A final month takes no post, whatever else is wrong with it.
#[test]
fn a_final_month_comes_before_what_is_posted(rt: HostRuntime) {
    let mut memory = Memory::<MONTH_QUARTERS, MONTH_HOURS, 14>::new();
    let mut book = memory.book();
    run(
        &rt,
        &mut book,
        &[
            (Call::Open(20_000, 30_000), Ok(Reply::Done)),
            (Call::Full, Ok(Reply::Started(1))),
            (Call::Priced(Ask::Bill, 1, By::Dts), Ok(Reply::Written(14))),
            (Call::Priced(Ask::Finalise, 1, By::Dts), Ok(Reply::Done)),
            (Call::Reading(1, 2_880, 2, 1), refused(7, 1, 0, 0)),
            (Call::Day(1, 30, OTHER, 95, None), refused(7, 1, 0, 0)),
            (Call::Price(1, 720, 100_000), refused(7, 1, 0, 0)),
            (Call::Scheduled(1, 720, 1_000_001), refused(7, 1, 0, 0)),
            (
                Call::Priced(Ask::TrueUp, 1, By::Faulty),
                refused(7, 1, 0, 0),
            ),
            (
                Call::Priced(Ask::Finalise, 1, By::Faulty),
                refused(7, 1, 0, 0),
            ),
            (Call::Priced(Ask::Bill, 1, By::Faulty), refused(12, 1, 0, 0)),
            (Call::Priced(Ask::Due, 1, By::Faulty), refused(15, 1, 9, 77)),
            (Call::Total(1, 0), refused(8, 1, 0, 0)),
        ],
    );
}

#[test]
fn a_bill_wants_readings_and_prices(rt: HostRuntime) -> Result<(), Fail> {
    let mut memory = Memory::<MONTH_QUARTERS, MONTH_HOURS, 13>::new();
    let mut book = memory.book();
    run(
        &rt,
        &mut book,
        &[
            (Call::Open(20_000, 30_000), Ok(Reply::Done)),
            (Call::Start(30), Ok(Reply::Started(1))),
            // a fault, and too few entries
            (Call::Priced(Ask::Bill, 1, By::Faulty), refused(11, 1, 0, 0)),
            (Call::Fill(1, 2, 10_000, 5_000), Ok(Reply::Done)),
            (Call::Priced(Ask::Bill, 1, By::Dts), refused(11, 1, 192, 0)),
        ],
    );
    for day in 2..30 {
        book.post_day(1, day, CODE.into(), &[USUAL; DAY_QUARTERS])
            .map_err(|_| "a day was refused")?;
    }
    run(
        &rt,
        &mut book,
        &[
            (
                Call::Priced(Ask::Bill, 1, By::Faulty),
                refused(11, 1, 3_048, 0),
            ),
            (Call::Fill(1, 30, 10_000, 5_000), Ok(Reply::Done)),
            (
                Call::Priced(Ask::Bill, 1, By::Faulty),
                refused(15, 1, 9, 77),
            ),
            (
                Call::Priced(Ask::Bill, 1, By::ThreeRiders),
                refused(16, 1, 13, 0),
            ),
            (Call::Priced(Ask::Bill, 1, By::Dts), refused(16, 1, 13, 0)),
            (Call::Entries, Ok(Reply::Entries(0))),
        ],
    );
    Ok(())
}

// Months are billed, and made final, in their order.
#[test]
fn an_earlier_month_comes_first(rt: HostRuntime) {
    let mut memory = Memory::<5952, 1488, 33>::new();
    let mut book = memory.book();
    run(
        &rt,
        &mut book,
        &[
            (Call::Open(20_000, 30_000), Ok(Reply::Done)),
            (Call::Full, Ok(Reply::Started(1))),
            (Call::Full, Ok(Reply::Started(2))),
            // month 2 is open, month 1 is not final, and the schedule has a fault
            (Call::Priced(Ask::Bill, 2, By::Faulty), refused(14, 2, 1, 0)),
            (
                Call::Priced(Ask::TrueUp, 2, By::Faulty),
                refused(13, 2, 0, 0),
            ),
            (
                Call::Priced(Ask::Finalise, 2, By::Faulty),
                refused(13, 2, 0, 0),
            ),
            (Call::Priced(Ask::Due, 2, By::Faulty), refused(13, 2, 0, 0)),
            (Call::Total(2, 15), refused(8, 2, 15, 0)),
            (Call::Total(2, 1), refused(13, 2, 0, 0)),
            (Call::Priced(Ask::Bill, 1, By::Dts), Ok(Reply::Written(14))),
            (Call::Priced(Ask::Bill, 2, By::Dts), Ok(Reply::Written(14))),
            (Call::Priced(Ask::Bill, 2, By::Faulty), refused(12, 2, 0, 0)),
            (
                Call::Priced(Ask::TrueUp, 2, By::Faulty),
                refused(15, 2, 9, 77),
            ),
            (Call::Priced(Ask::Due, 2, By::Faulty), refused(15, 2, 9, 77)),
            (
                Call::Priced(Ask::Finalise, 2, By::Faulty),
                refused(14, 2, 1, 0),
            ),
            // month 2 is due
            (Call::Reading(2, 0, 20_000, 22_000), Ok(Reply::Done)),
            (Call::Priced(Ask::Due, 2, By::Dts), Ok(Reply::IsDue(true))),
            (
                Call::Priced(Ask::Finalise, 2, By::Dts),
                refused(14, 2, 1, 0),
            ),
            (Call::Priced(Ask::Finalise, 1, By::Dts), Ok(Reply::Done)),
            (
                Call::Priced(Ask::Finalise, 2, By::Faulty),
                refused(15, 2, 9, 77),
            ),
            (
                Call::Priced(Ask::Finalise, 2, By::Dts),
                refused(17, 2, 2, 0),
            ),
            (Call::Priced(Ask::TrueUp, 2, By::Dts), Ok(Reply::Written(5))),
            (Call::Priced(Ask::TrueUp, 2, By::Dts), Ok(Reply::Written(0))),
            (Call::Priced(Ask::Due, 2, By::Dts), Ok(Reply::IsDue(false))),
            (Call::Priced(Ask::Finalise, 2, By::Dts), Ok(Reply::Done)),
            (Call::Entries, Ok(Reply::Entries(33))),
        ],
    );
}

// A ledger without room, and months that would be priced otherwise, behind the rows above them.
#[test]
fn the_upper_row_wins_over_room_and_due(rt: HostRuntime) {
    let mut memory = Memory::<8928, 2232, 14>::new();
    let mut book = memory.book();
    run(
        &rt,
        &mut book,
        &[
            (Call::Open(20_000, 30_000), Ok(Reply::Done)),
            (Call::Full, Ok(Reply::Started(1))),
            (Call::Full, Ok(Reply::Started(2))),
            (Call::Start(30), Ok(Reply::Started(3))),
            // month 3 lacks readings, and month 1 is open
            (Call::Priced(Ask::Bill, 3, By::Dts), refused(11, 3, 0, 0)),
            // month 2 is open, and would be priced otherwise than at nothing
            (
                Call::Priced(Ask::Finalise, 2, By::Dts),
                refused(13, 2, 0, 0),
            ),
            (Call::Priced(Ask::Bill, 1, By::Dts), Ok(Reply::Written(14))),
            // no entry is free from here on
            (Call::Priced(Ask::Bill, 1, By::Dts), refused(12, 1, 0, 0)),
            (Call::Priced(Ask::Bill, 3, By::Dts), refused(11, 3, 0, 0)),
            (Call::Priced(Ask::TrueUp, 2, By::Dts), refused(13, 2, 0, 0)),
            (Call::Priced(Ask::TrueUp, 1, By::Gts), refused(16, 1, 0, 0)),
            (
                Call::Priced(Ask::Finalise, 1, By::Gts),
                refused(17, 1, 3, 0),
            ),
            (Call::Priced(Ask::Finalise, 1, By::Dts), Ok(Reply::Done)),
            (Call::Priced(Ask::TrueUp, 1, By::Gts), refused(7, 1, 0, 0)),
            (Call::Priced(Ask::Finalise, 1, By::Gts), refused(7, 1, 0, 0)),
            (Call::Priced(Ask::Bill, 2, By::Dts), refused(16, 2, 0, 0)),
        ],
    );
}

#[test]
fn an_open_earlier_month_wins_over_room(rt: HostRuntime) {
    let mut memory = Memory::<5952, 1488, 0>::new();
    let mut book = memory.book();
    run(
        &rt,
        &mut book,
        &[
            (Call::Open(20_000, 30_000), Ok(Reply::Done)),
            (Call::Full, Ok(Reply::Started(1))),
            (Call::Full, Ok(Reply::Started(2))),
            (Call::Priced(Ask::Bill, 2, By::Dts), refused(14, 2, 1, 0)),
            (Call::Priced(Ask::Bill, 1, By::Dts), refused(16, 1, 0, 0)),
        ],
    );
}
