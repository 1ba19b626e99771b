// Months that are made final.
use crate::calls::{Ask, By, Call, Reply, refused, run};
use crate::support::{CODE, LINES_BILLED, Memory, totals};
use book::Book;
use std::test::Fail;
use store::{MONTH_HOURS, MONTH_QUARTERS};
use tariff::Refusal;

// A final month takes no post, whatever is posted, and keeps its sums.
#[test]
fn a_month_is_billed_and_made_final(rt: HostRuntime) -> Result<(), Fail> {
    let mut memory = Memory::<MONTH_QUARTERS, MONTH_HOURS, 14>::new();
    let mut book = memory.book();
    run(
        &rt,
        &mut book,
        &[
            (Call::Open(20_000, 30_000), Ok(Reply::Done)),
            (Call::Full, Ok(Reply::Started(1))),
            (Call::Priced(Ask::Bill, 1, By::Dts), Ok(Reply::Written(14))),
            (Call::Priced(Ask::Finalise, 1, By::Dts), Ok(Reply::Done)),
            (Call::Reading(1, 0, 25_000, 30_000), refused(7, 1, 0, 0)),
            (Call::Day(1, 0, CODE, 96, None), refused(7, 1, 0, 0)),
            (Call::Price(1, 0, 5_000), refused(7, 1, 0, 0)),
            (Call::Scheduled(1, 0, 0), refused(7, 1, 0, 0)),
            (Call::Priced(Ask::Bill, 1, By::Dts), refused(12, 1, 0, 0)),
            (Call::Priced(Ask::TrueUp, 1, By::Dts), refused(7, 1, 0, 0)),
            (Call::Priced(Ask::Finalise, 1, By::Dts), refused(7, 1, 0, 0)),
            (Call::Priced(Ask::Due, 1, By::Dts), Ok(Reply::IsDue(false))),
            (Call::Entries, Ok(Reply::Entries(14))),
        ],
    );
    assert_eq!(rt; totals(&book, 1)?, LINES_BILLED);
    Ok(())
}
