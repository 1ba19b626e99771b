// Memory lent to a book that is let go.
ghost use Rattle.std.specs.Prelude.{List, IfOk};
ghost use Rattle.book.specs.Calls.{Call};
ghost use Rattle.rates.specs.Dts.{dts_2007, dts_meaning};
ghost use Rattle.lending_tests.specs.Lending.{HoldBill, LetGo, run_of};

use crate::filing::{CALLS, Filing};
use audit::{Analyst, audit};
use ledger::Entry;
#[cfg(test)]
use ledger::EntryKind;
use rates::dts::DTS_2007;
use store::{Hour, MONTH_HOURS, MONTH_QUARTERS, Quarter};
use tariff::{Draft, LINES, Refusal, Schedule};

/// Lends the slices to a book, lets an analyst make so many calls at the most, bills a month, makes a
/// call that is refused where the bill was taken, and lets the book go; answers how many entries the
/// bill wrote. The contract says what the slices hold then.
pub fn bill_and_let_go<'d, S: Schedule, A: Analyst<'d>>(
    quarters: &mut [Quarter],
    hours: &mut [Hour],
    entries: &mut [Entry],
    schedule: &S,
    analyst: &mut A,
    turns: usize,
    month: u32,
) -> Result<usize, Refusal>
    ensures { LetGo A.chooses (S.meaning schedule.now) turns analyst.old month
        quarters.old hours.old entries.old result analyst.new
        quarters.new hours.new entries.new }
{
    let mut book = audit(quarters, hours, entries, schedule, analyst, turns);
    let count = book.bill(month, schedule)?;
    // no month has 27 days
    let _refused = book.start(27);
    Ok(count)
}

/// Arrays for one month that was billed.
#[derive(Drop)]
pub struct BilledMonth {
    /// Its quarters.
    pub quarters: [Quarter; MONTH_QUARTERS],
    /// Its hours.
    pub hours: [Hour; MONTH_HOURS],
    /// The entries of its bill.
    pub entries: [Entry; LINES],
}

/// Files a month of 28 days in arrays of its own, bills it under rate DTS, and lets the book go; what the
/// arrays hold then.
pub fn billed_month() -> Result<BilledMonth, Refusal>
    ensures { IfOk result (λ month. (calls : List Call)
        × HoldBill (dts_meaning dts_2007) (run_of calls MONTH_QUARTERS MONTH_HOURS LINES) 1 LINES
        month.quarters month.hours month.entries) }
{
    let sheet = DTS_2007.seal()?;
    let mut quarters = [Quarter::NEVER_POSTED; MONTH_QUARTERS];
    let mut hours = [Hour::NEVER_POSTED; MONTH_HOURS];
    let mut entries = [Entry::UNWRITTEN; LINES];
    let mut filing = Filing { made: 0 };
    bill_and_let_go(
        &mut quarters,
        &mut hours,
        &mut entries,
        &sheet,
        &mut filing,
        CALLS as usize,
        1,
    )?;
    Ok(BilledMonth {
        quarters,
        hours,
        entries,
    })
}

// The lines of 28 days at 1,000 kW and 50 dollars a MWh under DTS, at a contract and a substation of 1,000
// kW and without an earlier peak. Worked out by hand from the rate.
#[cfg(test)]
const LINES_BILLED: [i64; LINES] = [
    161_500, 94_752, 65_800, 2_274_500, 125_664, 66_528, 6_800, 0, 0, 0, 0, 0, 0, 0,
];

#[test]
fn the_entries_of_the_bill_stand_in_the_array(rt: HostRuntime) -> Result<(), Refusal> {
    let BilledMonth { entries, .. } = billed_month()?;
    for (i, cents) in LINES_BILLED.iter().enumerate() {
        assert_eq!(rt;
            entries[i],
            Entry {
                month: 1,
                kind: EntryKind::Bill,
                line: i as u8 + 1,
                cents: *cents,
            }
        );
    }
    Ok(())
}
