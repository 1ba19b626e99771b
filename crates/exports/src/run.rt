// A run of calls on a book for a caller in C.
ghost use Rattle.std.specs.Prelude.{◌≡◌, length, map, IfErr, IfOk, OnErr};
ghost use Rattle.book.specs.Books.{view};
ghost use Rattle.exports.specs.Calls.{described_call};
ghost use Rattle.exports.specs.Runs.{AnswersRun, FailsToRun, MakesCalls, answer_to, answers_to, view_after_call, view_after_calls};

use crate::answer::AnswerRecord;
use crate::call::{CallRecord, Lists};
use crate::entry::{EntryRecord, write_entries};
use crate::failure::{Damaged, Failure};
use crate::pile::pile;
use crate::sheets::{RateRecord, RiderRecord};
use book::{Answer, Book, BookMemory, perform};
use std::alloc::Global;
use store::Reading;
use tariff::Schedule;

// Performs the call of a record; one that describes none alters nothing.
fn run_record<S: Schedule>(
    book: &mut Book<'_, '_, '_>,
    schedule: &S,
    call: &CallRecord,
    lists: &Lists<'_>,
) -> AnswerRecord
    ensures answers { result ≡ answer_to
        (S.meaning schedule.now)
        (described_call lists.now.carried.now lists.now.readings.now call.now)
        (view book.old) }
    ensures leaves { view book.new ≡ view_after_call
        (S.meaning schedule.now)
        (described_call lists.now.carried.now lists.now.readings.now call.now)
        (view book.old) }
{
    match call.request(lists) {
        Ok(request) => perform(book, schedule, request).into(),
        Err(Damaged) => AnswerRecord::damaged(),
    }
}

// The calls in their order, and what each answers.
fn run_records<S: Schedule>(
    book: &mut Book<'_, '_, '_>,
    schedule: &S,
    calls: &[CallRecord],
    lists: &Lists<'_>,
    answers: &mut [AnswerRecord],
)
    requires { length answers.old ≡ length calls.now }
    ensures answers { answers.new ≡ answers_to
        (S.meaning schedule.now)
        (map (described_call lists.now.carried.now lists.now.readings.now) calls.now)
        (view book.old) }
    ensures leaves { view book.new ≡ view_after_calls
        (S.meaning schedule.now)
        (map (described_call lists.now.carried.now lists.now.readings.now) calls.now)
        (view book.old) }
{
    for (i, call) in calls.iter().enumerate() {
        answers[i] = run_record(book, schedule, call, lists);
    }
}

// The run of the records; how many entries its ledger has.
fn run_calls(
    alloc: Global,
    rate: &RateRecord,
    riders: &[RiderRecord],
    months: u32,
    lists: &Lists<'_>,
    calls: &[CallRecord],
    answers: &mut [AnswerRecord],
    entries: &mut [EntryRecord],
) -> Result<usize, Failure>
    ensures makes { IfOk result (MakesCalls
        rate.now riders.now months lists.now.carried.now lists.now.readings.now calls.now
        entries.old answers.new entries.new) }
    ensures fails { IfErr result (FailsToRun rate.now riders.now calls.now answers.old) }
    ensures answers { OnErr result (answers.new ≡ answers.old) }
    ensures entries { OnErr result (entries.new ≡ entries.old) }
{
    if answers.len() != calls.len() {
        return Err(Failure::Damaged);
    }
    let pile = pile(alloc, rate, riders)?;
    let mut memory = BookMemory::new(alloc, months, entries.len())?;
    let mut book = memory.book();
    run_records(&mut book, &pile, calls, lists, answers);
    let ledger = book.ledger().slice;
    let fit = entries.len().min(ledger.len());
    write_entries(entries, &ledger[..fit]);
    Ok(ledger.len())
}

/// Makes calls on a new book with memory for so many months, at most `store::MOST_MONTHS`, and for
/// as many entries as there are records. Carried peaks and days' readings are parts of the two
/// lists: kW, and kW and kVA. What each call answers is written, and the entries of the ledger
/// over the first records; the answer is how many entries the ledger has. Where there is not an
/// answer for each call, a rate or rider is damaged or refused, or there is no memory, that is the
/// answer, and nothing is written.
#[unsafe(no_mangle)]
pub extern "C" fn mohzetna_run(
    alloc: Global,
    rate: &RateRecord,
    riders: &[RiderRecord],
    months: u32,
    carried: &[u32],
    readings: &[Reading],
    calls: &[CallRecord],
    answers: &mut [AnswerRecord],
    entries: &mut [EntryRecord],
) -> AnswerRecord
    ensures { AnswersRun
        rate.now riders.now months carried.now readings.now calls.now
        answers.old entries.old result answers.new entries.new }
{
    let lists = Lists { carried, readings };
    match run_calls(alloc, rate, riders, months, &lists, calls, answers, entries) {
        Ok(count) => Answer::Written(count).into(),
        Err(failure) => failure.into(),
    }
}
