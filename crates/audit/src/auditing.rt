// A whole run, and the promise over every run.
ghost use Rattle.book.specs.Books.{StandsIn};
ghost use Rattle.book.specs.Calls.{Call};
ghost use Rattle.book.specs.Table.{IsInOrder, rows};
ghost use Rattle.book.specs.Views.{View};
ghost use Rattle.audit.specs.Audits.{MakesRun};
ghost use Rattle.audit.specs.Laws.{Promise};

use crate::analyst::Analyst;
use book::{Answer, Book, perform};
use ledger::Entry;
use store::{Hour, Quarter};
use tariff::Schedule;

/// Makes a book over lent memory, performs the calls that the analyst chooses, each after it was
/// shown what the last one answered, until it stops or was asked `turns` times, and hands the book
/// back. The contract says which run that was, that all calls are refused by one table, what holds of
/// every run, and where what a book holds stands in its memory.
pub fn audit<'q, 'h, 'e, 'd, S: Schedule, A: Analyst<'d>>(
    quarters: &'q mut [Quarter],
    hours: &'h mut [Hour],
    entries: &'e mut [Entry],
    schedule: &S,
    analyst: &mut A,
    turns: usize,
) -> Book<'q, 'h, 'e>
    ensures made { MakesRun A.chooses (S.meaning schedule.now) turns analyst.old
        quarters.entry hours.entry entries.entry analyst.new result }
    ensures ordered { (call : Call) (v : View) → IsInOrder (rows (S.meaning schedule.now) call v) }
    ensures promise { Promise (S.meaning schedule.now) }
    ensures stands { (book : _) → StandsIn book }
{
    let mut book = Book::new(quarters, hours, entries);
    let mut last = Answer::Begun;
    for _turn in 0..turns {
        let Some(request) = analyst.next(&last) else {
            return book;
        };
        last = perform(&mut book, schedule, request);
    }
    book
}
