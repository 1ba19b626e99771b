// The book of one point, and what all its calls need: the month that a call names, and its price.
ghost use Rattle.std.specs.Prelude.{◌≡◌, true, false, length, take, MatchResult, Some, None};
ghost use Rattle.ledger.specs.Entries.{IsLedger};
ghost use Rattle.store.specs.Records.{Keeps};
ghost use Rattle.store.specs.Stores.{capacity, filed_in};
ghost use Rattle.book.specs.Unbilled.{IsUnbilled};
ghost use Rattle.tariff.specs.Pricing.{plain_amounts, month_result};
ghost use Rattle.tariff.specs.declared.refusal.Refusal.TheVariants.{BookBlank};

use crate::point::Point;
use ledger::Entry;
use store::{Hour, MonthRecords, MonthsOnFile, Quarter, State};
use tariff::{Amounts, Facts, Fault, Refusal, Schedule};

/// The months on file and the ledger of one point, over lent memory; blank until it is opened. A
/// refused call leaves it, and all of the memory, as it was. Every call but `open` is refused while
/// the book is blank, and each that names a month where no such month was started; `ledger` is never
/// refused. Each slice is lent by itself and stays behind its own reference, so that whoever lent it
/// knows what it holds once the book is gone.
#[derive(Drop)]
pub struct Book<'q, 'h, 'e> {
    pub(crate) point: Option<Point>,
    pub(crate) quarters: &'q mut [Quarter],
    pub(crate) hours: &'h mut [Hour],
    pub(crate) months: MonthRecords,
    pub(crate) entries: &'e mut [Entry],
    // how many of the entries were written
    pub(crate) written: usize,
    ghost filed: { Keeps months quarters.now hours.now },
    ghost ledgered: { IsLedger written entries.now },
    // a month that is not billed has no entry that counts
    ghost unbilled: { IsUnbilled months quarters.now hours.now filed (take written entries.now) },
}

// A month of an opened book: as the caller named it, with its index, and its number as entries have
// it.
#[derive(Clone, Copy)]
pub(crate) struct NamedMonth {
    pub(crate) month: u32,
    pub(crate) point: Point,
    pub(crate) index: usize,
    pub(crate) number: u8,
    pub(crate) days: u8,
    pub(crate) state: State,
}

impl<'q, 'h, 'e> Book<'q, 'h, 'e> {
    ghost use Rattle.book.specs.Books.{IsLent, LeavesMemory, StandsIn, file_of, view};
    ghost use Rattle.book.specs.NamedMonths.{IsChangeable, IsInBook, RefusesChange, RefusesMonth};
    ghost use Rattle.book.specs.Table.{earlier_month};
    ghost use Rattle.book.specs.Views.{blank_view, facts_of, month_outcome};

    /// A blank book over lent memory, for as many months and entries as there is room for, at most
    /// `store::MOST_MONTHS` months. Whatever stands in the memory is never taken for a post. What
    /// any book holds stands in its memory, at the places that `StandsIn` says.
    pub fn new(
        quarters: &'q mut [Quarter],
        hours: &'h mut [Hour],
        entries: &'e mut [Entry],
    ) -> Book<'q, 'h, 'e>
        ensures blank { view result
            ≡ blank_view (capacity (length quarters.old) (length hours.old)) (length entries.old) }
        ensures lent { IsLent quarters.entry hours.entry entries.entry result }
        ensures kept { LeavesMemory quarters.old hours.old entries.old result }
        ensures stands { (book : _) → StandsIn book }
    {
        Book {
            point: None,
            quarters,
            hours,
            months: MonthRecords::none(),
            entries,
            written: 0,
        }
    }

    // The months on file, as they are read.
    pub(crate) fn on_file(&self) -> MonthsOnFile<'_>
        ensures { filed_in result ≡ file_of self.now }
    {
        MonthsOnFile {
            quarters: self.quarters,
            hours: self.hours,
            months: &self.months,
        }
    }

    // The point, which a blank book has not.
    pub(crate) fn open_point(&self, month: u32) -> Result<Point, Refusal>
        ensures { MatchResult result (λ point. self.now.point ≡ Some point)
            (λ refusal. (self.now.point ≡ None) × (refusal ≡ BookBlank month)) }
    {
        self.point.ok_or(Refusal::BookBlank { month })
    }

    // The month by its number, from 1.
    pub(crate) fn named_month(&self, month: u32) -> Result<NamedMonth, Refusal>
        ensures { MatchResult result (IsInBook month (view self.now))
            (RefusesMonth month (view self.now)) }
    {
        let point = self.open_point(month)?;
        if month == 0 {
            return Err(Refusal::NoSuchMonth { month });
        }
        let index = month as usize - 1;
        let Some(record) = self.on_file().record(index) else {
            return Err(Refusal::NoSuchMonth { month });
        };
        Ok(NamedMonth {
            month,
            point,
            index,
            number: month as u8,
            days: record.days,
            state: record.state,
        })
    }

    // A month that is not final, for what may still change one.
    pub(crate) fn changeable_month(&self, month: u32) -> Result<NamedMonth, Refusal>
        ensures { MatchResult result (IsChangeable month (view self.now))
            (RefusesChange month (view self.now)) }
    {
        let named = self.named_month(month)?;
        if named.state.has_reached(State::Final) {
            return Err(Refusal::MonthFinal { month });
        }
        Ok(named)
    }

    // Months are billed, and made final, in their order.
    pub(crate) fn check_earlier(&self, named: &NamedMonth, state: State) -> Result<(), Refusal>
        requires { IsInBook named.now.month (view self.now) named.now }
        ensures { MatchResult result
            (λ _. (earlier_month state named.now.month (view self.now)).holds ≡ false)
            (λ refusal. ((earlier_month state named.now.month (view self.now)).holds ≡ true)
            × (refusal ≡ (earlier_month state named.now.month (view self.now)).refusal)) }
    {
        match self.on_file().first_short(state, named.index) {
            Some(short) => Err(Refusal::EarlierMonth {
                month: named.month,
                place: short as u64 + 1,
            }),
            None => Ok(()),
        }
    }

    // The facts of a month, as the file stands.
    pub(crate) fn facts(&self, named: &NamedMonth) -> Facts
        requires { IsInBook named.now.month (view self.now) named.now }
        ensures { result.plain ≡ facts_of (view self.now) named.now.month }
    {
        self.on_file()
            .facts(named.index, named.point.capacities)
            .unwrap()
    }

    // What the schedule makes of a month, as the file stands. Its fault comes up as it is.
    fn outcome<S: Schedule>(&self, named: &NamedMonth, schedule: &S) -> Result<Amounts, Fault>
        requires { IsInBook named.now.month (view self.now) named.now }
        ensures { plain_amounts result
            ≡ month_outcome (S.meaning schedule.now) (view self.now) named.now.month }
    {
        let facts = self.facts(named);
        let month_hours = self.on_file().hours(named.index);
        let amounts = schedule.price(&facts, &month_hours.hours())?;
        Ok(amounts)
    }

    // The price of a month, as the file stands; to a fault that came up, the call adds the month.
    pub(crate) fn price<S: Schedule>(
        &self,
        named: &NamedMonth,
        schedule: &S,
    ) -> Result<Amounts, Refusal>
        requires { IsInBook named.now.month (view self.now) named.now }
        ensures { plain_amounts result
            ≡ month_result named.now.month
            (month_outcome (S.meaning schedule.now) (view self.now) named.now.month) }
    {
        self.outcome(named, schedule)
            .map_err(|fault| Refusal::LinePastLimit {
                month: named.month,
                fault,
            })
    }
}
