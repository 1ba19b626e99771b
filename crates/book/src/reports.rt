// What a book tells without changing.
ghost use Rattle.std.specs.Prelude.{◌≡◌, length, [], Some, MatchResult};
ghost use Rattle.tariff.specs.Pricing.{Meaning};

use crate::book::Book;
use ledger::Entries;
use store::State;
use tariff::{Facts, LINES, Refusal, Schedule};

/// A month on file, as it stands.
#[derive(Clone, Copy, PartialEq, Eq, Debug)]
pub struct MonthOnFile {
    /// How many days it has, 28 to 31.
    pub days: u8,
    /// Whether it is open, billed or final.
    pub state: State,
    /// What it would be priced from now.
    pub facts: Facts,
}

impl Book<'_, '_, '_> {
    ghost use Rattle.book.specs.Books.{Answers, view};
    ghost use Rattle.book.specs.Calls.{asks, whether_due, line_total};
    ghost use Rattle.book.specs.OnFile.{IsOnFile};
    ghost use Rattle.book.specs.Table.{IsInOrder, first_holding, month_rows};
    ghost use Rattle.book.specs.Texts.{text_answer, text_bytes, text_rows};

    /// How a month stands; refused where the book is blank or has no such month.
    pub fn month(&self, month: u32) -> Result<MonthOnFile, Refusal>
        ensures { MatchResult result (IsOnFile month (view self.now))
            (λ refusal. first_holding (month_rows month (view self.now) []) ≡ Some refusal) }
    {
        let named = self.named_month(month)?;
        Ok(MonthOnFile {
            days: named.days,
            state: named.state,
            facts: self.facts(&named),
        })
    }

    /// Whether pricing the file now would alter any line's sum of a billed month. Refused where the
    /// month is open, and where the schedule cannot price it.
    pub fn due<S: Schedule>(&self, month: u32, schedule: &S) -> Result<bool, Refusal>
        ensures { Answers (S.meaning schedule.now) (asks (whether_due month)) self.now result }
    {
        let named = self.named_month(month)?;
        if !named.state.has_reached(State::Billed) {
            return Err(Refusal::MonthOpen { month });
        }
        let amounts = self.price(&named, schedule)?;
        Ok(
            self.ledger()
                .first_differing(named.number, &amounts)
                .is_some(),
        )
    }

    /// What the entries of a billed month for a line, from 1, add up to in cents. Refused where
    /// there is no such line, and where the month is open.
    pub fn total(&self, month: u32, line: u32) -> Result<i64, Refusal>
        ensures { (meaning : Meaning)
            → Answers meaning (asks (line_total month line)) self.now result }
    {
        let named = self.named_month(month)?;
        if line < 1 || LINES < line as usize {
            return Err(Refusal::NoSuchPlace {
                month,
                place: line as u64,
            });
        }
        if !named.state.has_reached(State::Billed) {
            return Err(Refusal::MonthOpen { month });
        }
        Ok(self.ledger().total(named.number, line as u8))
    }

    /// The ledger: its entries, in the order in which they were written.
    pub fn ledger(&self) -> Entries<'_>
        ensures { result.slice.now ≡ (view self.now).ledger }
    {
        Entries {
            slice: &self.entries[..self.written],
        }
    }

    /// Prints an entry, by its number from 0, as a line at the front of the bytes; answers its
    /// length. Refused where the book is blank, where there is no such entry, and where there are
    /// fewer bytes than `ledger::MOST_BYTES`.
    pub fn text(&self, entry: u32, bytes: &mut [u8]) -> Result<usize, Refusal>
        ensures answer { result ≡ text_answer entry (length bytes.old) (view self.now) }
        ensures bytes { bytes.new ≡ text_bytes entry (view self.now) bytes.old }
        ensures ordered { IsInOrder (text_rows entry (length bytes.old) (view self.now)) }
    {
        self.open_point(0)?;
        Ok(self.ledger().text(entry as usize, bytes)?)
    }
}
