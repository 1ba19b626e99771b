// Memory for a book.
ghost use Rattle.std.specs.Prelude.{◌≡◌, IfOk, min};
ghost use Rattle.store.specs.declared.month.TheConstants.{MOST_MONTHS};

use crate::book::Book;
use ledger::Entry;
use std::alloc::{AllocError, Global};
use store::{Hour, MONTH_HOURS, MONTH_QUARTERS, MOST_MONTHS, Quarter};

/// The memory of one book: for the quarters and the hours of its months, and for its entries.
#[derive(Drop)]
pub struct BookMemory {
    quarters: Vec<Quarter>,
    hours: Vec<Hour>,
    entries: Vec<Entry>,
}

impl BookMemory {
    ghost use Rattle.book.specs.Books.{view};
    ghost use Rattle.book.specs.Memories.{entry_room, month_room};
    ghost use Rattle.book.specs.Views.{blank_view};

    /// Memory for so many months, at most `store::MOST_MONTHS`, and so many entries. Refused where
    /// there is no memory.
    pub fn new(alloc: Global, months: u32, entries: usize) -> Result<BookMemory, AllocError>
        ensures months { IfOk result (λ memory. month_room memory ≡ min MOST_MONTHS months) }
        ensures entries { IfOk result (λ memory. entry_room memory ≡ entries) }
    {
        let months = MOST_MONTHS.min(months as usize);
        Ok(BookMemory {
            quarters: vec![in alloc; Quarter::NEVER_POSTED; MONTH_QUARTERS * months]?,
            hours: vec![in alloc; Hour::NEVER_POSTED; MONTH_HOURS * months]?,
            entries: vec![in alloc; Entry::UNWRITTEN; entries]?,
        })
    }

    /// A blank book over it.
    pub fn book(&mut self) -> Book<'_, '_, '_>
        ensures { view result ≡ blank_view (month_room self.old) (entry_room self.old) }
    {
        Book::new(
            self.quarters.as_mut_slice(),
            self.hours.as_mut_slice(),
            self.entries.as_mut_slice(),
        )
    }
}
