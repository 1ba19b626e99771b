// The parts of a book that write, each over what the book is lent, for the rest of a call. They are
// macros and no functions, so that each slice is lent by itself in the body of the call, where it is
// known afterwards what stands behind it.

// The store of a book's months, under a name.
macro_rules! lend_store {
    ($book:ident, $store:ident) => {
        let quarters = &mut *$book.quarters;
        let hours = &mut *$book.hours;
        let months = &mut $book.months;
        let mut $store = Store {
            quarters,
            hours,
            months,
        };
    };
}

// The ledger of its entries, under a name.
macro_rules! lend_ledger {
    ($book:ident, $ledger:ident) => {
        let memory = &mut *$book.entries;
        let written = &mut $book.written;
        let mut $ledger = Ledger { memory, written };
    };
}

pub(crate) use lend_ledger;
pub(crate) use lend_store;
