//! The ledger of one point, in lent memory: its entries, what they add up to, how they are printed,
//! and what a bill and a true-up of a month write.

#![tactic(auto)]

mod entries;
mod entry;
mod ledger;

pub use entries::{Entries, LineColumns, NoText};
pub use entry::{Entry, EntryKind, MOST_BYTES};
pub use ledger::{Ledger, NoRoom};
