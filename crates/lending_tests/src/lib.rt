//! Shows that whoever lends memory to a book knows what it holds once the book is gone, from contracts
//! alone.

#![tactic(auto)]

mod filing;
mod lending;

pub use lending::{BilledMonth, bill_and_let_go, billed_month};
