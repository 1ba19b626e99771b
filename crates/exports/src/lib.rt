//! The library for a caller in C: the pricing of a month, and a run of calls on a new book. It is
//! called with records that the caller fills, and answers by records.

#![tactic(auto)]

mod answer;
mod call;
mod entry;
mod failure;
mod pile;
mod price;
mod run;
mod sheets;

pub use answer::AnswerRecord;
pub use call::CallRecord;
pub use entry::EntryRecord;
pub use price::{CentsRecord, mohzetna_price};
pub use run::mohzetna_run;
pub use sheets::{RIDER_FIGURES, RateRecord, RiderRecord};
