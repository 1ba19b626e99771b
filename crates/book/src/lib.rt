//! The book of one point: months in their order, a ledger, and the calls of an analyst, each also as
//! a value. One table says what refuses a call.

#![tactic(auto)]

mod billing;
mod book;
mod calls;
mod memory;
mod opening;
mod parts;
mod point;
mod posts;
mod reports;
mod request;

pub use book::Book;
pub use calls::perform;
pub use memory::BookMemory;
pub use point::{CODE_BYTES, NotPointCode, PointCode};
pub use reports::MonthOnFile;
pub use request::{Answer, Request};
