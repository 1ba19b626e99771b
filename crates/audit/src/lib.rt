//! Runs of calls on a book, and what holds of every one of them.

#![tactic(auto)]

mod analyst;
mod auditing;

pub use analyst::Analyst;
pub use auditing::audit;
