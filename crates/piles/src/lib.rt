//! Schedules chosen at run time: any rate, under any pile of riders, of kinds that are listed once.

#![tactic(auto)]

mod error;
mod kind;
mod pile;
mod rate;
mod rider;

pub use error::PileError;
pub use kind::SheetKind;
pub use pile::Pile;
pub use rate::{RateDraft, RateKind, RateSheet};
pub use rider::{RiderDraft, RiderKind, RiderSheet};
