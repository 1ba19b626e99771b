//! The percent rider: so much of all the lines beneath.

mod charge;
mod sheet;

pub use sheet::{PercentDraft, PercentSheet};
