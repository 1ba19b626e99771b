//! The Primary Service Credit, for a plant with transformers of its own.

mod charge;
mod sheet;

pub use sheet::{CreditDraft, CreditSheet, PSC_2009};
