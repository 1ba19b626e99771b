//! Demand Opportunity Service, 7 Minutes.

mod price;
mod sheet;

pub use price::{TransactionValue, Transactions};
pub use sheet::{DOS_2009_ENERGY, DOS_2009_TRANSACTION_FEE, DosDraft, DosSheet};
