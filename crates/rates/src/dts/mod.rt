//! Demand Transmission Service, and its grandfathered form.

mod price;
mod sheet;

pub use sheet::{DTS_2007, DtsDraft, DtsSheet, GTS_2007};
