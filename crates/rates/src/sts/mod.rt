//! Supply Transmission Service.

mod price;
mod sheet;

pub use sheet::{STS_2009_UNIT_CONNECTION, StsDraft, StsSheet};
