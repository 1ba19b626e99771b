//! Export Transmission Service.

mod price;
mod sheet;

pub use price::Scheduled;
pub use sheet::{XTS_2007, XtsDraft, XtsSheet};
