//! The energy rider: so much for each MWh.

mod charge;
mod sheet;

pub use sheet::{EnergyDraft, EnergySheet};
