//! Riders: schedules that stand over a schedule and add to one of its lines. `energy` and `percent`
//! have riders that add to the line of riders, `credit` the Primary Service Credit, and `Rider`
//! puts any of them over any schedule.

#![tactic(auto)]

pub mod credit;
pub mod energy;
pub mod percent;
mod rider;

pub use rider::{Adjustment, Rider};
