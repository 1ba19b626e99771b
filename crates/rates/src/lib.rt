//! The rates of the Alberta transmission tariff (AESO): for each a draft sheet of its figures, a
//! sealed one, and what it charges for a month. `dts` has rate DTS and its grandfathered form GTS.

#![tactic(auto)]

mod amounts;
pub mod dos;
pub mod dts;
pub mod sts;
pub mod xts;
