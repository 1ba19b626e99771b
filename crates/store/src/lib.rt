//! The months on file of one point of delivery: the readings of its quarters of an hour, and the
//! pool prices and scheduled kW of its hours, kept in lent memory; with the highest demand of each
//! month and of those before it. The library takes no memory of its own.

#![tactic(auto)]

mod carried;
mod memory;
mod month;
mod post;
mod rank;
mod report;
mod store;
mod stretch;

pub use carried::{CannotCarry, RATCHET};
pub use memory::{DAY_HOURS, DAY_QUARTERS, Hour, MONTH_HOURS, MONTH_QUARTERS, Quarter};
pub use month::{LEAST_DAYS, MOST_DAYS, MOST_MONTHS, MonthRecord, MonthRecords, State};
pub use post::{Post, PostError, Reading};
pub use report::{Missing, MonthHours, MonthsOnFile};
pub use store::Store;
