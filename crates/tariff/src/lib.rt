//! The pricing of a month of transmission service: what is billed for, the lines of a bill,
//! exact money and its one rounding, sheets of figures, and what a schedule is that prices. Free of
//! the heap: it allocates nothing.

#![tactic(auto)]

mod amounts;
mod charges;
mod facts;
mod figure;
mod figures;
mod hours;
mod limits;
mod line;
mod money;
mod rate;
mod refusal;
mod schedule;
mod sheet;
mod totals;

pub use amounts::{Amounts, Lines};
pub use charges::Charges;
pub use facts::{Capacities, Facts, PlainFacts};
pub use figure::Figure;
pub use figures::{Figures, MOST_FIGURES, OwnFigures};
pub use hours::{HourList, HourRow, Hours};
pub use limits::{MOST_CENTS, MOST_DEMAND, MOST_ENERGY, MOST_HOURS, MOST_PRICE};
pub use line::{LINES, Line};
pub use money::Fraction;
pub use rate::Rate;
pub use refusal::{Fault, Numbers, Refusal};
pub use schedule::{Schedule, price};
pub use sheet::{Draft, Sealed, Unsealed};
pub use totals::{Energy, EnergyValue, Measure};
