// A month on file beside the lent memory.
ghost use Rattle.std.specs.Prelude.{◌≡◌, ◌≤◌, length};
ghost use Rattle.tariff.specs.Limits.{most_demand};
ghost use Rattle.store.specs.declared.month.TheConstants.{LEAST_DAYS, MOST_DAYS, MOST_MONTHS, RECORDS};

use crate::carried::RATCHET;

/// How many months a store holds at the most.
pub const MOST_MONTHS: usize = 48;

// The records of the months that the ratchet looks back before month 1, and of the store's own.
pub(crate) const RECORDS: usize = RATCHET + MOST_MONTHS;

/// The days of the shortest month.
pub const LEAST_DAYS: u32 = 28;

/// The days of the longest month.
pub const MOST_DAYS: u32 = 31;

/// How far a month has come: it is open, then billed, then final, and never goes back.
#[derive(Clone, Copy, PartialEq, Eq, PartialOrd, Ord, Debug)]
pub enum State {
    /// Posts are taken, and nothing is billed.
    Open,
    /// It was billed; posts are taken still, and what they alter is trued up.
    Billed,
    /// Nothing more is posted.
    Final,
}

impl State {
    ghost use Rattle.store.specs.Months.{has_reached};

    /// Whether this state is the given one, or a later one.
    pub fn has_reached(self, state: State) -> bool
        ensures { result ≡ has_reached state self }
    {
        self >= state
    }
}

/// What is kept of a month beside the lent memory.
#[derive(Clone, Copy, PartialEq, Eq, Debug)]
pub struct MonthRecord {
    /// How many days it has, 28 to 31.
    pub days: u8,
    /// How far it has come.
    pub state: State,
    /// The highest kW of its readings, 1,000,000 at the most; 0 where there is none.
    pub peak: u32,
    ghost length: { (LEAST_DAYS ≤ days) × (days ≤ MOST_DAYS) },
    ghost within: { peak ≤ most_demand },
}

impl MonthRecord {
    // The record that stands where no month is started.
    pub(crate) const UNSTARTED: MonthRecord = MonthRecord {
        days: LEAST_DAYS as u8,
        state: State::Open,
        peak: 0,
    };
}

/// What is kept of the months of a store beside the lent memory: a record of each that is started,
/// and the peaks of the 24 months before month 1.
#[derive(Clone, Copy)]
pub struct MonthRecords {
    // those of the 24 months before month 1, the oldest first, and then of the store's own
    pub(crate) records: [MonthRecord; RECORDS],
    pub(crate) started: usize,
    ghost recorded: { length records ≡ RECORDS },
    ghost few: { started ≤ MOST_MONTHS },
}

impl MonthRecords {
    ghost use Rattle.store.specs.Constants.{Constants};
    ghost use Rattle.store.specs.Stores.{HasNone};

    /// Those of a store in which no month is started yet, with peaks of 0 kW for the 24 months
    /// before month 1.
    pub fn none() -> MonthRecords
        ensures none { HasNone result }
        ensures constants { Constants }
    {
        MonthRecords {
            records: [MonthRecord::UNSTARTED; RECORDS],
            started: 0,
        }
    }
}
