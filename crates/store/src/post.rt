// What is posted to a month.
ghost use Rattle.std.specs.Prelude.{◌≡◌, ◌≤◌, length, IfNone};
ghost use Rattle.std.specs.List.{prefix_len};
ghost use Rattle.store.specs.Posts.{day_fault, reading_within};

use crate::memory::{DAY_HOURS, DAY_QUARTERS};
use crate::month::MOST_DAYS;
use tariff::{MOST_DEMAND, MOST_PRICE};
use thiserror::Error;

/// What a meter reads in a quarter of an hour; any numbers, for the limits are tested when it is
/// posted.
#[repr(C)]
#[derive(Clone, Copy, PartialEq, Eq, Debug)]
pub struct Reading {
    /// The demand in kW.
    pub kw: u32,
    /// The apparent demand in kVA.
    pub kva: u32,
}

/// What is posted to one quarter or one hour of a month.
#[derive(Clone, Copy, PartialEq, Eq, Debug)]
pub enum Post {
    /// What the meter read in a quarter: a kW no higher than its kVA, 1,000,000 at the most.
    Reading(Reading),
    /// The pool price of an hour in cents per MWh, 99,999 at the most.
    Price(u32),
    /// The scheduled kW of an hour, 1,000,000 at the most.
    Scheduled(u32),
}

/// Why a store refuses a post; the first of them that holds.
#[derive(Clone, Copy, PartialEq, Eq, Debug, Error)]
pub enum PostError {
    /// The month has no such quarter, hour or day.
    #[error("the month has no such place")]
    NoSuchPlace,
    /// A value is outside its limit: the first such one of a day's readings, from 0, or 0 for a
    /// single value; 96 for a day that has not 96 readings.
    #[error("value {place} is outside its limit")]
    OutsideLimit { place: usize },
}

impl Reading {
    pub(crate) fn is_within(&self) -> bool
        ensures { result ≡ reading_within self.now }
    {
        self.kw <= self.kva && self.kva <= MOST_DEMAND
    }
}

impl Post {
    ghost use Rattle.store.specs.Posts.{post_places, post_within};

    // How many places a month of so many days has for it.
    pub(crate) fn places(&self, days: usize) -> usize
        requires { days ≤ MOST_DAYS }
        ensures { result ≡ post_places self.now days }
    {
        match self {
            Post::Reading(_) => DAY_QUARTERS * days,
            Post::Price(_) | Post::Scheduled(_) => DAY_HOURS * days,
        }
    }

    pub(crate) fn is_within(&self) -> bool
        ensures { result ≡ post_within self.now }
    {
        match self {
            Post::Reading(reading) => reading.is_within(),
            Post::Price(price) => *price <= MOST_PRICE,
            Post::Scheduled(kw) => *kw <= MOST_DEMAND,
        }
    }
}

// What is at fault in a day's readings: the first reading outside its limits; 96 where there are
// not 96 of them.
pub(crate) fn day_fault(readings: &[Reading]) -> Option<usize>
    ensures fault { result ≡ day_fault readings.now }
    ensures counted { IfNone result (length readings.now ≡ DAY_QUARTERS) }
    ensures within { IfNone result (prefix_len reading_within readings.now ≡ length readings.now) }
{
    if readings.len() != DAY_QUARTERS {
        return Some(DAY_QUARTERS);
    }
    readings.iter().position(|reading| !reading.is_within())
}
