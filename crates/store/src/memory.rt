// The lent memory of a store: its quarters and its hours. Their limits are in their types, so that
// whatever stands in the memory can be priced.
ghost use Rattle.std.specs.Prelude.{◌≡◌, ◌≤◌, Some, None, true};
ghost use Rattle.tariff.specs.Limits.{most_demand};

use crate::month::MOST_DAYS;
use crate::post::Reading;
use tariff::MOST_PRICE;

/// The quarters of a day.
pub const DAY_QUARTERS: usize = 96;

/// The hours of a day.
pub const DAY_HOURS: usize = 24;

/// The quarters for which the lent memory has room in each month: those of 31 days.
pub const MONTH_QUARTERS: usize = DAY_QUARTERS * MOST_DAYS as usize;

/// The hours for which the lent memory has room in each month: those of 31 days.
pub const MONTH_HOURS: usize = DAY_HOURS * MOST_DAYS as usize;

/// A quarter of an hour in lent memory, in 8 bytes: its reading, a kW no higher than its kVA, which
/// is 1,000,000 at the most; or the mark that none was posted, a kVA below the kW.
#[derive(Clone, Copy, PartialEq, Eq, Debug)]
pub struct Quarter {
    pub(crate) kw: u32,
    pub(crate) kva: u32,
    ghost within: { kw ≤ kva → kva ≤ most_demand },
}

/// An hour in lent memory, in 8 bytes: its pool price in cents per MWh, or the mark that none was
/// posted, a price above 99,999; and its scheduled kW, 1,000,000 at the most and 0 at first.
#[derive(Clone, Copy, PartialEq, Eq, Debug)]
pub struct Hour {
    pub(crate) price: u32,
    pub(crate) scheduled: u32,
    ghost within: { scheduled ≤ most_demand },
}

impl Quarter {
    ghost use Rattle.store.specs.Months.{kw_of, kva_of};
    ghost use Rattle.store.specs.Posts.{reading_within};
    ghost use Rattle.store.specs.Records.{reading_of};

    /// A quarter that has no reading, to fill memory with before it is lent.
    pub const NEVER_POSTED: Quarter = Quarter { kw: 1, kva: 0 };

    /// [`Quarter::NEVER_POSTED`].
    pub fn never_posted() -> Quarter
        ensures none { reading_of result ≡ None }
        ensures kw { result.kw ≡ 1 }
        ensures kva { result.kva ≡ 0 }
    {
        Quarter::NEVER_POSTED
    }

    // With a reading that was found within its limits.
    pub(crate) fn holding(reading: Reading) -> Quarter
        requires { reading_within reading ≡ true }
        ensures { reading_of result ≡ Some reading }
    {
        Quarter {
            kw: reading.kw,
            kva: reading.kva,
        }
    }

    pub(crate) fn reading(&self) -> Option<Reading>
        ensures { result ≡ reading_of self.now }
    {
        (self.kw <= self.kva).then_some(Reading {
            kw: self.kw,
            kva: self.kva,
        })
    }

    // A quarter never posted counts as 0.
    pub(crate) fn kw(&self) -> u32
        ensures counted { result ≡ kw_of (reading_of self.now) }
        ensures within { result ≤ most_demand }
    {
        self.reading().map_or(0, |reading| reading.kw)
    }

    pub(crate) fn kva(&self) -> u32
        ensures counted { result ≡ kva_of (reading_of self.now) }
        ensures within { result ≤ most_demand }
    {
        self.reading().map_or(0, |reading| reading.kva)
    }
}

impl Hour {
    ghost use Rattle.store.specs.Months.{new_hour};
    ghost use Rattle.store.specs.Records.{hour_of};

    /// An hour that has no price and nothing scheduled, to fill memory with before it is lent.
    pub const NEVER_POSTED: Hour = Hour {
        price: MOST_PRICE + 1,
        scheduled: 0,
    };

    /// [`Hour::NEVER_POSTED`].
    pub fn never_posted() -> Hour
        ensures none { hour_of result ≡ new_hour }
        ensures price { result.price ≡ 100000 }
    {
        Hour::NEVER_POSTED
    }

    pub(crate) fn price(&self) -> Option<u32>
        ensures { result ≡ (hour_of self.now).price }
    {
        (self.price <= MOST_PRICE).then_some(self.price)
    }
}
