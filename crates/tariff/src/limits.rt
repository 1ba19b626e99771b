ghost use Rattle.std.specs.Prelude.{◌<◌, ◌↔◌, length, IsTrue, MatchOption};
ghost use Rattle.tariff.specs.Limits.{WithinUpTo};

/// The most that a demand can be, in kW or kVA.
pub const MOST_DEMAND: u32 = 1_000_000;

/// The most energy of an hour, in kW for fifteen minutes: four quarters at `MOST_DEMAND`.
pub const MOST_ENERGY: u32 = 4_000_000;

/// The most that a pool price can be, in cents per MWh.
pub const MOST_PRICE: u32 = 99_999;

/// The most hours that a month has: those of 31 days.
pub const MOST_HOURS: usize = 744;

/// The most that one line of a bill can come to, in cents, either way.
pub const MOST_CENTS: u64 = 200_000_000_000;

pub(crate) trait WithinLimits {
    ghost within: { Self → Type 0 };

    fn is_within(&self) -> bool
        ensures { IsTrue result ↔ within self.now };
}

// How many items stand before the first one outside its limits; `None` where none is.
pub(crate) fn first_outside<T: WithinLimits>(items: &[T]) -> Option<usize>
    ensures { MatchOption result
        (WithinUpTo T.within items.now (length items.now))
        (λ n. WithinUpTo T.within items.now n × (n < length items.now)) }
{
    items.iter().position(|item| !item.is_within())
}
