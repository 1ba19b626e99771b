// Peaks carried from before month 1.
ghost use Rattle.std.specs.Prelude.{◌≡◌, true, map, length};
ghost use Rattle.tariff.specs.declared.refusal.Refusal.TheVariants.{OpeningOutside};
ghost use Rattle.store.specs.Months.{earlier_peaks, can_carry};

use crate::month::MonthRecord;
use tariff::{MOST_DEMAND, Refusal};
use thiserror::Error;

/// How many months the ratchet looks back.
pub const RATCHET: usize = 24;

/// More peaks than the ratchet looks back, or one above 1,000,000 kW.
#[derive(Clone, Copy, PartialEq, Eq, Debug, Error)]
#[error("more than 24 peaks are carried, or one is outside its limit")]
pub struct CannotCarry;

impl From<CannotCarry> for Refusal {
    ghost from_gives = { λ _ refusal. refusal ≡ OpeningOutside };

    fn from(_: CannotCarry) -> Refusal {
        Refusal::OpeningOutside
    }
}

// Whether there are no more peaks than the ratchet looks back, each within its limit.
pub(crate) fn can_carry(carried: &[u32]) -> bool
    ensures { result ≡ can_carry carried.now }
{
    carried.len() <= RATCHET && carried.iter().all(|peak| *peak <= MOST_DEMAND)
}

// The peaks, the latest first, over the records of the months before month 1, the oldest first;
// 0 where none was carried.
pub(crate) fn write(records: &mut [MonthRecord], carried: &[u32])
    requires can_carry { can_carry carried.now ≡ true }
    requires counted { length records.old ≡ RATCHET }
    ensures { map (λ month. month.peak) records.new ≡ earlier_peaks carried.now }
{
    for i in 0..RATCHET {
        records[i].peak = carried.get(RATCHET - 1 - i).copied().unwrap_or(0);
    }
}
