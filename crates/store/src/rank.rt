// The demands that quarters and months are ranked by.
ghost use Rattle.std.specs.Prelude.{◌≡◌, ℕ, ◌≤◌, map, nat_lt};
ghost use Rattle.tariff.specs.Limits.{most_demand};
ghost use Rattle.store.specs.Months.{kw_of, kva_of, top};
ghost use Rattle.store.specs.Records.{reading_of};
ghost use Rattle.std.proofs.Common.{rules};

use crate::memory::Quarter;
use crate::month::MonthRecord;
use ranking::{Order, highest};

// A demand by which items of a type are ranked, in kW or kVA.
pub(crate) trait Rank<T> {
    ghost demand: { T → ℕ };

    fn demand(item: &T) -> u32
        ensures read { result ≡ demand item.now }
        ensures within { result ≤ most_demand };
}

pub(crate) struct Kw;

pub(crate) struct Kva;

pub(crate) struct Peak;

impl Rank<Quarter> for Kw {
    ghost demand = { λ quarter. kw_of (reading_of quarter) };

    fn demand(quarter: &Quarter) -> u32 {
        quarter.kw()
    }
}

impl Rank<Quarter> for Kva {
    ghost demand = { λ quarter. kva_of (reading_of quarter) };

    fn demand(quarter: &Quarter) -> u32 {
        quarter.kva()
    }
}

impl Rank<MonthRecord> for Peak {
    ghost demand = { λ month. month.peak };

    fn demand(month: &MonthRecord) -> u32 {
        month.peak
    }
}

// The order by a demand.
struct By<K>(K);

impl<T, K: Rank<T>> Order<T> for By<K> {
    ghost outranks = { λ x y. nat_lt (K.Rank.demand y) (K.Rank.demand x) };

    ghost orders = { Prim.search rules };

    fn above(x: &T, y: &T) -> bool {
        K::demand(x) > K::demand(y)
    }
}

// The highest demand of a list of items, 0 where there is none.
pub(crate) fn highest_of<T, K: Rank<T>>(items: &[T]) -> u32
    ensures counted { result ≡ top (map K.demand items.now) }
    ensures within { result ≤ most_demand }
{
    match highest::<T, By<K>>(items) {
        Some(best) => K::demand(&items[best]),
        None => 0,
    }
}
