//! The highest of a list of items, for any type of item that has an order; and orders made of
//! orders.

#![tactic(auto)]

ghost use Rattle.std.specs.Prelude.{◌≡◌, ◌↔◌, ℕ, ◌<◌, ◌≤◌, Bool, true, false, [], length, IfNone, IfSome, IsNone, slice_index_or};
ghost use Rattle.std.specs.Cmp.{IsStrictWeakOrder};
ghost use Rattle.std.specs.List.{IsFirstBest};
ghost use Rattle.ranking.specs.Orders.{NoneAbove, then_outranks};
ghost use Rattle.std.proofs.Common.{rules};

/// An order on items of type `T`. It stands on a selector type, so that one type of item can have
/// several orders.
pub trait Order<T> {
    // whether the first item stands above the second
    ghost outranks: { T → T → Bool };

    /// Whether the first item stands above the second.
    fn above(x: &T, y: &T) -> bool
        ensures { result ≡ outranks x.now y.now };

    // two items are never each above the other, and items that none is above stay so along a chain
    ghost orders: { IsStrictWeakOrder outranks };
}

// The place of the first item from a place on that stands above another.
fn first_above<T, K: Order<T>>(items: &[T], from: usize, other: &T) -> Option<usize>
    ensures none { IfNone result
        (NoneAbove K.outranks items.now from (length items.now) other.now) }
    ensures later { IfSome result (λ place. from ≤ place) }
    ensures there { IfSome result (λ place. place < length items.now) }
    ensures before { IfSome result (λ place. NoneAbove K.outranks items.now from place other.now) }
    ensures above { IfSome result (λ place.
        (d : T) → K.outranks (slice_index_or items.now place d) other.now ≡ true) }
{
    for i in from..items.len() {
        if K::above(&items[i], other) {
            return Some(i);
        }
    }
    None
}

/// The place of the highest item of a list, from 0, the first among equals; `None` where the list
/// is empty.
pub fn highest<T, K: Order<T>>(items: &[T]) -> Option<usize>
    ensures empty { IsNone result ↔ (items.now ≡ []) }
    ensures best { IfSome result (IsFirstBest K.outranks items.now (length items.now)) }
{
    if items.is_empty() {
        return None;
    }
    let mut best = 0;
    // each search is for one item, so that what ranks it is read once
    while let Some(next) = first_above::<T, K>(items, best + 1, &items[best]) {
        best = next;
    }
    Some(best)
}

/// The order by `First`, and among its equals by `Second`.
pub struct Then<First, Second>(First, Second);

impl<T, First: Order<T>, Second: Order<T>> Order<T> for Then<First, Second> {
    ghost outranks = { then_outranks First.Order.outranks Second.Order.outranks };

    ghost orders = { Prim.search rules };

    fn above(x: &T, y: &T) -> bool {
        First::above(x, y) || !First::above(y, x) && Second::above(x, y)
    }
}
