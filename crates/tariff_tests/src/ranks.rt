// The highest of a run, by several orders on one record.
ghost use Rattle.std.specs.Prelude.{nat_lt};
ghost use Rattle.std.proofs.Common.{rules};

use ranking::{Order, Then, highest};

#[derive(Drop)]
struct Reading {
    kw: u32,
    kva: u32,
}

struct ByKw;

struct ByKva;

impl Order<Reading> for ByKw {
    ghost outranks = { λ x y. nat_lt y.kw x.kw };

    ghost orders = { Prim.search rules };

    fn above(x: &Reading, y: &Reading) -> bool {
        x.kw > y.kw
    }
}

impl Order<Reading> for ByKva {
    ghost outranks = { λ x y. nat_lt y.kva x.kva };

    ghost orders = { Prim.search rules };

    fn above(x: &Reading, y: &Reading) -> bool {
        x.kva > y.kva
    }
}

#[test]
fn the_first_of_the_highest(rt: HostRuntime) {
    let run = [
        Reading { kw: 3, kva: 5 },
        Reading { kw: 7, kva: 8 },
        Reading { kw: 7, kva: 9 },
        Reading { kw: 2, kva: 9 },
    ];
    assert_eq!(rt; highest::<Reading, ByKw>(&run), Some(1));
    assert_eq!(rt; highest::<Reading, ByKva>(&run), Some(2));
    assert_eq!(rt; highest::<Reading, Then<ByKw, ByKva>>(&run), Some(2));
    assert_eq!(rt; highest::<Reading, Then<ByKva, ByKw>>(&run), Some(2));
    assert_eq!(rt; highest::<Reading, ByKw>(&[]), None);
}
