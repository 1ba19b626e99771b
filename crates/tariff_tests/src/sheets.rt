// Sealing a sheet: each figure at its limits and just past them.
use crate::support::{limits, refused, refused_at};
use rates::dts::{DTS_2007, DtsDraft, GTS_2007};
use std::test::Fail;
use tariff::Numbers;

const LEAST: [i64; 8] = [0; 8];

const MOST: [i64; 8] = [
    10_000_000, 100_000, 10_000_000, 10_000_000, 10_000, 100_000, 10_000_000, 10_000_000,
];

#[test]
fn each_figure_has_limits(rt: HostRuntime) -> Result<(), Fail> {
    assert_eq!(rt; refused_at(DTS_2007), None);
    assert_eq!(rt; refused_at(GTS_2007), None);
    limits::<DtsDraft, 8>(&rt, LEAST, MOST)
}

const OUTSIDE: DtsDraft = DtsDraft {
    operating_reserve: 10_001,
    power_factor: -1,
    ..DTS_2007
};

#[test]
fn a_refused_draft_comes_back(rt: HostRuntime) -> Result<(), Fail> {
    let unsealed = refused(OUTSIDE)?;
    assert_eq!(rt;
        unsealed.refusal.numbers(),
        Numbers {
            number: 18,
            month: 0,
            place: 5,
            rider: 0
        }
    );
    assert_eq!(rt; unsealed.draft, OUTSIDE);
    Ok(())
}
