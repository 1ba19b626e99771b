// The sheets of the tests.
use rates::dts::{DTS_2007, DtsDraft, DtsSheet, GTS_2007};
use riders::energy::{EnergyDraft, EnergySheet};
use tariff::{Draft, Refusal, Sealed};

fn sealed<D: Draft>(draft: D) -> Result<Sealed<D>, Refusal> {
    Ok(draft.seal()?)
}

pub(crate) fn dts() -> Result<DtsSheet, Refusal> {
    sealed(DTS_2007)
}

pub(crate) fn gts() -> Result<DtsSheet, Refusal> {
    sealed(GTS_2007)
}

// A sheet whose first line is a cent for each tenth of a kW of billing capacity, and no other
// line anything.
pub(crate) fn capacity() -> Result<DtsSheet, Refusal> {
    let draft = DtsDraft {
        system_demand: 10_000,
        system_energy: 0,
        delivery_demand: 0,
        delivery_fixed: 0,
        operating_reserve: 0,
        voltage_control: 0,
        other_support: 0,
        power_factor: 0,
    };
    sealed(draft)
}

pub(crate) fn energy(number: i64) -> Result<EnergySheet, Refusal> {
    let draft = EnergyDraft {
        number,
        rate: 100_000,
    };
    sealed(draft)
}
