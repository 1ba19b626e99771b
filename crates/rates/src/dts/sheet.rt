ghost use Rattle.std.specs.Prelude.{◌≡◌, refl};
ghost use Rattle.tariff.specs.Sheets.{no_own, values_of};
ghost use Rattle.tariff.proofs.DraftFigures.{inverse};
ghost use Rattle.rates.specs.Dts.{dts_2007, dts_draft, dts_figures, dts_from_figures, gts_2007};

use tariff::{Draft, Figure, Figures, OwnFigures, Sealed};

/// The figures of a sheet of rate DTS or GTS that is still being filled in, any numbers. Each can
/// be sealed from 0.
#[derive(PartialEq, Eq, Debug, Drop)]
pub struct DtsDraft {
    /// Cents per MW of billing capacity, at most 10,000,000.
    pub system_demand: i64,
    /// Cents per MWh, at most 100,000.
    pub system_energy: i64,
    /// Cents per MW of billing capacity, at most 10,000,000.
    pub delivery_demand: i64,
    /// Cents per month, shared by contract over the substation; at most 10,000,000.
    pub delivery_fixed: i64,
    /// Hundredths of a percent of the pool price, at most 10,000.
    pub operating_reserve: i64,
    /// Cents per MWh, at most 100,000.
    pub voltage_control: i64,
    /// Cents per MW of the month's peak, at most 10,000,000.
    pub other_support: i64,
    /// Cents per MVA of the demand in excess of a power factor of 90%, at most 10,000,000.
    pub power_factor: i64,
}

/// The published figures of rate DTS: AESO tariff, rate DTS, 2007.
pub const DTS_2007: DtsDraft = DtsDraft {
    system_demand: 161_500,
    system_energy: 141,
    delivery_demand: 65_800,
    delivery_fixed: 2_274_500,
    operating_reserve: 374,
    voltage_control: 99,
    other_support: 6_800,
    power_factor: 40_000,
};

/// The published figures of rate GTS: AESO tariff, the grandfathered form of rate DTS, 2007.
pub const GTS_2007: DtsDraft = DtsDraft {
    system_demand: 161_500,
    system_energy: 141,
    delivery_demand: 520_700,
    delivery_fixed: 0,
    operating_reserve: 374,
    voltage_control: 99,
    other_support: 6_800,
    power_factor: 40_000,
};

/// A sealed sheet of rate DTS or GTS.
pub type DtsSheet = Sealed<DtsDraft>;

impl DtsDraft {
    /// The published figures of rate DTS: `DTS_2007`, as a call that promises them.
    pub fn dts_2007() -> DtsDraft
        ensures { result ≡ dts_2007 }
    {
        DTS_2007
    }

    /// The published figures of rate GTS: `GTS_2007`, as a call that promises them.
    pub fn gts_2007() -> DtsDraft
        ensures { result ≡ gts_2007 }
    {
        GTS_2007
    }
}

impl Draft for DtsDraft {
    ghost figures = { dts_figures };

    ghost from_figures = { dts_from_figures };

    ghost own = { no_own };

    ghost inverse = { inverse _ dts_draft
        (λ draft. values_of (dts_figures draft))
        (λ _. refl) (λ _. refl) (λ _. refl) };

    fn figures(&self) -> Figures {
        Figures::new(&[
            Figure::between(0, 10_000_000, self.system_demand),
            Figure::between(0, 100_000, self.system_energy),
            Figure::between(0, 10_000_000, self.delivery_demand),
            Figure::between(0, 10_000_000, self.delivery_fixed),
            Figure::between(0, 10_000, self.operating_reserve),
            Figure::between(0, 100_000, self.voltage_control),
            Figure::between(0, 10_000_000, self.other_support),
            Figure::between(0, 10_000_000, self.power_factor),
        ])
    }

    fn from_figures(values: &[i64]) -> Option<DtsDraft> {
        match *values {
            [
                system_demand,
                system_energy,
                delivery_demand,
                delivery_fixed,
                operating_reserve,
                voltage_control,
                other_support,
                power_factor,
            ] => Some(DtsDraft {
                system_demand,
                system_energy,
                delivery_demand,
                delivery_fixed,
                operating_reserve,
                voltage_control,
                other_support,
                power_factor,
            }),
            _ => None,
        }
    }

    fn own() -> OwnFigures {
        OwnFigures { first: 0, count: 0 }
    }
}
