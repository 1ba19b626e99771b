// The schedule that the journal's lines choose.
use piles::{Pile, PileError, RateDraft, RateSheet, RiderDraft, RiderSheet};
use rates::dts::DTS_2007;
use std::alloc::Global;
use tariff::Refusal;

/// The pile that prices, and whether it is the first.
#[derive(Drop)]
pub(crate) struct ChosenSchedule {
    pub(crate) pile: Pile,
    // a line chose a part of it
    begun: bool,
    // the book was made, so that a change is one in the middle of its run
    in_use: bool,
    changed: bool,
}

impl ChosenSchedule {
    /// DTS at its published figures until a line says otherwise.
    pub(crate) fn published_dts(alloc: Global) -> Result<ChosenSchedule, Refusal> {
        Ok(ChosenSchedule {
            pile: Pile::new(alloc, RateSheet::try_from(RateDraft::Dts(DTS_2007))?),
            begun: false,
            in_use: false,
            changed: false,
        })
    }

    /// A new pile, of the rate alone.
    pub(crate) fn begin(&mut self, alloc: Global, rate: RateDraft) -> Result<(), PileError> {
        self.pile = Pile::new(alloc, RateSheet::try_from(rate)?);
        self.changed = self.changed || self.begun || self.in_use;
        self.begun = true;
        Ok(())
    }

    /// One rider more, over those that are there.
    pub(crate) fn add_rider(&mut self, rider: RiderDraft) -> Result<(), PileError> {
        self.pile.pile(RiderSheet::try_from(rider)?)?;
        self.changed = self.changed || self.in_use;
        self.begun = true;
        Ok(())
    }

    /// The book is made: from here on it prices.
    pub(crate) fn put_in_use(&mut self) {
        self.in_use = true;
    }

    /// Whether a schedule after the first prices.
    pub(crate) fn has_changed(&self) -> bool {
        self.changed
    }
}
