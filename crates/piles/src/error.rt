ghost use Rattle.std.specs.Prelude.{◌≡◌};
ghost use Rattle.piles.specs.declared.error.PileError.TheVariants.{Refused};

use std::alloc::AllocError;
use tariff::{Refusal, Unsealed};
use thiserror::Error;

/// Why a schedule chosen at run time does not price.
#[derive(Clone, Copy, PartialEq, Eq, Debug, Error)]
pub enum PileError {
    /// A sheet, or what is to be priced, is refused.
    #[error(transparent)]
    Refused(#[from] Refusal),
    /// There is no memory for a rider.
    #[error(transparent)]
    OutOfMemory(#[from(alloc)] AllocError),
}

impl<D: Drop> From<Unsealed<D>> for PileError {
    ghost from_gives = { λ unsealed error. error ≡ Refused unsealed.refusal };

    fn from(unsealed: Unsealed<D>) -> PileError {
        PileError::Refused(unsealed.refusal)
    }
}
