// Why a caller in C gets no more than a record of it.
ghost use Rattle.std.specs.Prelude.{◌≡◌};
ghost use Rattle.exports.specs.Answers.{failure_record};
ghost use Rattle.exports.specs.declared.failure.Failure.TheVariants as failure;

use crate::answer::AnswerRecord;
use book::Answer;
use std::alloc::AllocError;
use tariff::{Refusal, Unsealed};
use thiserror::Error;

// A description that is of no call, rate or rider.
#[derive(Clone, Copy, PartialEq, Eq, Debug, Error)]
#[error("the description is of no call, rate or rider")]
pub(crate) struct Damaged;

#[derive(Clone, Copy, PartialEq, Eq, Debug, Error)]
pub(crate) enum Failure {
    #[error("the description is of no call, rate or rider")]
    Damaged,
    #[error(transparent)]
    Refused(Refusal),
    #[error("there is no memory for it")]
    NoMemory,
}

impl From<Damaged> for Failure {
    ghost from_gives = { λ _ made. made ≡ failure.Damaged };

    fn from(_: Damaged) -> Failure {
        Failure::Damaged
    }
}

impl From<Refusal> for Failure {
    ghost from_gives = { λ refusal made. made ≡ failure.Refused refusal };

    fn from(refusal: Refusal) -> Failure {
        Failure::Refused(refusal)
    }
}

impl<D: Drop> From<Unsealed<D>> for Failure {
    ghost from_gives = { λ unsealed made. made ≡ failure.Refused unsealed.refusal };

    fn from(unsealed: Unsealed<D>) -> Failure {
        Failure::Refused(unsealed.refusal)
    }
}

impl From<AllocError> for Failure {
    ghost from_gives = { λ _ made. made ≡ failure.NoMemory };

    fn from(_: AllocError) -> Failure {
        Failure::NoMemory
    }
}

impl From<Failure> for AnswerRecord {
    ghost from_gives = { λ failure record'. record' ≡ failure_record failure };

    fn from(failure: Failure) -> AnswerRecord {
        match failure {
            Failure::Damaged => AnswerRecord::damaged(),
            Failure::Refused(refusal) => Answer::Refused(refusal).into(),
            Failure::NoMemory => AnswerRecord::no_memory(),
        }
    }
}
