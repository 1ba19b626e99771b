// Why a line of a journal is not performed.
use journal::{ParseError, Verb};
use thiserror::Error;

/// A line that is no call of the book, and what was expected.
#[derive(Clone, Copy, PartialEq, Eq, Debug, Error)]
pub(crate) enum LineError {
    #[error("expected: a call; desk --help has them all")]
    NoCall,
    /// The words after a call's first are not its own, or there is no memory for them.
    #[error(transparent)]
    Parse(ParseError),
    /// The book is made at its first call, and its memory with it.
    #[error("expected: a call of the book; memory stands before the first of them")]
    LateMemory,
    /// The code of a point has another length.
    #[error("expected: {}, with a code of 8 bytes", .0.form())]
    Code(Verb),
}

impl From<ParseError> for LineError {
    fn from(error: ParseError) -> LineError {
        match error {
            ParseError::NoCall => LineError::NoCall,
            _ => LineError::Parse(error),
        }
    }
}
