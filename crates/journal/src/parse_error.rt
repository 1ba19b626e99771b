// Why a line is not read.
ghost use Rattle.std.specs.Prelude.{Some};
ghost use Rattle.journal.specs.ParseErrors.{parse_error_text};

use crate::post_kind::PostKind;
use crate::verb::Verb;
use std::alloc::AllocError;
use std::error::Error;
use std::fmt;

/// Why a line of a journal, or of a file that it loads, is not read.
#[derive(Clone, Copy, PartialEq, Eq, Debug)]
pub enum ParseError {
    /// There is no memory for what the line lists.
    OutOfMemory,
    /// No call begins with the line's first word.
    NoCall,
    /// The words after it are not those of the call.
    Expected(Verb),
    /// The line of a file that is loaded is none of its posts.
    NoPost(PostKind),
}

impl From<AllocError> for ParseError {
    ghost use Rattle.std.specs.Prelude.{◌≡◌};
    ghost use Rattle.journal.specs.declared.parse_error.ParseError.TheVariants.{OutOfMemory};

    ghost from_gives = { λ _ error. error ≡ OutOfMemory };

    fn from(_: AllocError) -> ParseError {
        ParseError::OutOfMemory
    }
}

impl fmt::Display for ParseError {
    ghost output = { λ error. Some (parse_error_text error) };

    fn fmt<W: fmt::Write>(&self, f: &mut fmt::Formatter<W>) -> fmt::Result {
        match self {
            ParseError::OutOfMemory => f.write_str("out of memory"),
            ParseError::NoCall => f.write_str("no call begins so"),
            ParseError::Expected(verb) => {
                let form = verb.form();
                write!(f, "expected: {form}")
            }
            ParseError::NoPost(kind) => {
                let form = kind.form();
                write!(f, "expected: {form}")
            }
        }
    }
}

impl Error for ParseError {}
