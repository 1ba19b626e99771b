// The point that a book bills.
ghost use Rattle.std.specs.Prelude.{◌≡◌, ◌≢◌, length, MatchResult};

use tariff::Capacities;
use thiserror::Error;

/// How many bytes a point's code has.
pub const CODE_BYTES: usize = 8;

/// The code of a point, as its operator names it: eight bytes.
#[derive(Clone, Copy, PartialEq, Eq, Debug)]
pub struct PointCode {
    bytes: [u8; CODE_BYTES],
}

impl PointCode {
    ghost use Rattle.book.specs.PointCodes.{code_bytes};
    ghost use Rattle.book.specs.declared.point.TheConstants.{CODE_BYTES};

    /// Its bytes, in their order.
    pub fn bytes(self) -> [u8; CODE_BYTES]
        ensures bytes { result ≡ code_bytes self }
        ensures width { CODE_BYTES ≡ 8 }
    {
        self.bytes
    }
}

impl From<[u8; CODE_BYTES]> for PointCode {
    ghost use Rattle.book.specs.PointCodes.{code_bytes};

    ghost from_gives = { λ bytes code. code_bytes code ≡ bytes };

    fn from(bytes: [u8; CODE_BYTES]) -> PointCode {
        PointCode { bytes }
    }
}

/// A text that has not eight bytes.
#[derive(Clone, Copy, PartialEq, Eq, Debug, Error)]
#[error("a point's code has 8 bytes")]
pub struct NotPointCode;

impl TryFrom<&str> for PointCode {
    type Error = NotPointCode;

    ghost use Rattle.book.specs.PointCodes.{code_bytes};
    ghost use Rattle.book.specs.declared.point.TheConstants.{CODE_BYTES};

    ghost try_from_gives = { λ text result. MatchResult result (λ code. code_bytes code ≡ text.now)
        (λ _. length text.now ≢ CODE_BYTES) };

    fn try_from(text: &str) -> Result<PointCode, NotPointCode> {
        <[u8; CODE_BYTES]>::try_from(text.as_bytes())
            .map(PointCode::from)
            .map_err(|_| NotPointCode)
    }
}

// The point that is billed: its code, and what is contracted at it.
#[derive(Clone, Copy)]
pub(crate) struct Point {
    pub(crate) code: PointCode,
    pub(crate) capacities: Capacities,
}

impl Point {
    ghost use Rattle.std.specs.Str.{bytes_eq};
    ghost use Rattle.book.specs.PointCodes.{code_bytes};

    pub(crate) fn has_code(&self, code: PointCode) -> bool
        ensures { result ≡ bytes_eq (code_bytes code) (code_bytes self.now.code) }
    {
        code.bytes == self.code.bytes
    }
}
