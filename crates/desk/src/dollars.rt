// Amounts as people read them.
use std::fmt;

/// Cents in dollars: `-1234.05`.
#[derive(Clone, Copy, PartialEq, Eq, Debug)]
pub(crate) struct Dollars(pub(crate) i128);

impl fmt::Display for Dollars {
    fn fmt<W: fmt::Write>(&self, f: &mut fmt::Formatter<W>) -> fmt::Result {
        let Dollars(cents) = *self;
        let sign = if cents < 0 { "-" } else { "" };
        let size = cents.unsigned_abs();
        write!(f, "{sign}{}.{:02}", size / 100, size % 100)
    }
}

#[cfg(test)]
mod tests {
    use super::*;
    use std::test::Fail;

    #[test]
    fn cents_have_two_places(rt: HostRuntime) -> Result<(), Fail> {
        for (cents, wanted) in [
            (0, "0.00"),
            (5, "0.05"),
            (-5, "-0.05"),
            (100, "1.00"),
            (-123_405, "-1234.05"),
            (200_000_000_000, "2000000000.00"),
        ] {
            let printed = format!(in rt.alloc(); "{}", Dollars(cents))?;
            assert_eq!(rt; printed.as_str(), wanted);
        }
        Ok(())
    }
}
