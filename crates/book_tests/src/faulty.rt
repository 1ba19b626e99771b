// A schedule that prices no month.
ghost use Rattle.std.specs.Prelude.{Err, Some};
ghost use Rattle.tariff.specs.declared.line.Line.TheVariants.{Interconnection};
ghost use Rattle.std.proofs.Common.{rules};

use tariff::{Amounts, Facts, Fault, Hours, Line, Schedule};

// Its ninth line passes the limit, whatever the month.
pub(crate) struct Faulty;

impl Schedule for Faulty {
    ghost meaning = { λ _ _ _. Err (record { line = Interconnection; rider = Some 77 }) };

    ghost limited = { Prim.search rules };

    fn price(&self, facts: &Facts, hours: &Hours<'_>) -> Result<Amounts, Fault> {
        Err(Fault {
            line: Line::Interconnection,
            rider: Some(77),
        })
    }
}
