// Opening a book for its point, and starting its months.
ghost use Rattle.std.specs.Prelude.{◌≡◌};
ghost use Rattle.tariff.specs.Pricing.{Meaning};

use crate::book::Book;
use crate::parts::lend_store;
use crate::point::{Point, PointCode};
use store::Store;
use tariff::{Capacities, Refusal};

impl Book<'_, '_, '_> {
    ghost use Rattle.book.specs.Books.{Performs};
    ghost use Rattle.book.specs.Calls.{opens, starts};
    ghost use Rattle.book.specs.PointCodes.{code_bytes};

    /// Opens a blank book for a point: its code, its contract and its substation total in kW, with
    /// 1 ≤ contract ≤ substation ≤ 1,000,000, and the peaks in kW of the months before month 1, the
    /// latest first, 24 at the most. Refused where it is open already, or a value is outside its
    /// limit.
    pub fn open(
        &mut self,
        code: PointCode,
        contract: u32,
        substation: u32,
        carried: &[u32],
    ) -> Result<(), Refusal>
        ensures { (meaning : Meaning)
            → Performs meaning (opens (code_bytes code) contract substation carried.now)
            self.old result self.new }
    {
        if self.point.is_some() {
            return Err(Refusal::BookOpen);
        }
        let capacities = Capacities::new(contract, substation).ok_or(Refusal::OpeningOutside)?;
        lend_store!(self, store);
        store.carry(carried)?;
        self.point = Some(Point { code, capacities });
        Ok(())
    }

    /// Starts the next month, of 28 to 31 days; answers its number, from 1. Refused where the
    /// memory holds no further month, and for other days.
    pub fn start(&mut self, days: u32) -> Result<u32, Refusal>
        ensures { (meaning : Meaning) → Performs meaning (starts days) self.old result self.new }
    {
        self.open_point(0)?;
        lend_store!(self, store);
        store.start(days)
    }
}
