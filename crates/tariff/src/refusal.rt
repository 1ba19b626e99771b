ghost use Rattle.std.specs.Prelude.{◌≡◌, Some};
ghost use Rattle.tariff.specs.declared.refusal.Refusal.TheVariants.{LinePastLimit};
ghost use Rattle.tariff.specs.Refusals.{fault_text, kind_numbers, numbers_of, refusal_text};

use crate::line::Line;
use std::error::Error;
use std::fmt;

/// A line that a schedule cannot price, since it passes `MOST_CENTS`, and the number of the rider
/// that carried it past that limit, if it was one.
#[derive(Clone, Copy, PartialEq, Eq, Debug)]
pub struct Fault {
    /// The line that passes the limit.
    pub line: Line,
    /// The number of the rider, from 1; `None` where the schedule beneath all riders is at fault.
    pub rider: Option<u16>,
}

/// Why a call was refused. `month` is the month that the call named, from 1; none is 0, as in
/// `Numbers`. `place` is what each refusal says.
#[derive(Clone, Copy, PartialEq, Eq, Debug)]
pub enum Refusal {
    /// The book was not opened yet.
    BookBlank { month: u32 },
    /// The book is open already.
    BookOpen,
    /// An opening figure outside its limit, or too many carried peaks.
    OpeningOutside,
    /// As many months started as the memory holds.
    NoMonthFree,
    /// No month has so many days.
    DaysOutside,
    /// A month that was not started.
    NoSuchMonth { month: u32 },
    /// A month that was made final.
    MonthFinal { month: u32 },
    /// A quarter, day, hour, line or entry that is not there, as given; or more hours than a month
    /// has, and how many.
    NoSuchPlace { month: u32, place: u64 },
    /// A day's post for another point.
    OtherPoint { month: u32 },
    /// A value outside its limit; `place` is 0, and for a day's post the first such reading, from
    /// 0, or 96 where there are not 96.
    OutsideLimit { month: u32, place: u64 },
    /// A reading or a price that was not posted; `place` is its quarter, or 3,000 and its hour.
    Missing { month: u32, place: u64 },
    /// A month that was billed already.
    MonthBilled { month: u32 },
    /// A month that was not billed yet.
    MonthOpen { month: u32 },
    /// An earlier month that has to come first; `place` is the lowest such month.
    EarlierMonth { month: u32, place: u64 },
    /// A line that passes the limit of an amount.
    LinePastLimit { month: u32, fault: Fault },
    /// Fewer free entries than are to be written; `place` is how many are free.
    LedgerFull { month: u32, place: u64 },
    /// A month that would be priced otherwise now; `place` is the number of the first line that
    /// would change.
    MonthDue { month: u32, place: u64 },
    /// A figure of a sheet outside its limits; `place` is its place on the sheet, from 1.
    FigureOutside { place: u64 },
    /// Memory too small for the text of an entry.
    TooFewBytes,
}

/// The four numbers by which a refusal is known outside the program, each 0 where there is none.
#[derive(Clone, Copy, PartialEq, Eq, Debug)]
pub struct Numbers {
    /// Which kind of refusal, from 1 to 19.
    pub number: u8,
    /// The month that the call named.
    pub month: u32,
    /// The place, or for a line that passes the limit of an amount the number of that line.
    pub place: u64,
    /// The number of the rider.
    pub rider: u16,
}

impl Numbers {
    // Those of a kind of refusal that has no month, place or rider.
    fn of_kind(number: u8) -> Numbers
        ensures { result ≡ kind_numbers number }
    {
        Numbers {
            number,
            month: 0,
            place: 0,
            rider: 0,
        }
    }
}

impl Refusal {
    /// One refusal of each kind, in the order of their numbers; every month and place in it is 0.
    pub const KINDS: [Refusal; 19] = [
        Refusal::BookBlank { month: 0 },
        Refusal::BookOpen,
        Refusal::OpeningOutside,
        Refusal::NoMonthFree,
        Refusal::DaysOutside,
        Refusal::NoSuchMonth { month: 0 },
        Refusal::MonthFinal { month: 0 },
        Refusal::NoSuchPlace { month: 0, place: 0 },
        Refusal::OtherPoint { month: 0 },
        Refusal::OutsideLimit { month: 0, place: 0 },
        Refusal::Missing { month: 0, place: 0 },
        Refusal::MonthBilled { month: 0 },
        Refusal::MonthOpen { month: 0 },
        Refusal::EarlierMonth { month: 0, place: 0 },
        Refusal::LinePastLimit {
            month: 0,
            fault: Fault {
                line: Line::SystemDemand,
                rider: None,
            },
        },
        Refusal::LedgerFull { month: 0, place: 0 },
        Refusal::MonthDue { month: 0, place: 0 },
        Refusal::FigureOutside { place: 0 },
        Refusal::TooFewBytes,
    ];

    /// The numbers by which the refusal is known.
    pub fn numbers(&self) -> Numbers
        ensures { result ≡ numbers_of self.now }
    {
        match *self {
            Refusal::BookBlank { month } => Numbers {
                month,
                ..Numbers::of_kind(1)
            },
            Refusal::BookOpen => Numbers::of_kind(2),
            Refusal::OpeningOutside => Numbers::of_kind(3),
            Refusal::NoMonthFree => Numbers::of_kind(4),
            Refusal::DaysOutside => Numbers::of_kind(5),
            Refusal::NoSuchMonth { month } => Numbers {
                month,
                ..Numbers::of_kind(6)
            },
            Refusal::MonthFinal { month } => Numbers {
                month,
                ..Numbers::of_kind(7)
            },
            Refusal::NoSuchPlace { month, place } => Numbers {
                month,
                place,
                ..Numbers::of_kind(8)
            },
            Refusal::OtherPoint { month } => Numbers {
                month,
                ..Numbers::of_kind(9)
            },
            Refusal::OutsideLimit { month, place } => Numbers {
                month,
                place,
                ..Numbers::of_kind(10)
            },
            Refusal::Missing { month, place } => Numbers {
                month,
                place,
                ..Numbers::of_kind(11)
            },
            Refusal::MonthBilled { month } => Numbers {
                month,
                ..Numbers::of_kind(12)
            },
            Refusal::MonthOpen { month } => Numbers {
                month,
                ..Numbers::of_kind(13)
            },
            Refusal::EarlierMonth { month, place } => Numbers {
                month,
                place,
                ..Numbers::of_kind(14)
            },
            Refusal::LinePastLimit {
                month,
                fault: Fault { line, rider },
            } => Numbers {
                month,
                place: line.number().into(),
                rider: rider.unwrap_or(0),
                ..Numbers::of_kind(15)
            },
            Refusal::LedgerFull { month, place } => Numbers {
                month,
                place,
                ..Numbers::of_kind(16)
            },
            Refusal::MonthDue { month, place } => Numbers {
                month,
                place,
                ..Numbers::of_kind(17)
            },
            Refusal::FigureOutside { place } => Numbers {
                place,
                ..Numbers::of_kind(18)
            },
            Refusal::TooFewBytes => Numbers::of_kind(19),
        }
    }
}

impl fmt::Display for Fault {
    ghost output = { λ fault. Some (fault_text fault) };

    fn fmt<W: fmt::Write>(&self, f: &mut fmt::Formatter<W>) -> fmt::Result {
        write!(f, "{} passes the limit of an amount", self.line)
    }
}

impl Error for Fault {}

impl fmt::Display for Refusal {
    ghost output = { λ refusal. Some (refusal_text refusal) };

    fn fmt<W: fmt::Write>(&self, f: &mut fmt::Formatter<W>) -> fmt::Result {
        let Numbers {
            number,
            month,
            place,
            rider,
        } = self.numbers();
        write!(f, "refused {number} {month} {place} {rider}")
    }
}

impl Error for Refusal {}

impl From<Fault> for Refusal {
    ghost from_gives = { λ fault refusal. refusal ≡ LinePastLimit 0 fault };

    fn from(fault: Fault) -> Refusal {
        Refusal::LinePastLimit { month: 0, fault }
    }
}
