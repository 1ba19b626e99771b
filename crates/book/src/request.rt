// The calls of a book as values, and what they answer.
use crate::point::PointCode;
use store::{Post, Reading};
use tariff::Refusal;

/// A call of the book; the schedule of those that price is given beside it.
#[derive(Clone, Copy, PartialEq, Eq, Debug)]
pub enum Request<'d> {
    /// [`crate::Book::open`]: contract and substation total in kW, the carried peaks in kW, the
    /// latest first.
    Open {
        code: PointCode,
        contract: u32,
        substation: u32,
        carried: &'d [u32],
    },
    /// [`crate::Book::start`].
    Start {
        days: u32,
    },
    /// [`crate::Book::post`]: to a quarter or an hour, from 0.
    Post {
        month: u32,
        place: u32,
        post: Post,
    },
    /// [`crate::Book::post_day`]: to a day, from 0.
    PostDay {
        month: u32,
        day: u32,
        code: PointCode,
        readings: &'d [Reading],
    },
    /// [`crate::Book::bill`].
    Bill {
        month: u32,
    },
    /// [`crate::Book::true_up`].
    TrueUp {
        month: u32,
    },
    /// [`crate::Book::finalise`].
    Finalise {
        month: u32,
    },
    /// [`crate::Book::due`].
    Due {
        month: u32,
    },
    /// [`crate::Book::total`]: of a line by its number on the bill, from 1.
    Total {
        month: u32,
        line: u32,
    },
}

/// What a call of the book answered.
#[derive(Clone, Copy, PartialEq, Eq, Debug)]
pub enum Answer {
    /// Nothing yet: no call was made.
    Begun,
    /// Opened, posted or made final.
    Done,
    /// The number of the month started, from 1.
    Started(u32),
    /// How many entries were written.
    Written(usize),
    /// Whether the month is due.
    IsDue(bool),
    /// What a line's entries add up to, in cents.
    Sum(i64),
    /// Why the call was refused; the book is as it was.
    Refused(Refusal),
}
