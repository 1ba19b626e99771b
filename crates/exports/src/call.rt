// A call of a book as a record that C can fill.
ghost use Rattle.std.specs.Prelude.{◌≡◌, None, Some, MatchResult};
ghost use Rattle.std.specs.List.{slice_get};
ghost use Rattle.book.specs.Requests.{call_of};
ghost use Rattle.exports.specs.Calls.{call_kinds, described_call, part_of};

use crate::failure::Damaged;
use book::Request;
use store::{Post, Reading};

/// A call of a book. What its kind does not take is not read.
#[repr(C)]
#[derive(Clone, Copy, PartialEq, Eq, Debug)]
pub struct CallRecord {
    /// Which call, in the order of [`book::Request`], a post by what is posted: 0 open, 1 start,
    /// 2 post a reading, 3 a day, 4 a price, 5 a scheduled amount, 6 bill, 7 true up, 8 finalise,
    /// 9 due, 10 total. A record of another kind is damaged.
    pub kind: u32,
    /// The month, from 1.
    pub month: u32,
    /// The quarter, day or hour, from 0; the line of a total, from 1; the days of a new month.
    pub place: u32,
    /// Contract kW, a reading's kW, an hour's price in cents per MWh, or its scheduled kW.
    pub first: u32,
    /// Substation total kW, or a reading's kVA.
    pub second: u32,
    /// Where its carried peaks or readings begin in the list lent beside the records, from 0. Where
    /// they do not lie in that list, the record is damaged.
    pub from: u32,
    /// How many they are.
    pub count: u32,
    /// The code of the point.
    pub code: [u8; 8],
}

#[derive(Clone, Copy, PartialEq, Eq, Debug)]
enum CallKind {
    Open,
    Start,
    PostReading,
    PostDay,
    PostPrice,
    PostScheduled,
    Bill,
    TrueUp,
    Finalise,
    Due,
    Total,
}

// In the order of their numbers, from 0.
const CALL_KINDS: [CallKind; 11] = [
    CallKind::Open,
    CallKind::Start,
    CallKind::PostReading,
    CallKind::PostDay,
    CallKind::PostPrice,
    CallKind::PostScheduled,
    CallKind::Bill,
    CallKind::TrueUp,
    CallKind::Finalise,
    CallKind::Due,
    CallKind::Total,
];

impl TryFrom<u32> for CallKind {
    type Error = Damaged;

    ghost try_from_gives = { λ number result. MatchResult result
        (λ kind. slice_get call_kinds number ≡ Some kind)
        (λ _. slice_get call_kinds number ≡ None) };

    fn try_from(number: u32) -> Result<CallKind, Damaged> {
        CALL_KINDS.get(number as usize).copied().ok_or(Damaged)
    }
}

// The lists that the records of a run refer to.
#[derive(Clone, Copy, Debug)]
pub(crate) struct Lists<'d> {
    pub(crate) carried: &'d [u32],
    pub(crate) readings: &'d [Reading],
}

// So many items of a list from a place on.
fn part<T>(items: &[T], from: u32, count: u32) -> Result<&[T], Damaged>
    ensures { MatchResult result
        (λ part. part_of items.now from count ≡ Some part.now)
        (λ _. part_of items.now from count ≡ None) }
{
    let from = from as usize;
    let to = from + count as usize;
    if items.len() < to {
        return Err(Damaged);
    }
    Ok(&items[from..to])
}

impl CallRecord {
    pub(crate) fn request<'d>(&self, lists: &Lists<'d>) -> Result<Request<'d>, Damaged>
        ensures { MatchResult result
            (λ request.
            described_call lists.now.carried.now lists.now.readings.now self.now
            ≡ Some (call_of request))
            (λ _. described_call lists.now.carried.now lists.now.readings.now self.now ≡ None) }
    {
        let CallRecord {
            kind,
            month,
            place,
            first,
            second,
            from,
            count,
            code,
        } = *self;
        Ok(match CallKind::try_from(kind)? {
            CallKind::Open => Request::Open {
                code: code.into(),
                contract: first,
                substation: second,
                carried: part(lists.carried, from, count)?,
            },
            CallKind::Start => Request::Start { days: place },
            CallKind::PostReading => Request::Post {
                month,
                place,
                post: Post::Reading(Reading {
                    kw: first,
                    kva: second,
                }),
            },
            CallKind::PostDay => Request::PostDay {
                month,
                day: place,
                code: code.into(),
                readings: part(lists.readings, from, count)?,
            },
            CallKind::PostPrice => Request::Post {
                month,
                place,
                post: Post::Price(first),
            },
            CallKind::PostScheduled => Request::Post {
                month,
                place,
                post: Post::Scheduled(first),
            },
            CallKind::Bill => Request::Bill { month },
            CallKind::TrueUp => Request::TrueUp { month },
            CallKind::Finalise => Request::Finalise { month },
            CallKind::Due => Request::Due { month },
            CallKind::Total => Request::Total { month, line: place },
        })
    }
}
