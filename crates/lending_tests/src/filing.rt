// An analyst who files a month.
ghost use Rattle.std.specs.Prelude.{⊤};

use audit::Analyst;
use book::{Answer, Request};
use store::{DAY_HOURS, DAY_QUARTERS, LEAST_DAYS, Post, Reading};

const QUARTERS: u32 = DAY_QUARTERS as u32 * LEAST_DAYS;

const HOURS: u32 = DAY_HOURS as u32 * LEAST_DAYS;

/// How many calls it makes: an opening, a start, and a post for each quarter and each hour.
pub(crate) const CALLS: u32 = 2 + QUARTERS + HOURS;

/// Opens a book for a contract of 1,000 kW, starts a month of 28 days, and posts 1,000 kW to each of its
/// quarters and 50 dollars a MWh to each of its hours.
#[derive(Drop)]
pub(crate) struct Filing {
    /// How many calls were made.
    pub(crate) made: u32,
}

impl<'d> Analyst<'d> for Filing {
    ghost chooses = { λ _ _ _ _. ⊤ };

    fn next(&mut self, _last: &Answer) -> Option<Request<'d>> {
        let made = self.made;
        if made >= CALLS {
            return None;
        }
        self.made = made + 1;
        Some(match made {
            0 => Request::Open {
                code: (*b"POINT001").into(),
                contract: 1_000,
                substation: 1_000,
                carried: &[],
            },
            1 => Request::Start { days: LEAST_DAYS },
            _ if made < 2 + QUARTERS => Request::Post {
                month: 1,
                place: made - 2,
                post: Post::Reading(Reading {
                    kw: 1_000,
                    kva: 1_000,
                }),
            },
            _ => Request::Post {
                month: 1,
                place: made - 2 - QUARTERS,
                post: Post::Price(5_000),
            },
        })
    }
}
