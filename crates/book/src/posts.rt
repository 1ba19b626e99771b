// What is posted to a month. The last post for a place stands.
ghost use Rattle.std.specs.Prelude.{◌≡◌};
ghost use Rattle.tariff.specs.Pricing.{Meaning};
ghost use Rattle.book.specs.Posts.{post_refusal};

use crate::book::Book;
use crate::parts::lend_store;
use crate::point::PointCode;
use store::{Post, PostError, Reading, Store};
use tariff::Refusal;

// The refusal of a post that the store does not take.
fn post_refusal(month: u32, place: u32, error: PostError) -> Refusal
    ensures { result ≡ post_refusal month place error }
{
    match error {
        PostError::NoSuchPlace => Refusal::NoSuchPlace {
            month,
            place: place.into(),
        },
        PostError::OutsideLimit { place } => Refusal::OutsideLimit {
            month,
            place: place as u64,
        },
    }
}

impl Book<'_, '_, '_> {
    ghost use Rattle.book.specs.Books.{Performs};
    ghost use Rattle.book.specs.Calls.{posts, posts_day};
    ghost use Rattle.book.specs.PointCodes.{code_bytes};

    /// Posts to a quarter or an hour of a month, from 0. Refused where the month is final, where it
    /// has no such quarter or hour, and where what is posted is outside its limit.
    pub fn post(&mut self, month: u32, place: u32, post: Post) -> Result<(), Refusal>
        ensures { (meaning : Meaning)
            → Performs meaning (posts month place post) self.old result self.new }
    {
        let named = self.changeable_month(month)?;
        lend_store!(self, store);
        store
            .post(named.index, place as usize, post)
            .map_err(|error| post_refusal(month, place, error))
    }

    /// Posts the 96 readings of a day, from 0, with the code of the point that they are for; all or
    /// none of them. Refused where the month is final, where it has no such day, where the code is
    /// not that of the book's point, and where a reading is outside its limits.
    pub fn post_day(
        &mut self,
        month: u32,
        day: u32,
        code: PointCode,
        readings: &[Reading],
    ) -> Result<(), Refusal>
        ensures { (meaning : Meaning)
            → Performs meaning (posts_day month day (code_bytes code) readings.now)
            self.old result self.new }
    {
        let named = self.changeable_month(month)?;
        // a day that is not there is refused before the code is: by the store
        if day < u32::from(named.days) && !named.point.has_code(code) {
            return Err(Refusal::OtherPoint { month });
        }
        lend_store!(self, store);
        store
            .post_day(named.index, day as usize, readings)
            .map_err(|error| post_refusal(month, day, error))
    }
}
