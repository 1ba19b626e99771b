// A call that is given as a value.
ghost use Rattle.std.specs.Prelude.{◌≡◌};
ghost use Rattle.book.specs.Requests.{PerformsAs, call_of};
ghost use Rattle.book.specs.declared.request.Answer.TheVariants.{Done};

use crate::book::Book;
use crate::request::{Answer, Request};
use tariff::Schedule;

// The answer of a call that replies nothing.
fn done(_reply: ()) -> Answer
    ensures { result ≡ Done }
{
    Answer::Done
}

/// Makes the requested call, under the schedule where it prices, and gives its answer.
pub fn perform<S: Schedule>(
    book: &mut Book<'_, '_, '_>,
    schedule: &S,
    request: Request<'_>,
) -> Answer
    ensures { PerformsAs (S.meaning schedule.now) (call_of request.entry) book.old result book.new }
{
    match request {
        Request::Open {
            code,
            contract,
            substation,
            carried,
        } => book
            .open(code, contract, substation, carried)
            .map_or_else(Answer::Refused, done),
        Request::Start { days } => book
            .start(days)
            .map_or_else(Answer::Refused, Answer::Started),
        Request::Post { month, place, post } => book
            .post(month, place, post)
            .map_or_else(Answer::Refused, done),
        Request::PostDay {
            month,
            day,
            code,
            readings,
        } => book
            .post_day(month, day, code, readings)
            .map_or_else(Answer::Refused, done),
        Request::Bill { month } => book
            .bill(month, schedule)
            .map_or_else(Answer::Refused, Answer::Written),
        Request::TrueUp { month } => book
            .true_up(month, schedule)
            .map_or_else(Answer::Refused, Answer::Written),
        Request::Finalise { month } => book
            .finalise(month, schedule)
            .map_or_else(Answer::Refused, done),
        Request::Due { month } => book
            .due(month, schedule)
            .map_or_else(Answer::Refused, Answer::IsDue),
        Request::Total { month, line } => book
            .total(month, line)
            .map_or_else(Answer::Refused, Answer::Sum),
    }
}
