// Calls that are written by numbers alone.
ghost use Rattle.std.specs.Prelude.{◌≡◌};
ghost use Rattle.journal.specs.Numbers.{call_of_numbers};

use crate::call::Call;
use crate::verb::Verb;
use store::{Post, Reading};

// What is made of just these numbers; none where there are more or fewer.
macro_rules! exactly {
    ($numbers:ident, $just:pat => $made:expr) => {
        match *$numbers {
            $just => Some($made),
            _ => None,
        }
    };
}

// The call of a verb and all its numbers; none where the verb does not take just so many.
pub(crate) fn call_of_numbers(verb: Verb, numbers: &[u32]) -> Option<Call<'static>>
    ensures { result ≡ call_of_numbers verb numbers.now }
{
    match verb {
        Verb::Memory => exactly!(numbers, [months, entries] => Call::Memory { months, entries }),
        Verb::Start => exactly!(numbers, [days] => Call::Start { days }),
        Verb::Reading => exactly!(numbers, [month, place, kw, kva] => {
            let post = Post::Reading(Reading { kw, kva });
            Call::Post { month, place, post }
        }),
        Verb::Price => exactly!(numbers, [month, place, cents] => {
            let post = Post::Price(cents);
            Call::Post { month, place, post }
        }),
        Verb::Schedule => exactly!(numbers, [month, place, kw] => {
            let post = Post::Scheduled(kw);
            Call::Post { month, place, post }
        }),
        Verb::Readings => exactly!(numbers, [month, first, last, kw, kva] => {
            let post = Post::Reading(Reading { kw, kva });
            Call::PostRange { month, first, last, post }
        }),
        Verb::Prices => exactly!(numbers, [month, first, last, cents] => {
            let post = Post::Price(cents);
            Call::PostRange { month, first, last, post }
        }),
        Verb::Schedules => exactly!(numbers, [month, first, last, kw] => {
            let post = Post::Scheduled(kw);
            Call::PostRange { month, first, last, post }
        }),
        Verb::Bill => exactly!(numbers, [month] => Call::Bill { month }),
        Verb::TrueUp => exactly!(numbers, [month] => Call::TrueUp { month }),
        Verb::Finalise => exactly!(numbers, [month] => Call::Finalise { month }),
        Verb::Due => exactly!(numbers, [month] => Call::Due { month }),
        Verb::Total => exactly!(numbers, [month, line] => Call::Total { month, line }),
        Verb::Text => exactly!(numbers, [entry] => Call::Text { entry }),
        Verb::Ledger => exactly!(numbers, [] => Call::Ledger),
        Verb::Statement => exactly!(numbers, [month] => Call::Statement { month }),
        _ => None,
    }
}
