// Who chooses the calls of a run.
ghost use Rattle.audit.specs.Audits.{Chooses, next_call};

use book::{Answer, Request};

/// An analyst is shown what the last call answered, refusals too, and chooses the next call or
/// stops. What a request lends outlives the analyst, so that the analyst can be asked again while
/// the request is performed.
pub trait Analyst<'d> {
    // which call it chooses, by what it knows and the last answer, and what it knows then
    ghost chooses: { Chooses Self };

    /// The next call, or `None` where the run ends; `last` is [`Answer::Begun`] before the first.
    fn next(&mut self, last: &Answer) -> Option<Request<'d>>
        ensures { chooses self.old last.now (next_call result) self.new };
}
