// What a call answered, as a record that C can read.
ghost use Rattle.std.specs.Prelude.{◌≡◌};
ghost use Rattle.exports.specs.Answers.{count_record, damaged_record, failure_record, plain_record, record_of};
ghost use Rattle.exports.specs.declared.failure.Failure.TheVariants.{NoMemory as HasNoMemory};

use book::Answer;
use tariff::Numbers;

/// What a call answered. What an answer does not have is 0.
#[repr(C)]
#[derive(Clone, Copy, PartialEq, Eq, Debug)]
pub struct AnswerRecord {
    /// 0 nothing yet, 1 done, 2 a month started, 3 entries written, 4 whether a month is due, 5 a
    /// sum, 6 refused, 7 a damaged description, 8 no memory.
    pub kind: u32,
    /// Of a refusal: which, from 1 to 19.
    pub number: u32,
    /// Of a refusal: the month that the call named, from 1.
    pub month: u32,
    /// Of a refusal: the number of the rider that carried a line past its limit.
    pub rider: u32,
    /// Of a refusal: the place, as [`tariff::Refusal`] has it.
    pub place: u64,
    /// The number of the month started, from 1; how many entries were written; 1 where the month is
    /// due.
    pub count: u64,
    /// The sum, in cents.
    pub cents: i64,
}

// In the order of their numbers, from 0.
#[derive(Clone, Copy, PartialEq, Eq, Debug)]
enum AnswerKind {
    Begun,
    Done,
    Started,
    Written,
    IsDue,
    Sum,
    Refused,
    Damaged,
    NoMemory,
}

impl AnswerRecord {
    // The description is of nothing.
    pub(crate) fn damaged() -> AnswerRecord
        ensures { result ≡ damaged_record }
    {
        AnswerRecord::plain(AnswerKind::Damaged)
    }

    pub(crate) fn no_memory() -> AnswerRecord
        ensures { result ≡ failure_record HasNoMemory }
    {
        AnswerRecord::plain(AnswerKind::NoMemory)
    }

    // An answer of no more than its kind.
    fn plain(kind: AnswerKind) -> AnswerRecord
        ensures { result ≡ plain_record kind }
    {
        AnswerRecord {
            kind: kind as u32,
            number: 0,
            month: 0,
            rider: 0,
            place: 0,
            count: 0,
            cents: 0,
        }
    }

    fn counting(kind: AnswerKind, count: u64) -> AnswerRecord
        ensures { result ≡ count_record kind count }
    {
        AnswerRecord {
            count,
            ..AnswerRecord::plain(kind)
        }
    }
}

impl From<Answer> for AnswerRecord {
    ghost from_gives = { λ answer record'. record' ≡ record_of answer };

    fn from(answer: Answer) -> AnswerRecord {
        match answer {
            Answer::Begun => AnswerRecord::plain(AnswerKind::Begun),
            Answer::Done => AnswerRecord::plain(AnswerKind::Done),
            Answer::Started(month) => AnswerRecord::counting(AnswerKind::Started, month.into()),
            Answer::Written(entries) => AnswerRecord::counting(AnswerKind::Written, entries as u64),
            Answer::IsDue(due) => AnswerRecord::counting(AnswerKind::IsDue, due.into()),
            Answer::Sum(cents) => AnswerRecord {
                cents,
                ..AnswerRecord::plain(AnswerKind::Sum)
            },
            Answer::Refused(refusal) => {
                let Numbers {
                    number,
                    month,
                    place,
                    rider,
                } = refusal.numbers();
                AnswerRecord {
                    number: number.into(),
                    month,
                    place,
                    rider: rider.into(),
                    ..AnswerRecord::plain(AnswerKind::Refused)
                }
            }
        }
    }
}
