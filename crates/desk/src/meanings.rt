// What each refusal means, in words for people.
use tariff::Refusal;

/// The meaning of the refusals that have a number; none where no refusal has it.
pub(crate) fn meaning_of(number: u8) -> Option<&'static str> {
    let kind = Refusal::KINDS
        .iter()
        .find(|kind| kind.numbers().number == number);
    kind.map(meaning)
}

fn meaning(refusal: &Refusal) -> &'static str {
    match refusal {
        Refusal::BookBlank { .. } => {
            "The book was not opened yet: begin with a line `open CODE C S`."
        }
        Refusal::BookOpen => "The book is open already, and is opened once.",
        Refusal::OpeningOutside => {
            "An opening figure lies outside its limit: the contract is 1 kW to the substation \
             total, which is at most 1,000,000 kW; at most 24 peaks are carried, each at most \
             1,000,000 kW."
        }
        Refusal::NoMonthFree => "No month is free: as many were started as the memory holds.",
        Refusal::DaysOutside => "No month has so many days: a month has 28 to 31.",
        Refusal::NoSuchMonth { .. } => "There is no such month: it is 0 or was not started.",
        Refusal::MonthFinal { .. } => {
            "The month is final: nothing more is posted to it, and it is neither trued up nor \
             made final again."
        }
        Refusal::NoSuchPlace { .. } => {
            "There is no such quarter, hour, day, line or entry. The place is what was given."
        }
        Refusal::OtherPoint { .. } => {
            "The day is of another point: its code is not the one that the book was opened with."
        }
        Refusal::OutsideLimit { .. } => {
            "A value lies outside its limit: kVA is at least kW and at most 1,000,000; a price is \
             at most 99,999 cents; scheduled kW are at most 1,000,000. For a day the place is the \
             first such reading, or 96 where there are not 96."
        }
        Refusal::Missing { .. } => {
            "A reading or a price was not posted. The place is the first such quarter; from 3,000 \
             on it is 3,000 and the first hour without a price."
        }
        Refusal::MonthBilled { .. } => {
            "The month is billed already: what differs since is trued up."
        }
        Refusal::MonthOpen { .. } => "The month is open: it was not billed yet.",
        Refusal::EarlierMonth { .. } => {
            "An earlier month comes first: months are billed, and made final, in their order. The \
             place is that month."
        }
        Refusal::LinePastLimit { .. } => {
            "A line passes 2,000,000,000 dollars either way. The place is the line, and the last \
             number the rider that carried it there."
        }
        Refusal::LedgerFull { .. } => {
            "The ledger is full: fewer entries are free than are to be written. The place is how \
             many are free."
        }
        Refusal::MonthDue { .. } => {
            "The month is due: pricing its file now would alter a line, so true it up first. The \
             place is the lowest such line."
        }
        Refusal::FigureOutside { .. } => {
            "A figure of a rate or a rider lies outside its limit. The place is the first such \
             figure, from 1."
        }
        Refusal::TooFewBytes => "There are fewer than 24 bytes for an entry's text.",
    }
}

#[cfg(test)]
mod tests {
    use super::*;

    #[test]
    fn each_number_of_the_table_has_a_meaning(rt: HostRuntime) {
        for (i, kind) in Refusal::KINDS.iter().enumerate() {
            let number = kind.numbers().number;
            assert_eq!(rt; usize::from(number), i + 1);
            assert_eq!(rt; meaning_of(number), Some(meaning(kind)));
        }
        assert!(rt; meaning_of(0).is_none());
        assert!(rt; meaning_of(Refusal::KINDS.len() as u8 + 1).is_none());
    }
}
