// Calls as a table, each with what it has to answer.
use crate::faulty::Faulty;
use crate::sheets::{capacity, dts, energy, gts};
use crate::support::{CODE, USUAL, fill, start_full};
use book::Book;
use rates::dts::DtsSheet;
use riders::Rider;
use riders::energy::EnergySheet;
use std::process::Abort;
use store::{Post, Reading};
use tariff::{Numbers, Refusal, Schedule};

// What a month is priced by.
#[derive(Clone, Copy)]
pub(crate) enum By {
    Dts,
    Gts,
    // a cent for each tenth of a kW of billing capacity
    Capacity,
    // DTS under two energy riders at the top rate, numbered 7 and 8
    TwoRiders,
    // and a third, numbered 9
    ThreeRiders,
    // a schedule that has a fault in every month
    Faulty,
}

// A call that prices a month.
#[derive(Clone, Copy)]
pub(crate) enum Ask {
    Bill,
    TrueUp,
    Finalise,
    Due,
}

#[derive(Clone, Copy)]
pub(crate) enum Call {
    // with a contract and a substation total, and a peak of 30,000 kW carried
    Open(u32, u32),
    Start(u32),
    // starts a month of 30 days that has all that a bill of it wants
    Full,
    // posts to each quarter of the first days of a month a kW, and to each hour a price
    Fill(u32, u8, u32, u32),
    // a month, a quarter, its kW and kVA
    Reading(u32, u32, u32, u32),
    // a month, a day, a code, how many readings, and which of them has a kVA below its kW, if any
    Day(u32, u32, [u8; 8], usize, Option<usize>),
    Price(u32, u32, u32),
    Scheduled(u32, u32, u32),
    Priced(Ask, u32, By),
    Total(u32, u32),
    Entries,
}

// What a call answered that was not refused.
#[derive(Clone, Copy, PartialEq, Eq, Debug)]
pub(crate) enum Reply {
    // opened, posted or made final
    Done,
    // the number of the month started
    Started(u32),
    // how many entries were written
    Written(usize),
    IsDue(bool),
    // cents
    Sum(i64),
    // how many entries the ledger has
    Entries(usize),
}

fn post_day(
    book: &mut Book<'_, '_, '_>,
    month: u32,
    day: u32,
    code: [u8; 8],
    count: usize,
    spoilt: Option<usize>,
) -> Result<(), Refusal> {
    let mut readings = [USUAL; 97];
    if let Some(at) = spoilt
        && at < readings.len()
    {
        readings[at] = Reading { kw: 2, kva: 1 };
    }
    book.post_day(month, day, code.into(), &readings[..count.min(97)])
}

fn done(_reply: ()) -> Reply {
    Reply::Done
}

fn ask_by<S: Schedule>(
    book: &mut Book<'_, '_, '_>,
    ask: Ask,
    month: u32,
    schedule: &S,
) -> Result<Reply, Refusal> {
    match ask {
        Ask::Bill => book.bill(month, schedule).map(Reply::Written),
        Ask::TrueUp => book.true_up(month, schedule).map(Reply::Written),
        Ask::Finalise => book.finalise(month, schedule).map(done),
        Ask::Due => book.due(month, schedule).map(Reply::IsDue),
    }
}

fn ask_priced(book: &mut Book<'_, '_, '_>, ask: Ask, month: u32, by: By) -> Result<Reply, Refusal> {
    match by {
        By::Dts => ask_by(book, ask, month, &dts()?),
        By::Gts => ask_by(book, ask, month, &gts()?),
        By::Capacity => ask_by(book, ask, month, &capacity()?),
        By::TwoRiders => {
            let two = Rider::over(energy(8)?, Rider::over(energy(7)?, dts()?));
            ask_by(book, ask, month, &two)
        }
        By::ThreeRiders => {
            let two = Rider::over(energy(8)?, Rider::over(energy(7)?, dts()?));
            ask_by(book, ask, month, &Rider::over(energy(9)?, two))
        }
        By::Faulty => ask_by(book, ask, month, &Faulty),
    }
}

fn make(book: &mut Book<'_, '_, '_>, call: Call) -> Result<Reply, Refusal> {
    match call {
        Call::Open(contract, substation) => book
            .open(CODE.into(), contract, substation, &[30_000])
            .map(done),
        Call::Start(days) => book.start(days).map(Reply::Started),
        Call::Full => start_full(book).map(Reply::Started),
        Call::Fill(month, days, kw, price) => {
            fill(book, month, days, Reading { kw, kva: kw }, price).map(done)
        }
        Call::Reading(month, quarter, kw, kva) => book
            .post(month, quarter, Post::Reading(Reading { kw, kva }))
            .map(done),
        Call::Day(month, day, code, count, spoilt) => {
            post_day(book, month, day, code, count, spoilt).map(done)
        }
        Call::Price(month, hour, price) => book.post(month, hour, Post::Price(price)).map(done),
        Call::Scheduled(month, hour, kw) => book.post(month, hour, Post::Scheduled(kw)).map(done),
        Call::Priced(ask, month, by) => ask_priced(book, ask, month, by),
        Call::Total(month, line) => book.total(month, line).map(Reply::Sum),
        Call::Entries => Ok(Reply::Entries(book.ledger().slice.len())),
    }
}

// A refusal by its four numbers.
pub(crate) fn refused(number: u8, month: u32, place: u64, rider: u16) -> Result<Reply, Numbers> {
    Err(Numbers {
        number,
        month,
        place,
        rider,
    })
}

// Makes the calls in their order. Each has to answer so, or be refused by four numbers.
pub(crate) fn run(
    rt: &impl Abort,
    book: &mut Book<'_, '_, '_>,
    calls: &[(Call, Result<Reply, Numbers>)],
) {
    for (i, (call, answer)) in calls.iter().enumerate() {
        let answered = make(book, *call).map_err(|refusal| refusal.numbers());
        // the place in the table says which call it was
        assert_eq!(rt; (i, answered), (i, *answer));
    }
}
