// Each form of a line is read, and the call that it writes down is written as that line.
use journal::{Call, PostKind, read};
use piles::{RateDraft, RiderDraft};
use rates::dts::GTS_2007;
use std::alloc::Global;
use std::test::Fail;
use store::{Post, Reading};

fn call(alloc: Global, line: &str) -> Result<Call<'_>, Fail> {
    Ok(read(alloc, line)?.ok_or("a line without a call")?)
}

// As its words stand on the line, one space between.
const LINES: [&str; 33] = [
    "memory 48 2000",
    "rate dts",
    "rate gts",
    "rate dts 1 2 3 4 5 6 7 8",
    "rate gts -1 0 0 0 0 0 0 9223372036854775807",
    "rate xts 377 374 99 10",
    "rate dos 10000 -500 528 50000",
    "rate sts -300 40000 25900",
    "rider energy 11 -250",
    "rider percent 12 374",
    "rider psc 7 217500 75200 44100 42500 386700",
    "open PLANT001 20000 30000",
    "open PLANT001 20000 30000 30000 0 4294967295",
    "start 30",
    "reading 1 2879 25000 30000",
    "readings 1 0 2879 10000 10000",
    "day 1 0 PLANT001",
    "day 1 29 PLANT001 10000/10000 25000/30000",
    "price 1 719 99999",
    "prices 1 0 719 5000",
    "schedule 1 0 1000000",
    "schedules 1 0 719 0",
    "load readings 1 january.csv",
    "load prices 1 january.csv",
    "load schedule 1 january.csv",
    "bill 1",
    "true-up 4294967295",
    "finalise 1",
    "due 0",
    "total 1 14",
    "text 19",
    "ledger",
    "statement 1",
];

#[test]
fn each_form_reads_back(rt: HostRuntime) -> Result<(), Fail> {
    for line in LINES {
        let written = call(rt.alloc(), line)?.write(rt.alloc())?;
        match line {
            // published figures are written out
            "rate dts" => assert_eq!(rt;
                written.as_str(),
                "rate dts 161500 141 65800 2274500 374 99 6800 40000"
            ),
            "rate gts" => assert_eq!(rt;
                written.as_str(),
                "rate gts 161500 141 520700 0 374 99 6800 40000"
            ),
            _ => assert_eq!(rt; written.as_str(), line),
        }
    }
    Ok(())
}

#[test]
fn published_figures_may_be_left_out(rt: HostRuntime) -> Result<(), Fail> {
    for (short, long) in [
        ("rate xts", "rate xts 377 374 99 10"),
        ("rate dos 10000 -500", "rate dos 10000 -500 528 50000"),
        ("rate sts -300 40000", "rate sts -300 40000 25900"),
        ("rider psc 7", "rider psc 7 217500 75200 44100 42500 386700"),
    ] {
        let written = call(rt.alloc(), short)?.write(rt.alloc())?;
        assert_eq!(rt; written.as_str(), long);
    }
    Ok(())
}

#[test]
fn spaces_and_comments_say_nothing(rt: HostRuntime) -> Result<(), Fail> {
    for line in ["", "   ", "# bill 1", "  # day by day"] {
        assert!(rt; read(rt.alloc(), line)?.is_none());
    }
    let written = call(rt.alloc(), "  total   +1  007# the seventh line")?.write(rt.alloc())?;
    assert_eq!(rt; written.as_str(), "total 1 7");
    Ok(())
}

// Each number in its place.
#[test]
fn numbers_stand_in_their_places(rt: HostRuntime) -> Result<(), Fail> {
    let Call::PostRange {
        month,
        first,
        last,
        post: Post::Reading(Reading { kw, kva }),
    } = call(rt.alloc(), "readings 1 2 3 4 5")?
    else {
        return Err("readings were read as another call".into());
    };
    assert_eq!(rt; [month, first, last, kw, kva], [1, 2, 3, 4, 5]);
    let Call::Load { kind, month, file } = call(rt.alloc(), "load prices 6 pool.csv")? else {
        return Err("a load was read as another call".into());
    };
    assert_eq!(rt; kind, PostKind::Price);
    assert_eq!(rt; month, 6);
    assert_eq!(rt; file, "pool.csv");
    Ok(())
}

#[test]
fn figures_stand_in_their_places(rt: HostRuntime) -> Result<(), Fail> {
    let Call::Rate(RateDraft::Gts(draft)) = call(rt.alloc(), "rate gts")? else {
        return Err("rate gts was read as another call".into());
    };
    assert_eq!(rt; draft.delivery_demand, GTS_2007.delivery_demand);
    let Call::Rate(RateDraft::Dos(draft)) = call(rt.alloc(), "rate dos 1 -2 3 4")? else {
        return Err("rate dos was read as another call".into());
    };
    assert_eq!(rt; draft.opportunity_capacity, 1);
    assert_eq!(rt; draft.loss_factor, -2);
    assert_eq!(rt; draft.energy, 3);
    assert_eq!(rt; draft.transaction_fee, 4);
    let Call::Rider(RiderDraft::Percent(draft)) = call(rt.alloc(), "rider percent 5 -6")? else {
        return Err("a percent rider was read as another call".into());
    };
    assert_eq!(rt; draft.number, 5);
    assert_eq!(rt; draft.factor, -6);
    Ok(())
}

#[test]
fn lists_may_be_of_any_length(rt: HostRuntime) -> Result<(), Fail> {
    let Call::Open {
        code,
        contract,
        substation,
        carried,
    } = call(rt.alloc(), "open PLANT001 1 2 3 4")?
    else {
        return Err("an opening was read as another call".into());
    };
    assert_eq!(rt; code, "PLANT001");
    assert_eq!(rt; [contract, substation], [1, 2]);
    assert_eq!(rt; carried.as_slice(), [3, 4].as_slice());
    let Call::PostDay { readings, .. } = call(rt.alloc(), "day 1 2 PLANT001 3/4 5/6")? else {
        return Err("a day was read as another call".into());
    };
    assert_eq!(rt; readings.len(), 2);
    let Reading { kw, kva } = *readings.last().ok_or("a day without a reading")?;
    assert_eq!(rt; [kw, kva], [5, 6]);
    Ok(())
}
