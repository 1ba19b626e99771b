// Journals, what the desk answers, and what stops it.
use crate::desk::Surroundings;
use crate::running::run;
use std::test::Fail;

// What a journal answers, and what stopped it; nothing if it came to its end.
fn answers(rt: &HostRuntime, journal: &str) -> Result<(String, String), Fail> {
    let mut out = Vec::new(rt.alloc());
    let ended = run(Surroundings { rt, folder: "" }, journal, &mut out);
    let stopped = match ended {
        Ok(()) => String::new(rt.alloc()),
        Err(error) => format!(in rt.alloc(); "{error:#}")?,
    };
    Ok((String::from_utf8(out)?, stopped))
}

#[test]
fn a_refusal_is_answered_and_the_desk_goes_on(rt: HostRuntime) -> Result<(), Fail> {
    let (answered, stopped) = answers(
        &rt,
        "memory 1 14\nrider energy 0 7 # no number\nledger\ntext 0\nopen ALTA0001 20000 30000\n\
         open ALTA0001 20000 30000\nstart 27\nstart 28\nstart 28\nreading 1 0 2 1\n\
         readings 1 2686 2690 1 1\nprices 1 5 4 1\nbill 1\ndue 1\nstatement 2\nledger\n",
    )?;
    assert_eq!(rt;
        answered.as_str(),
        "ok\nrefused 18 0 1 0\nrefused 1 0 0 0\nrefused 1 0 0 0\nok\n\
         refused 2 0 0 0\nrefused 5 0 0 0\nok 1\nrefused 4 0 0 0\nrefused 10 1 0 0\n\
         refused 8 1 2688 0\nok 0\nrefused 11 1 0 0\nrefused 13 1 0 0\nrefused 6 2 0 0\n"
    );
    assert_eq!(rt; stopped.as_str(), "");
    Ok(())
}

#[test]
fn a_month_is_billed_and_its_entries_printed(rt: HostRuntime) -> Result<(), Fail> {
    let (answered, _) = answers(
        &rt,
        "rate sts 0 1000\nopen ALTA0001 1 1\nstart 28\nreadings 1 0 2687 0 0\n\
         prices 1 0 671 0\nbill 1\ntotal 1 12\ndue 1\ntext 11\nledger\nfinalise 1\n",
    )?;
    assert_eq!(rt;
        answered.as_str(),
        "ok\nok\nok 1\nok 2688\nok 672\nok 14\nok 25900\nok no\n1 B 12 25900\n\
         1 B 1 0\n1 B 2 0\n1 B 3 0\n1 B 4 0\n1 B 5 0\n1 B 6 0\n1 B 7 0\n1 B 8 0\n1 B 9 0\n\
         1 B 10 0\n1 B 11 0\n1 B 12 25900\n1 B 13 0\n1 B 14 0\nok\n"
    );
    Ok(())
}

#[test]
fn a_line_that_is_no_call_stops_the_run(rt: HostRuntime) -> Result<(), Fail> {
    for (line, wanted) in [
        ("start", "journal line 2: expected: start DAYS"),
        ("start 4294967296", "journal line 2: expected: start DAYS"),
        (
            "begin 28",
            "journal line 2: expected: a call; desk --help has them all",
        ),
        (
            "memory 1 1",
            "journal line 2: expected: a call of the book; memory stands before the first of them",
        ),
        (
            "day 1 0 ALTA01",
            "journal line 2: expected: day MONTH DAY CODE KW/KVA .., with a code of 8 bytes",
        ),
    ] {
        let journal = format!(in rt.alloc(); "open ALTA0001 1 1\n{line}\nstart 28\n")?;
        let (answered, stopped) = answers(&rt, &journal)?;
        // what stood before it was performed, and nothing after it
        assert_eq!(rt; answered.as_str(), "ok\n");
        assert_eq!(rt; stopped.as_str(), wanted);
    }
    Ok(())
}
