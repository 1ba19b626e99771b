// What is no call is refused, and the error says what was expected.
use journal::{ParseError, Verb, read};
use std::test::Fail;

const WRONG: [(&str, Verb); 28] = [
    ("memory 48", Verb::Memory),
    ("memory 48 2000 1", Verb::Memory),
    ("rate", Verb::Rate),
    ("rate abc", Verb::Rate),
    ("rate dts 1 2 3 4 5 6 7", Verb::Rate),
    ("rate xts 1 2 3 4 5", Verb::Rate),
    ("rate dos", Verb::Rate),
    ("rate sts 1", Verb::Rate),
    ("rate sts 1 9223372036854775808", Verb::Rate),
    ("rider energy 1", Verb::Rider),
    ("rider psc", Verb::Rider),
    ("rider levy 1 2", Verb::Rider),
    ("open PLANT001 20000", Verb::Open),
    ("open PLANT001 20000 30000 -1", Verb::Open),
    ("start", Verb::Start),
    ("reading 1 0 10000", Verb::Reading),
    ("reading 1 0 10000 4294967296", Verb::Reading),
    ("readings 1 0 2879 10000", Verb::Readings),
    ("day 1 0", Verb::Day),
    ("day 1 0 PLANT001 10000", Verb::Day),
    ("day 1 0 PLANT001 10000/", Verb::Day),
    ("day 1 0 PLANT001 10000/1/2", Verb::Day),
    ("load notes 1 january.csv", Verb::Load),
    ("load prices 1 january.csv twice", Verb::Load),
    ("bill one", Verb::Bill),
    ("bill -1", Verb::Bill),
    ("total 1", Verb::Total),
    ("ledger 1", Verb::Ledger),
];

#[test]
fn other_words_are_refused(rt: HostRuntime) {
    for (line, verb) in WRONG {
        assert_eq!(rt;
            read(rt.alloc(), line).err(),
            Some(ParseError::Expected(verb)),
            "{line}"
        );
    }
}

#[test]
fn an_unknown_word_is_no_call(rt: HostRuntime) {
    for line in ["bills 1", "Bill 1", "1 bill", "bil"] {
        assert_eq!(rt;
            read(rt.alloc(), line).err(),
            Some(ParseError::NoCall),
            "{line}"
        );
    }
}

#[test]
fn an_error_says_what_was_expected(rt: HostRuntime) -> Result<(), Fail> {
    let reading = ParseError::Expected(Verb::Reading).to_string(rt.alloc())?;
    assert_eq!(rt; reading.as_str(), "expected: reading MONTH QUARTER KW KVA");
    let none = ParseError::NoCall.to_string(rt.alloc())?;
    assert_eq!(rt; none.as_str(), "no call begins so");
    Ok(())
}
