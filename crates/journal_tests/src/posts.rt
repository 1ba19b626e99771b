// Lines of the files that are loaded.
use journal::{ParseError, PostKind};
use std::test::Fail;
use store::{Post, Reading};

#[test]
fn a_line_has_a_place_and_its_post(rt: HostRuntime) -> Result<(), Fail> {
    let reading = Reading {
        kw: 25000,
        kva: 30000,
    };
    for (kind, line, wanted) in [
        (
            PostKind::Reading,
            "2879,25000,30000",
            (2879, Post::Reading(reading)),
        ),
        (
            PostKind::Price,
            " 719,99999 # the last hour",
            (719, Post::Price(99999)),
        ),
        (
            PostKind::Scheduled,
            "0,4294967295",
            (0, Post::Scheduled(4294967295)),
        ),
    ] {
        assert_eq!(rt; kind.read(line)?, Some(wanted), "{line}");
    }
    Ok(())
}

#[test]
fn other_lines_are_no_posts(rt: HostRuntime) -> Result<(), Fail> {
    assert!(rt; PostKind::Price.read("# hour,cents")?.is_none());
    for line in ["0", "0,1,2", "0, 1", "0,-1", "0,4294967296", "hour,cents"] {
        assert_eq!(rt;
            PostKind::Price.read(line).err(),
            Some(ParseError::NoPost(PostKind::Price)),
            "{line}"
        );
    }
    for line in ["0,1", "0,1,2,3", "0;1;2"] {
        assert_eq!(rt;
            PostKind::Reading.read(line).err(),
            Some(ParseError::NoPost(PostKind::Reading)),
            "{line}"
        );
    }
    let text = ParseError::NoPost(PostKind::Scheduled).to_string(rt.alloc())?;
    assert_eq!(rt; text.as_str(), "expected: HOUR,KW");
    Ok(())
}
