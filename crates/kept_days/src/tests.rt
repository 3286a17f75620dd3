// Days that are kept, and what words name.
use crate::{MOST_DAYS, Since, days_from, days_of, days_to_go, folder_of, is_day, since_what};
use std::alloc::{AllocError, Global};

fn names_of(alloc: Global, names: &[&str]) -> Result<Vec<String>, AllocError> {
    let mut made = Vec::new(alloc);
    for name in names {
        made.push(String::from_str(alloc, name)?)?;
    }
    Ok(made)
}

#[test]
fn says_what_is_a_day(rt: HostRuntime) {
    assert!(rt; is_day("2026-11-24"));
    for name in [
        "",
        "2026-11-2",
        "2026-11-245",
        "2026_11-24",
        "2026-1a-24",
        "base",
    ] {
        assert!(rt; !is_day(name));
    }
}

#[test]
fn the_first_that_is_not_before_answers(rt: HostRuntime) -> Result<(), AllocError> {
    let names = names_of(rt.alloc(), &["2026-11-24", "x", "2026-11-20", "2025-12-31"])?;
    let days = days_of(rt.alloc(), &names)?;
    assert_eq!(rt;
        days.as_slice(),
        ["2025-12-31", "2026-11-20", "2026-11-24"].as_slice()
    );
    assert_eq!(rt; days_from(&days, "2026-11-20").len(), 2);
    assert_eq!(rt; days_from(&days, "2026-11-21"), ["2026-11-24"].as_slice());
    assert_eq!(rt; days_from(&days, "2026-11-25").len(), 0);
    assert_eq!(rt; days_to_go(&days).len(), 0);
    Ok(())
}

#[test]
fn the_newest_stay(rt: HostRuntime) -> Result<(), AllocError> {
    let mut days = Vec::new(rt.alloc());
    for _ in 0..MOST_DAYS {
        days.push("2026-11-24")?;
    }
    assert_eq!(rt; days_to_go(&days).len(), 0);
    days.push("2026-11-25")?;
    assert_eq!(rt; days_to_go(&days), ["2026-11-24"].as_slice());
    Ok(())
}

#[test]
fn says_what_words_name(rt: HostRuntime) {
    assert_eq!(rt; since_what("2026-11-24", true), Since::Day);
    assert_eq!(rt; since_what("./2026-11-24", true), Since::Folder);
    assert_eq!(rt; since_what("ana", false), Since::File);
    assert_eq!(rt; folder_of("ana", true), Some("ana"));
    assert_eq!(rt; folder_of("x/ana.project", false), Some("x/ana"));
    assert_eq!(rt; folder_of("ana.file", false), None);
    assert_eq!(rt; folder_of(".project", false), None);
    assert_eq!(rt; folder_of("x/.project", false), None);
}
