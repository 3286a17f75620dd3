use super::*;
use Kind::{Added, Kept, Removed};
use std::alloc::{AllocError, Global};
use std::process::Abort;

// That the two texts have these parts.
fn check_parts(
    rt: &impl Abort,
    alloc: Global,
    old: &str,
    new: &str,
    wanted: &[(Kind, &str)],
) -> Result<(), AllocError> {
    let parts = differences(alloc, old, new)?;
    assert_eq!(rt; parts.len(), wanted.len(), "{old} {new}");
    for (part, (kind, text)) in parts.iter().zip(wanted) {
        assert_eq!(rt; part.kind, *kind, "{old} {new}");
        assert_eq!(rt; part.text, *text, "{old} {new}");
    }
    Ok(())
}

// How many words of the two texts are kept.
fn kept_count(alloc: Global, old: &str, new: &str) -> Result<usize, AllocError> {
    let mut count = 0usize;
    for part in &differences(alloc, old, new)? {
        if part.kind == Kept {
            count = count.saturating_add(words(alloc, part.text)?.len());
        }
    }
    Ok(count)
}

// A front, and this many marks after it.
fn padded(alloc: Global, front: &str, mark: &str, count: usize) -> Result<String, AllocError> {
    let mut text = String::from_str(alloc, front)?;
    for _ in 0..count {
        text.push_str(mark)?;
    }
    Ok(text)
}

#[test]
fn cuts_words(rt: HostRuntime) -> Result<(), AllocError> {
    let list = words(rt.alloc(), "\\v 1 In  der\r\nTür\\nd HERR\\nd*.")?;
    let wanted = [
        "\\v", " ", "1", " ", "In", "  ", "der", "\r\n", "Tür", "\\nd", " ", "HERR", "\\nd*", ".",
    ];
    assert_eq!(rt; list.as_slice(), wanted.as_slice());
    assert_eq!(rt; words(rt.alloc(), "")?.len(), 0);
    Ok(())
}

#[test]
fn tells_parts(rt: HostRuntime) -> Result<(), AllocError> {
    let alloc = rt.alloc();
    let one_word = [
        (Kept, "In the "),
        (Removed, "beginning"),
        (Added, "start"),
        (Kept, " God"),
    ];
    check_parts(
        &rt,
        alloc,
        "In the beginning God",
        "In the start God",
        &one_word,
    )?;
    check_parts(&rt, alloc, "", "", &[])?;
    check_parts(&rt, alloc, "a b", "a b", &[(Kept, "a b")])?;
    check_parts(&rt, alloc, "", "é\t", &[(Added, "é\t")])?;
    check_parts(&rt, alloc, "\\q1 a", "", &[(Removed, "\\q1 a")])
}

// The pairs of Cormen, Leiserson, Rivest and Stein, of Wikipedia's page on `diff`, and of Rosetta
// Code, with marks for their letters.
#[test]
fn keeps_as_many_words_as_can_be(rt: HostRuntime) -> Result<(), AllocError> {
    let alloc = rt.alloc();
    let rows = [
        ("\\A\\B\\C\\B\\D\\A\\B", "\\B\\D\\C\\A\\B\\A", 4),
        (
            "\\a\\b\\c\\d\\f\\g\\h\\j\\q\\z",
            "\\a\\b\\c\\d\\e\\f\\g\\i\\j\\k\\r\\x\\y\\z",
            8,
        ),
        (
            "\\t\\h\\i\\s\\i\\s\\a\\t\\e\\s\\t",
            "\\t\\e\\s\\t\\i\\n\\g\\1\\2\\3\\t\\e\\s\\t\\i\\n\\g",
            7,
        ),
    ];
    for (old, new, count) in rows {
        assert_eq!(rt; kept_count(alloc, old, new)?, count, "{old}");
        assert_eq!(rt; kept_count(alloc, new, old)?, count, "{old}");
    }
    Ok(())
}

#[test]
fn compares_long_texts_by_their_ends(rt: HostRuntime) -> Result<(), AllocError> {
    let alloc = rt.alloc();
    let end = padded(alloc, "", "\\p", MAX_WORDS - 3)?;
    let old = padded(alloc, "\\a\\k\\b", "\\p", MAX_WORDS - 3)?;
    let new = padded(alloc, "\\c\\k\\d", "\\p", MAX_WORDS - 3)?;
    let full = [
        (Removed, "\\a"),
        (Added, "\\c"),
        (Kept, "\\k"),
        (Removed, "\\b"),
        (Added, "\\d"),
        (Kept, end.as_str()),
    ];
    check_parts(&rt, alloc, &old, &new, &full)?;

    let end = padded(alloc, "", "\\p", MAX_WORDS - 2)?;
    let old = padded(alloc, "\\a\\k\\b", "\\p", MAX_WORDS - 2)?;
    let new = padded(alloc, "\\c\\k\\d", "\\p", MAX_WORDS - 2)?;
    let ends = [
        (Removed, "\\a\\k\\b"),
        (Added, "\\c\\k\\d"),
        (Kept, end.as_str()),
    ];
    check_parts(&rt, alloc, &old, &new, &ends)
}

#[test]
fn compares_texts_with_no_word_in_common(rt: HostRuntime) -> Result<(), AllocError> {
    let old = padded(rt.alloc(), "", "\\a", MAX_WORDS)?;
    let new = padded(rt.alloc(), "", "\\b", MAX_WORDS)?;
    let wanted = [(Removed, old.as_str()), (Added, new.as_str())];
    check_parts(&rt, rt.alloc(), &old, &new, &wanted)
}
