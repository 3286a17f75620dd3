// A conflict of two texts, asked and answered.
use crate::{Answer, Asked, Manner, SettleFault, Wanted, ends_text, next_question};
use op_core::ReplicaName;
use replica_state::Replica;
use std::alloc::Global;
use std::process::Abort;
use std::test::Fail;
use usfm_ref::read_ref;

// A replica in which a verse has two texts, one of them twice.
fn in_conflict(alloc: Global) -> Result<Replica, Fail> {
    let mut ana = Replica::new(alloc, ReplicaName::read("ana")?);
    ana.import("\\id MAT\n\\c 1\n\\p\n\\v 1 In it\n\\v 2 So\n")?;
    let (book, key) = read_ref("MAT 1:1")?;
    ana.edit_over(book, key, "\\v 1 At it\n", &[])?;
    ana.edit_over(book, key, "\\v 1 In it\n", &[])?;
    Ok(ana)
}

fn asked(alloc: Global, replica: &Replica, manner: Manner) -> Result<Asked, Fail> {
    let question = next_question(alloc, replica, &[], None, manner)?;
    Ok(question.ok_or(SettleFault::NoBook)?)
}

#[test]
fn a_conflict_is_asked(rt: HostRuntime) -> Result<(), Fail> {
    let alloc = rt.alloc();
    let ana = in_conflict(alloc)?;
    let one = asked(alloc, &ana, Manner::Brackets)?;
    let wanted =
        b"\nMAT 1:1, 1 left\n\nbefore it:\n\\c 1\n\\p\n\n1: 6 ana, in the book\n\\v 1 [In] it\n\n2: 5 ana\n\\v 1 [At] it\n\n3 ana has text 1 too\nType the number of the text to keep, e to type your own, s to skip, q to stop.\n";
    assert_eq!(rt; one.question(), wanted.as_slice());
    assert_eq!(rt; one.ids().len(), 3);
    assert!(rt; one.answer("2\n") == Answer::Take("\\v 1 At it\n"));
    assert!(rt; one.answer(" e \n") == Answer::Own);
    assert!(rt; one.answer("3\n") == Answer::Unclear);
    assert!(rt; one.answer("0\n") == Answer::Unclear);
    assert!(rt; one.answer("") == Answer::Unclear);
    assert!(rt; one.answer("s") == Answer::Skip);
    assert!(rt; one.answer("q") == Answer::Stop);
    Ok(())
}

#[test]
fn what_is_wanted(rt: HostRuntime) -> Result<(), Fail> {
    let alloc = rt.alloc();
    let ana = in_conflict(alloc)?;
    let manner = Manner::Reverse;
    assert!(rt; next_question(alloc, &ana, &[Wanted::read("MAT")?], None, manner)?.is_some());
    assert!(rt; next_question(alloc, &ana, &[Wanted::read("MAT 1:1")?], None, manner)?.is_some());
    assert!(rt; next_question(alloc, &ana, &[Wanted::read("MAT 1:2")?], None, manner)?.is_none());
    let none = next_question(alloc, &ana, &[Wanted::read("MRK 1:2")?], None, manner);
    assert!(rt; matches!(none, Err(SettleFault::NoBook)));
    let one = asked(alloc, &ana, manner)?;
    assert!(rt; next_question(alloc, &ana, &[], Some(one.segment()), manner)?.is_none());
    Ok(())
}

#[test]
fn control_characters_are_spelled(rt: HostRuntime) -> Result<(), Fail> {
    let alloc = rt.alloc();
    let mut ana = in_conflict(alloc)?;
    let (book, key) = read_ref("MAT 1:2")?;
    ana.edit_over(book, key, "\\v 2 \x1b[7m\u{9b}\t\r\n", &[])?;
    ana.edit_over(book, key, "\\v 2 \x1b[7m\u{9b}\t\n", &[])?;
    let wanted = [Wanted::read("MAT 1:2")?];
    let asked = next_question(alloc, &ana, &wanted, None, Manner::Brackets)?;
    let asked = asked.ok_or(SettleFault::NoBook)?;
    let question = str::from_utf8(asked.question())?;
    assert!(rt; question.contains("\\x1b[7m\\x9b[\\x09\\x0d]\n"));
    assert!(rt; question.contains("\\x1b[7m\\x9b[\\x09]\n"));
    Ok(())
}

#[test]
fn what_ends_a_text(rt: HostRuntime) {
    assert!(rt; ends_text(b"."));
    assert!(rt; ends_text(b".\r\n"));
    assert!(rt; ends_text(b" \t. \n"));
    assert!(rt; !ends_text(b"..\n"));
    assert!(rt; !ends_text(b". .\n"));
    assert!(rt; !ends_text(b"a.\n"));
    assert!(rt; !ends_text(b"\n"));
}
