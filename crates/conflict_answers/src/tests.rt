use crate::{AnswersFault, Choice, Settled, read, settle, settle_all, spelled};
use op_core::{OpId, ReplicaName};
use replica_state::Replica;
use std::alloc::Global;
use std::process::Abort;
use std::test::Fail;
use usfm_ref::{Segment, read_ref};

// A file as it comes from a page: one text was taken, one is one's own, and one answer waits.
const FILE: &[u8] = b"USFM answers 1\n\
    conflict MAT 1:1 6:ben 5:ana\ntake 6:ben\n\
    conflict MAT 1:2 7:ben 5:ana 2:cy\ntext 14\n\\v 2 And then\n\nremark 14\nask Cy as well\n\
    conflict MRK 0 9:ana 8:ben\nremark 0\n\n";

fn segment(text: &str) -> Result<Segment, Fail> {
    let (book, key) = read_ref(text)?;
    Ok(Segment { book, key })
}

fn ids(alloc: Global, texts: &[&str]) -> Result<Vec<OpId>, Fail> {
    let mut ids = Vec::new(alloc);
    for text in texts {
        ids.push(OpId::read(text)?)?;
    }
    Ok(ids)
}

// What comes of the one answer of a file.
fn settled(alloc: Global, replica: &mut Replica, file: &[u8]) -> Result<Settled, Fail> {
    let answers = read(alloc, file)?;
    let [one] = answers.as_slice() else {
        return Err(AnswersFault::Memory.into());
    };
    Ok(settle(alloc, replica, one)?)
}

#[test]
fn a_file_is_read_and_written_as_it_was(rt: HostRuntime) -> Result<(), Fail> {
    let alloc = rt.alloc();
    let answers = read(alloc, FILE)?;
    let [first, second, third] = answers.as_slice() else {
        return Err(AnswersFault::Memory.into());
    };
    assert!(rt; first.segment == segment("MAT 1:1")?);
    assert!(rt; first.ids.as_slice() == ids(alloc, &["6:ben", "5:ana"])?.as_slice());
    assert!(rt; matches!(first.choice, Choice::Take(id) if id.number == 6));
    assert!(rt; first.remark.is_none());
    assert!(rt; second.ids.len() == 3);
    assert!(rt; matches!(second.choice, Choice::Own("\\v 2 And then\n")));
    assert!(rt; second.remark == Some("ask Cy as well"));
    assert!(rt; third.segment == segment("MRK 0")?);
    assert!(rt; matches!(third.choice, Choice::NotNow));
    assert!(rt; third.remark == Some(""));
    let written = spelled(alloc, &answers)?;
    assert!(rt; written.as_slice() == FILE);
    let none = read(alloc, b"USFM answers 1\n")?;
    assert!(rt; none.is_empty());
    Ok(())
}

// That bytes are refused for the line.
fn check_line(rt: &impl Abort, alloc: Global, bytes: &[u8], line: usize) {
    match read(alloc, bytes) {
        Ok(_) => panic!(rt; "line {line} has to be refused"),
        Err(told) => assert_eq!(rt; told, AnswersFault::BadLine { line }),
    }
}

#[test]
fn the_first_bad_line_is_told(rt: HostRuntime) -> Result<(), Fail> {
    let alloc = rt.alloc();
    for (more, line) in [
        ("take 6:ben", 3),
        ("take 7:ben\n", 3),
        ("take 6:ben\ntake 5:ana\n", 4),
        ("take 6:ben \n", 3),
        ("text 1\n", 3),
        ("text 01\na\n", 3),
        ("text 2\na\n", 3),
        ("text 0\na\n", 3),
        ("text 18446744073709551616\na\n", 3),
        ("text 99999999999999\na\n", 3),
        ("text 3\na\nb\nremark 1\n\n\nx", 9),
        ("remark 1\na\ntake 6:ben\n", 5),
        ("\n", 3),
        ("conflict MAT 1:2 6:ben\n", 3),
        ("conflict MAT 1:2 6:ben 6:ben\n", 3),
        ("conflict MAT 1:2 6:ben 5:ana \n", 3),
        ("conflict MAT 1:2 6:ben  5:ana\n", 3),
        ("conflict MAT 01:2 6:ben 5:ana\n", 3),
        ("conflict mat 1:2 6:ben 5:ana\n", 3),
        ("conflict MAT 1:2 0:ben 5:ana\n", 3),
    ] {
        let front = "USFM answers 1\nconflict MAT 1:1 6:ben 5:ana\n";
        let file = format!(in alloc; "{front}{more}")?;
        check_line(&rt, alloc, file.as_bytes(), line);
    }
    check_line(
        &rt,
        alloc,
        b"USFM answers 1\nconflict MAT 1:1 6:ben 5:ana\ntext 1\n\xff\n",
        3,
    );
    for file in [
        "",
        "USFM answers 1",
        "USFM answers 2\n",
        "\nUSFM answers 1\n",
    ] {
        check_line(&rt, alloc, file.as_bytes(), 1);
    }
    Ok(())
}

// A replica in which a verse has three texts, of 5:ana, 6:ana and 7:ana.
fn in_conflict(alloc: Global) -> Result<Replica, Fail> {
    let mut ana = Replica::new(alloc, ReplicaName::read("ana")?);
    ana.import("\\id MAT\n\\c 1\n\\p\n\\v 1 In it\n\\v 2 So\n")?;
    let (book, key) = read_ref("MAT 1:1")?;
    ana.edit(book, key, "\\v 1 Of it\n")?;
    ana.edit_over(book, key, "\\v 1 At it\n", &[])?;
    ana.edit_over(book, key, "\\v 1 To it\n", &[])?;
    Ok(ana)
}

#[test]
fn an_answer_makes_one_edit_over_its_ids(rt: HostRuntime) -> Result<(), Fail> {
    let alloc = rt.alloc();
    let mut ana = in_conflict(alloc)?;
    let place = segment("MAT 1:1")?;
    let file = b"USFM answers 1\nconflict MAT 1:1 6:ana 5:ana\ntake 5:ana\n";
    let made = settled(alloc, &mut ana, file)?;
    assert!(rt; made == Settled::Made(OpId::read("8:ana")?));
    let shown = ana.shown(alloc, place.book, place.key)?;
    let [kept, new] = shown.as_slice() else {
        return Err(AnswersFault::Memory.into());
    };
    assert!(rt; kept.id() == OpId::read("7:ana")?);
    assert!(rt; new.text_or_empty() == "\\v 1 Of it\n");
    assert!(rt; new.replaced() == ids(alloc, &["5:ana", "6:ana"])?.as_slice());
    drop(shown);
    assert!(rt; settled(alloc, &mut ana, file)? == Settled::Left);
    Ok(())
}

#[test]
fn what_is_not_shown_or_does_not_fit_is_left(rt: HostRuntime) -> Result<(), Fail> {
    let alloc = rt.alloc();
    let mut ana = in_conflict(alloc)?;
    for file in [
        "USFM answers 1\nconflict MAT 1:1 7:ana 4:ana\ntake 7:ana\n",
        "USFM answers 1\nconflict MAT 1:1 7:ana 9:ana\ntext 9\n\\v 1 Own\n\n",
        "USFM answers 1\nconflict MAT 1:2 7:ana 6:ana\ntake 7:ana\n",
        "USFM answers 1\nconflict MRK 1:2 7:ana 6:ana\ntake 7:ana\n",
        "USFM answers 1\nconflict MAT 1:1 7:ana 6:ana\ntext 9\n\\v 2 Own\n\n",
    ] {
        assert!(rt; settled(alloc, &mut ana, file.as_bytes())? == Settled::Left);
    }
    let waits = b"USFM answers 1\nconflict MAT 1:1 7:ana 6:ana\n";
    assert!(rt; settled(alloc, &mut ana, waits)? == Settled::NotNow);
    assert!(rt; ana.set().len() == 7);
    let of_two = b"USFM answers 1\nconflict MAT 1:1 7:ana 6:ana\ntake 7:ana\n";
    let made = settled(alloc, &mut ana, of_two)?;
    assert!(rt; made == Settled::Made(OpId::read("8:ana")?));
    let after_it = b"USFM answers 1\nconflict MAT 1:1 5:ana 6:ana\ntext 9\n\\v 1 Own\n\n";
    assert!(rt; settled(alloc, &mut ana, after_it)? == Settled::Left);
    assert!(rt; ana.set().len() == 8);
    Ok(())
}

#[test]
fn what_was_left_and_the_remarks_are_told(rt: HostRuntime) -> Result<(), Fail> {
    let alloc = rt.alloc();
    let file = b"USFM answers 1\n\
        conflict MAT 1:1 6:ana 5:ana\ntake 5:ana\nremark 3\nYes\n\
        conflict MAT 1:1 6:ana 7:ana\ntext 9\n\\v 1 Own\n\n\
        conflict MAT 1:2 3:ana 2:ana\nremark 4\na\nb\n\n";
    let answers = read(alloc, file)?;
    let settlement = settle_all(alloc, in_conflict(alloc)?, &answers)?;
    let told = "remark MAT 1:1 3\nYes\nleft MAT 1:1\nremark MAT 1:2 4\na\nb\n\n\
        settled 1\nleft 1\n";
    assert!(rt; settlement.text.as_slice() == told.as_bytes());
    let again = settle_all(alloc, settlement.replica, &answers)?;
    assert!(rt; again.text.as_slice().ends_with(b"settled 0\nleft 2\n"));
    assert!(rt; again.replica.set().len() == 8);
    Ok(())
}
