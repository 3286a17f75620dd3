// Changes that are made together, and how many comparisons an operation costs a replica of many
// segments.
use super::{apart, id_of, op_of, put, since, verse};
use bundle_codec::{decode, encode};
use op_core::{OpSet, ReplicaName};
use replica_state::{Change, EditFault, Replica};
use std::alloc::Global;
use std::test::Fail;
use usfm_ref::Book;

fn received(alloc: Global, replica: &mut Replica, set: &OpSet) -> Result<u64, Fail> {
    let bytes = encode(alloc, set)?;
    let (bundle, _) = decode(alloc, &bytes)?;
    Ok(replica.receive(&bundle)?)
}

#[test]
fn few_comparisons(rt: HostRuntime) -> Result<(), Fail> {
    let alloc = rt.alloc();
    let mut ana = Replica::new(alloc, ReplicaName::read("ana")?);
    assert_eq!(rt; received(alloc, &mut ana, &apart(alloc, 4096)?)?, 4096);
    let mut one = OpSet::new(alloc);
    put(
        &mut one,
        op_of(alloc, 5000, verse(31, 15)?, &[id_of(2000)?], "")?,
    )?;
    let before = ana.compared();
    assert_eq!(rt; received(alloc, &mut ana, &one)?, 1);
    let cost = since(before, ana.compared())?;
    assert!(rt;
        matches!(cost, 1..=256),
        "{cost} comparisons of a receiving"
    );
    let before = ana.compared();
    let made = ana.edit(Book::read("MAT")?, verse(31, 16)?, "");
    assert!(rt; made == Ok(id_of(5001)?));
    let cost = since(before, ana.compared())?;
    assert!(rt; matches!(cost, 1..=256), "{cost} comparisons of an edit");
    Ok(())
}

// Each change replaces what it names and nothing else; one that may not be made refuses them all.
#[test]
fn changes_are_made_together(rt: HostRuntime) -> Result<(), Fail> {
    let alloc = rt.alloc();
    let book = Book::read("MAT")?;
    let mut ana = Replica::new(alloc, ReplicaName::read("ana")?);
    assert_eq!(rt; received(alloc, &mut ana, &apart(alloc, 4)?)?, 4);
    let over = Change {
        key: verse(0, 1)?,
        text: "\\v 1 a\n",
        ids: vec![in alloc; id_of(2)?]?,
    };
    let elsewhere = Change {
        key: verse(0, 2)?,
        text: "\\v 2 b\n",
        ids: vec![in alloc; id_of(2)?]?,
    };
    let beside = Change {
        key: verse(0, 3)?,
        text: "\\v 3 c\n",
        ids: Vec::new(alloc),
    };
    let refused = ana.change(book, &[over, elsewhere]);
    assert!(rt; refused == Err(EditFault::NotShown(id_of(2)?)));
    assert_eq!(rt; ana.shown(alloc, book, verse(0, 1)?)?.len(), 1);
    let over = Change {
        key: verse(0, 1)?,
        text: "\\v 1 a\n",
        ids: vec![in alloc; id_of(2)?]?,
    };
    assert!(rt; ana.change(book, &[over, beside]) == Ok(2));
    assert_eq!(rt; ana.shown(alloc, book, verse(0, 1)?)?.len(), 1);
    assert_eq!(rt; ana.shown(alloc, book, verse(0, 3)?)?.len(), 2);
    Ok(())
}
