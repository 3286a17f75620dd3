// Sets of operations: joining, and how many comparisons it takes, and a search.
use super::{apart, id_of, op_of, put, since, verse};
use op_core::{Op, OpSet, SetFault};
use std::alloc::Global;
use std::test::Fail;
use usfm_ref::Book;

// A set of one operation.
fn one(alloc: Global, op: Op) -> Result<OpSet, Fail> {
    let mut set = OpSet::new(alloc);
    put(&mut set, op)?;
    Ok(set)
}

#[test]
fn sets_are_joined(rt: HostRuntime) -> Result<(), Fail> {
    let alloc = rt.alloc();
    let (first, second) = (id_of(1)?, id_of(2)?);
    let mut set = OpSet::new(alloc);
    assert!(rt; set.is_empty());
    assert_eq!(rt;
        set.join(one(alloc, op_of(alloc, 1, verse(1, 1)?, &[], "\\v 1 In\n")?)?)?,
        1
    );
    assert_eq!(rt;
        set.join(one(alloc, op_of(alloc, 1, verse(1, 1)?, &[], "\\v 1 In\n")?)?)?,
        0
    );
    assert_eq!(rt;
        set.join(one(
            alloc,
            op_of(alloc, 2, verse(1, 1)?, &[first], "\\v 1 At\n")?
        )?)?,
        1
    );
    assert!(rt; !set.is_empty() && set.len() == 2);
    let shown = set.shown(alloc, Book::read("MAT")?, verse(1, 1)?)?;
    assert!(rt; shown.len() == 1 && shown[0].id() == second);
    Ok(())
}

// Two sets with the same three ids: each pair of ids is compared, and the last clashes.
#[test]
fn a_join_counts_its_pairs(rt: HostRuntime) -> Result<(), Fail> {
    let alloc = rt.alloc();
    let mut set = apart(alloc, 3)?;
    let mut other = apart(alloc, 2)?;
    put(&mut other, op_of(alloc, 3, verse(1, 9)?, &[], "")?)?;
    let before = set.compared();
    assert!(rt; set.join(other) == Err(SetFault::Clash(id_of(3)?)));
    assert_eq!(rt; since(before, set.compared())?, 3);
    assert_eq!(rt; set.len(), 3);
    Ok(())
}

#[test]
fn a_search_costs_a_logarithm(rt: HostRuntime) -> Result<(), Fail> {
    let alloc = rt.alloc();
    let mut set = apart(alloc, 4096)?;
    let (key, over) = (verse(1, 3)?, id_of(68)?);
    let before = set.compared();
    put(&mut set, op_of(alloc, 5000, key, &[over], "")?)?;
    let cost = since(before, set.compared())?;
    assert!(rt; matches!(cost, 1..=256), "{cost} comparisons");
    assert!(rt; set.shown_ids(Book::read("MAT")?, key) == [id_of(5000)?].as_slice());
    Ok(())
}
