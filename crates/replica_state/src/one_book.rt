// Replicas of one book.
ghost use Rattle.std.specs.Prelude.{◌≡◌, ◌==◌, ◌||◌, ◌++◌, ◌∷◌, [], IsOk, IfOk, OnOk, IsTrue, filter};
ghost use Rattle.op_core.specs.Export.{of_book};
ghost use Rattle.op_core.specs.NextIds.{greatest_number};
ghost use Rattle.op_core.specs.OneBook.{ops_for_edit, ops_of_book};
ghost use Rattle.op_core.specs.Sets.{IsOpSet};
ghost use Rattle.op_core.specs.Thinned.{is_legal};

use crate::replica::Replica;
use bundle_codec::{Bundle, OpView};
use op_core::{Op, ReplicaName};
use std::alloc::{AllocError, Global};
use usfm_ref::Book;

impl Replica {
    /// A replica of this name that holds those operations of a bundle which are of one book. Only
    /// these are copied. Where there is none, it does not allocate. It is to be looked at alone: an
    /// edit of it may give an id that the bundle has in another book.
    ///
    /// # Errors
    /// Out of memory alone.
    pub fn of_book(
        alloc: Global,
        name: ReplicaName,
        bundle: &Bundle<'_>,
        book: Book,
    ) -> Result<Replica, AllocError>
        ensures held { IfOk result (λ replica.
            replica ≡ record { name = name; held = ops_of_book bundle.now book }) }
        ensures none { ops_of_book bundle.now book ≡ [] → IsOk result }
    {
        replica_of(alloc, name, copy_of_book(alloc, bundle, book)?)
    }

    /// A replica of this name that holds those operations of a bundle which are of one book, and
    /// those with the greatest number of all. Only these are copied. So what it makes of the book
    /// is what a replica makes that holds all of the bundle: the ids are the same, and what they
    /// replace.
    ///
    /// # Errors
    /// Out of memory alone; not of a bundle that has no operation.
    pub fn for_edit(
        alloc: Global,
        name: ReplicaName,
        bundle: &Bundle<'_>,
        book: Book,
    ) -> Result<Replica, AllocError>
        ensures held { IfOk result (λ replica.
            replica ≡ record { name = name; held = ops_for_edit bundle.now book }) }
        ensures none { bundle.now ≡ [] → IsOk result }
    {
        replica_of(alloc, name, copy_for_edit(alloc, bundle, book)?)
    }
}

// A replica of this name that holds the operations. Where there is none, it does not allocate.
pub(crate) fn replica_of(
    alloc: Global,
    name: ReplicaName,
    ops: Vec<Op>,
) -> Result<Replica, AllocError>
    requires set { IsOpSet ops.items }
    requires legal { IsTrue (is_legal ops.items) }
    ensures held { IfOk result (λ replica. replica ≡ record { name = name; held = ops.items }) }
    ensures none { ops.items ≡ [] → IsOk result }
{
    let mut replica = Replica::new(alloc, name);
    replica.join_new(ops)?;
    Ok(replica)
}

// The operations of a bundle that are of a book, copied out of the bundle's bytes, rising. Nothing
// is allocated before the first of them.
fn copy_of_book(alloc: Global, bundle: &Bundle<'_>, book: Book) -> Result<Vec<Op>, AllocError>
    ensures set { IsOpSet bundle.now }
    ensures legal { IsTrue (is_legal bundle.now) }
    ensures ops { IfOk result (λ ops. ops.items ≡ ops_of_book bundle.now book) }
    ensures none { ops_of_book bundle.now book ≡ [] → IsOk result }
{
    let mut ops = Vec::new(alloc);
    for view in bundle.ops() {
        copy_if_of_book(alloc, &mut ops, &view, book)?;
    }
    Ok(ops)
}

// Appends a copy of the operation if it is of the book.
pub(crate) fn copy_if_of_book(
    alloc: Global,
    ops: &mut Vec<Op>,
    view: &OpView<'_>,
    book: Book,
) -> Result<(), AllocError>
    ensures ops { OnOk result
        (ops.new.items ≡ ops.old.items ++ ops_of_book (view.now ∷ []) book) }
    ensures none { ops_of_book (view.now ∷ []) book ≡ [] → IsOk result }
{
    if view.is_of_book(book) {
        ops.push(view.to_op(alloc)?)?;
    }
    Ok(())
}

// The operations of a bundle that an edit of a book is made from, copied out of the bundle's bytes,
// rising.
fn copy_for_edit(alloc: Global, bundle: &Bundle<'_>, book: Book) -> Result<Vec<Op>, AllocError>
    ensures set { IsOpSet bundle.now }
    ensures legal { IsTrue (is_legal bundle.now) }
    ensures ops { IfOk result (λ ops. ops.items ≡ ops_for_edit bundle.now book) }
    ensures none { bundle.now ≡ [] → IsOk result }
{
    let greatest = greatest_number(bundle);
    let mut ops = Vec::new(alloc);
    for view in bundle.ops() {
        copy_if_for_edit(alloc, &mut ops, &view, book, greatest)?;
    }
    Ok(ops)
}

// Appends a copy of the operation if it is of the book, or has the number.
fn copy_if_for_edit(
    alloc: Global,
    ops: &mut Vec<Op>,
    view: &OpView<'_>,
    book: Book,
    number: u64,
) -> Result<(), AllocError>
    ensures { OnOk result (ops.new.items ≡ ops.old.items
        ++ filter (λ o. of_book book o || o.id.number == number) (view.now ∷ [])) }
{
    if view.is_of_book(book) || view.id().number == number {
        ops.push(view.to_op(alloc)?)?;
    }
    Ok(())
}

// The greatest number of an operation of the bundle, 0 where it has none.
fn greatest_number(bundle: &Bundle<'_>) -> u64
    ensures { result ≡ greatest_number bundle.now }
{
    let mut greatest = 0;
    for view in bundle.ops() {
        greatest = view.id().number.max(greatest);
    }
    greatest
}
