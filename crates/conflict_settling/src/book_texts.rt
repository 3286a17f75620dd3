// The texts of a book that its segments stand between.
ghost use Rattle.std.specs.Prelude.{◌≡◌, IsOk, IfOk, OnOk, OnErr};
ghost use Rattle.usfm_ref.specs.Segments.{segment};
ghost use Rattle.op_core.specs.Shown as picks;
ghost use Rattle.conflict_settling.specs.After as after;
ghost use Rattle.conflict_settling.specs.Before as before;
ghost use Rattle.conflict_settling.specs.Filled.{held_book};

use crate::filled::filled_keys;
use crate::near::{first_after, last_before};
use op_core::Picked;
use replica_state::Replica;
use std::alloc::{AllocError, Global};
use std::marker::Model;
use usfm_ref::{Book, Key};

/// The texts of a book of a replica that are not empty, lent from it: what each segment of the book
/// stands between. The book's keys are walked once, and then each text is found by binary search.
#[derive(Debug, Drop)]
pub struct BookTexts<'a> {
    replica: &'a Replica,
    book: Book,
    // The keys of the texts.
    keys: Vec<Key>,
}

impl<'a> Model for BookTexts<'a> {
    ghost use Rattle.std.specs.Prelude.{◌≡◌};
    ghost use Rattle.conflict_settling.specs.Filled.{HeldBook, held_book, filled_keys};

    ghost Value = { HeldBook };

    ghost view = { λ t. held_book t.replica.now.held t.book };

    ghost invariant = { λ t. t.keys.items ≡ filled_keys t.replica.now.held t.book };
}

impl<'a> BookTexts<'a> {
    /// The texts of a book, none where the replica has no operation of it.
    ///
    /// # Errors
    /// Out of memory alone.
    pub fn of(alloc: Global, replica: &'a Replica, book: Book) -> Result<BookTexts<'a>, AllocError>
        ensures { IfOk result (λ texts. texts ≡ held_book replica.now.held book) }
    {
        let keys = filled_keys(alloc, replica, book)?;
        Ok(BookTexts {
            replica,
            book,
            keys,
        })
    }

    /// Makes these the texts of a book of the same replica. Where they are already, it does not
    /// allocate.
    ///
    /// # Errors
    /// Out of memory alone. Nothing has changed then.
    pub fn turn_to(&mut self, alloc: Global, book: Book) -> Result<(), AllocError>
        ensures ok { OnOk result (self.new ≡ held_book self.old.held book) }
        ensures same { self.old.book ≡ book → IsOk result }
        ensures err { OnErr result (self.new ≡ self.old) }
    {
        if self.book != book {
            self.keys = filled_keys(alloc, self.replica, book)?;
            self.book = book;
        }
        Ok(())
    }

    /// The replica.
    pub fn replica(&self) -> &'a Replica
        ensures { result.now.held ≡ self.now.held }
    {
        self.replica
    }

    /// The book.
    pub fn book(&self) -> Book
        ensures { result ≡ self.now.book }
    {
        self.book
    }

    /// What the book has before a segment of it: the last text there that is not empty, or the line
    /// of a chapter. It does not allocate.
    pub fn before(&self, key: Key) -> Picked<'a>
        ensures { picks.picked_text (picks.picked result)
            ≡ before.text_before self.now.held (segment self.now.book key) }
    {
        picked_at(self.replica, self.book, last_before(&self.keys, key))
    }

    /// What the book has after a segment of it: the first text there that is not empty, or the line
    /// of a chapter. It does not allocate.
    pub fn after(&self, key: Key) -> Picked<'a>
        ensures { picks.picked_text (picks.picked result)
            ≡ after.text_after self.now.held (segment self.now.book key) }
    {
        picked_at(self.replica, self.book, first_after(&self.keys, key))
    }
}

// What the book has at a key, if there is one.
fn picked_at(replica: &Replica, book: Book, key: Option<Key>) -> Picked<'_>
    ensures { picks.picked_text (picks.picked result)
        ≡ before.text_at replica.now.held book key }
{
    match key {
        None => Picked::Nothing,
        Some(key) => replica.pick(book, key),
    }
}
