// The keys of a book's export.
ghost use Rattle.std.specs.Prelude.{◌≡◌};
ghost use Rattle.std.specs.Iterator.{YieldsFirst, item_count};
ghost use Rattle.op_core.specs.Export as exports;
ghost use Rattle.usfm_export.specs.Loops.Heads.{lacks_head};

use op_core::Keys;
use replica_state::Replica;
use std::marker::Model;
use usfm_ref::{Book, Key, Place};

/// The keys of a book's export, in ascending order, each once. Made by `exported_keys`; it does not
/// allocate.
#[derive(Debug, Drop)]
pub struct ExportedKeys<'a> {
    keys: Keys<'a>,
    // The last of these that was looked at.
    before: Option<Key>,
    // It, where its chapter's head has been given in its place.
    waiting: Option<Key>,
}

impl<'a> Model for ExportedKeys<'a> {
    ghost use Rattle.std.specs.Prelude.{List};
    ghost use Rattle.usfm_ref.specs.Keys.{KeyParts};
    ghost use Rattle.usfm_export.specs.Loops.Heads.{keys_left};

    ghost Value = { List KeyParts };

    ghost view = { λ s. keys_left s.before s.waiting s.keys };
}

/// The keys of a book's export: those with an operation, and the heads of their chapters. A head
/// without an operation may be picked as its chapter's line. The walk does not allocate.
pub fn exported_keys(replica: &Replica, book: Book) -> ExportedKeys<'_>
    ensures { result ≡ exports.exported_keys replica.now.held book }
{
    ExportedKeys {
        keys: replica.keys(book),
        before: None,
        waiting: None,
    }
}

impl<'a> Iterator for ExportedKeys<'a> {
    type Item = Key;

    ghost next_gives = { YieldsFirst (λ s. s) };

    ghost remaining = { item_count (λ s. s) };

    fn next(&mut self) -> Option<Key> {
        if let Some(key) = self.waiting {
            self.waiting = None;
            return Some(key);
        }
        let key = self.keys.next()?;
        let before = self.before;
        self.before = Some(key);
        if lacks_head(before, key) {
            self.waiting = Some(key);
            return Some(key.head());
        }
        Some(key)
    }
}

// Whether a key is the first of its chapter, after the key before, and is not the chapter's head.
fn lacks_head(before: Option<Key>, key: Key) -> bool
    ensures { result ≡ lacks_head before key }
{
    let first = match before {
        None => true,
        Some(before) => before.chapter != key.chapter,
    };
    first && key.place != Place::Head
}
