// What a sync changed.
ghost use Rattle.std.specs.Prelude.{◌≡◌, IfOk};
ghost use Rattle.bundle_codec.specs.Summaries.{covers};
ghost use Rattle.sync_changes.specs.Changes as changing;

use crate::came::came;
use crate::files::FileEdits;
use crate::removed::removed;
use crate::replaced::replaced;
use bundle_codec::{Bundle, Summary};
use op_core::ReplicaName;
use std::alloc::{AllocError, Global};
use std::marker::Model;
use usfm_ref::Segment;

/// A segment, and names of copies.
#[derive(Debug, Drop)]
pub struct NamesAt {
    /// The segment.
    pub segment: Segment,
    /// The names, each once, in ascending order.
    pub names: Vec<ReplicaName>,
}

impl Model for NamesAt {
    ghost use Rattle.sync_changes.specs.Changes.{NamesParts};

    ghost Value = { NamesParts };

    ghost view = { λ c. record { segment = c.segment; names = c.names.items } };
}

/// What a sync changed, each list in the order of books and keys.
#[derive(Debug, Drop)]
pub struct SyncChanges {
    /// The segments that show something else than before by what came in, with the makers of it.
    pub came: Vec<NamesAt>,
    /// The segments that have no text any more by an edit that the files made.
    pub removed: Vec<Segment>,
    /// The segments in which the files replaced what other copies made and what came in late, with
    /// the makers of it.
    pub replaced: Vec<NamesAt>,
}

impl Model for SyncChanges {
    ghost use Rattle.sync_changes.specs.Changes.{SyncParts};

    ghost Value = { SyncParts };

    ghost view = { λ c. record {
      came = c.came.items;
      removed = c.removed.items;
      replaced = c.replaced.items;
    } };
}

/// What a sync changed, by the bundle of the project after it, by what was known before it, by
/// which edits the files made in it, by the base that the files were written from, and by older
/// bases.
///
/// Something *came in* where a segment shows other texts by all operations but those that the files
/// made than by the known ones by themselves, with the makers of what is neither known nor made by
/// the files. A text was *removed* where a segment shows one that is not empty without the edits of
/// the files, and none with them. A text was *replaced* where an edit of the files names another
/// copy's operation that the base shows in the segment, and that some older base with an operation
/// of the book does not show there. A text that was left out counts as empty, and as another than
/// each one that is kept.
///
/// It takes a few walks over each bundle, with a look at a map for each operation, and for each
/// older base a look at each segment that the files edited.
///
/// # Errors
/// Out of memory alone.
pub fn sync_changes(
    alloc: Global,
    after: &Bundle<'_>,
    known: &Summary,
    files: &FileEdits,
    base: &Bundle<'_>,
    older: &[Bundle<'_>],
) -> Result<SyncChanges, AllocError>
    ensures { IfOk result (λ made. made
        ≡ changing.sync_changes after.now (covers known.now) files.now base.now older.now) }
{
    Ok(SyncChanges {
        came: came(alloc, after, known, files)?,
        removed: removed(alloc, after, files)?,
        replaced: replaced(alloc, after, files, base, older)?,
    })
}
