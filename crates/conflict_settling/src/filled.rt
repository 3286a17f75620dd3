// Where a book has texts.
ghost use Rattle.std.specs.Prelude.{◌≡◌, not, IfOk};
ghost use Rattle.op_core.specs.Shown as picks;
ghost use Rattle.conflict_settling.specs.Filled.{filled_keys};

use op_core::Picked;
use replica_state::Replica;
use std::alloc::{AllocError, Global};
use usfm_export::exported_keys;
use usfm_ref::{Book, Key};

// The keys at which the book has a text that is not empty, rising. The line of a chapter whose head
// has no operation is one.
pub(crate) fn filled_keys(
    alloc: Global,
    replica: &Replica,
    book: Book,
) -> Result<Vec<Key>, AllocError>
    ensures { IfOk result (λ keys. keys.items ≡ filled_keys replica.now.held book) }
{
    let mut filled = Vec::new(alloc);
    let mut cursor = replica.set().cursor();
    for key in exported_keys(replica, book) {
        if has_text(&cursor.pick(book, key)) {
            filled.push(key)?;
        }
    }
    Ok(filled)
}

// Whether the text of a pick is not empty. What is picked is shown, so it has its text.
fn has_text(picked: &Picked<'_>) -> bool
    ensures { result ≡ not (picks.is_empty (picks.picked_text (picks.picked picked.now))) }
{
    match picked {
        Picked::Nothing => false,
        Picked::Held(op) => !op.text_or_empty().is_empty(),
        Picked::ChapterLine(_) => true,
    }
}
