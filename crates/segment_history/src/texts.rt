// What is kept of operations, under their ids.
ghost use Rattle.std.specs.Prelude.{◌≡◌, Some, IfOk, OnOk, IsTrue};
ghost use Rattle.op_core.specs.Sets.{rises};
ghost use Rattle.segment_history.specs.Histories.{kept_of};
ghost use Rattle.segment_history.specs.Entries.{kept_part};
ghost use Rattle.segment_history.specs.Loops.Texts as keeping;

use crate::entry::Kept;
use bundle_codec::OpView;
use op_core::OpId;
use std::alloc::{AllocError, Global};
use std::collections::BTreeMap;

pub(crate) type Texts<'a> = BTreeMap<OpId, Kept<'a>>;

// What is kept of operations that rise by id.
pub(crate) fn texts_of<'a>(alloc: Global, ops: &[OpView<'a>]) -> Result<Texts<'a>, AllocError>
    requires { IsTrue (rises ops.now) }
    ensures { IfOk result (keeping.HasTexts ops.now) }
{
    let mut texts = BTreeMap::new(alloc);
    for op in ops {
        put(&mut texts, op)?;
    }
    Ok(texts)
}

// Puts what is kept of an operation under its id.
fn put<'a>(texts: &mut Texts<'a>, op: &OpView<'a>) -> Result<(), AllocError>
    ensures { OnOk result (keeping.PutsText op.now texts.old texts.new) }
{
    match texts.insert(op.id(), kept(op)) {
        Ok(_) => Ok(()),
        Err(_) => Err(AllocError),
    }
}

// What is kept of an operation.
pub(crate) fn kept<'a>(op: &OpView<'a>) -> Kept<'a>
    ensures { kept_part result ≡ kept_of (Some op.now) }
{
    match op.text() {
        None => Kept::Thinned,
        Some(text) => Kept::Text(text),
    }
}

// What is kept of the operation of an id: nothing but its id, where it is not there.
pub(crate) fn kept_at<'a>(texts: &Texts<'a>, id: &OpId) -> Kept<'a>
    ensures { kept_part result ≡ keeping.kept_under texts.now id.now }
{
    match texts.get(id) {
        None => Kept::Awaited,
        Some(kept) => *kept,
    }
}
