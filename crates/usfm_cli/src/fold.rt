// From a stream of bundles to a book.
ghost use Rattle.std.specs.Prelude.{◌≡◌, Ok, Err, IfOk, IfErr, OnOk};
ghost use Rattle.op_core.specs.Sets.{IsOpSet};
ghost use Rattle.usfm_cli.specs.Loops.Gathered.{held_in};
ghost use Rattle.usfm_cli.specs.Streams.{UnionAnswers};
ghost use Rattle.usfm_cli.specs.Books.{WritesBook, WritesUnion};
ghost use Rattle.usfm_cli.specs.Folding.{AnswersBundles, FoldsStream};
ghost use Rattle.usfm_cli.specs.Folding.{source_failures, sink_failures};

use crate::gathered::Gathered;
use bundle_codec::decode;
use byte_source::{ByteSource, read_to_end};
use command_faults::Fault;
use op_core::ReplicaName;
use std::alloc::Global;
use usfm_export::{ByteSink, write_book};
use usfm_ref::Book;

/// Reads bundles one after another to the end of the source, takes the union of their operations,
/// and writes the book's text to the sink: the picked texts of its segments in ascending order of
/// keys. The book is UTF-8, and cuts back into them.
///
/// Each bundle is received before the next one is read, so the first refusal in the order of the
/// bytes is answered. Nothing is written before all is judged. The source is read at most once for
/// each byte and once more. An empty input is a list of no bundles.
///
/// # Errors
/// - `ReadFailed` (120) at the first error of the source, of whatever kind; `TooLong` (121) where
///   it gives more than 268,435,456 bytes.
/// - `Bundle` (60 to 69) where the bytes are no bundle; `Clash` (51) where a bundle has an
///   operation that does not agree with one of a bundle before under the same id, with the least
///   such id.
/// - `NoBook` (82) where no operation is of the book.
/// - `WriteFailed` (90) where the sink answers an error or takes 0 bytes, with the bytes that were
///   written: they are the front of the book of that length.
/// - `Memory` (1) where an allocation failed. Nothing was written. It may come in the place of each
///   of the others but 90, since what the source gives is kept before it is judged; for a source
///   that gives no byte nothing is allocated.
pub fn fold_stream<R: ByteSource, W: ByteSink>(
    alloc: Global,
    source: &mut R,
    sink: &mut W,
    book: Book,
) -> Result<(), Fault>
    ensures folds { FoldsStream book (R.to_come source.old) (R.to_come source.new)
        (R.reads source.old) (R.reads source.new) (W.taken sink.old) (W.taken sink.new) result }
    ensures cuts_back { OnOk result (WritesBook book (R.to_come source.old) (R.to_come source.new)
        (W.taken sink.old) (W.taken sink.new)) }
    ensures read_failed { R.failures source.new ≡ source_failures result (R.failures source.old) }
    ensures write_failed { W.failures sink.new ≡ sink_failures result (W.failures sink.old) }
{
    let input = read_to_end(alloc, source)?;
    fold_bundles(alloc, &input, sink, book)
}

/// Takes the union of the operations of the bundles that the bytes spell, one after another, and
/// writes the book's text to the sink, as `fold_stream` does once it has read its source.
///
/// # Errors
/// Those of `fold_stream` for bytes that were read. `Memory` is answered only where memory may be
/// taken: to judge a bundle of which texts are left out; to gather a second bundle, if the first
/// has an operation, or, from the second on, one that brings an operation of a new id; or to copy
/// the operations of the book. So it hides no fault of the first bundle's bytes nor of the second's,
/// if these have all their texts, nor that one bundle alone lacks the book.
pub fn fold_bundles<W: ByteSink>(
    alloc: Global,
    input: &[u8],
    sink: &mut W,
    book: Book,
) -> Result<(), Fault>
    ensures folds { AnswersBundles book input.now
        (W.taken sink.old) (W.taken sink.new) result }
    ensures cuts_back { OnOk result (WritesUnion book input.now
        (W.taken sink.old) (W.taken sink.new)) }
    ensures write_failed { W.failures sink.new ≡ sink_failures result (W.failures sink.old) }
{
    let gathered = gather_all(alloc, input)?;
    // The replica makes no operation, so its name is never seen.
    let name = ReplicaName::read("fold").unwrap();
    let fold = gathered.of_book(alloc, name, book)?;
    Ok(write_book(&fold, book, sink)?)
}

// The operations of the bundles that the bytes spell, each bundle taken in before the next is read.
pub(crate) fn gather_all(alloc: Global, input: &[u8]) -> Result<Gathered<'_>, Fault>
    ensures ok { IfOk result (λ gathered. UnionAnswers input.now (Ok (held_in gathered))) }
    ensures set { IfOk result (λ gathered. IsOpSet (held_in gathered)) }
    ensures refused { IfErr result (λ fault. UnionAnswers input.now (Err fault)) }
{
    let mut gathered = Gathered::Nothing;
    let mut rest = input;
    'bundles: while !rest.is_empty() {
        let (bundle, length) = decode(alloc, rest)?;
        gathered = gathered.receive(alloc, bundle)?;
        let (_, left) = rest.split_at(length);
        rest = left;
    }
    Ok(gathered)
}
