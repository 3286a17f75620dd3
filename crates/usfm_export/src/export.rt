// The export of a book out of a replica.
ghost use Rattle.std.specs.Prelude.{◌≡◌, OnOk, IfOk, IfErr};
ghost use Rattle.std.specs.Io.KnownBytes.{Appends};
ghost use Rattle.op_core.specs.Export as exports;
ghost use Rattle.op_core.specs.Sets.{IsOpSet};
ghost use Rattle.op_core.specs.Shown.{picked, picked_text};
ghost use Rattle.usfm_export.specs.Books.{IsBookOf, AnswersBook, AnswersText, sink_failures};
ghost use Rattle.usfm_export.specs.Counts.{failures_after};
ghost use Rattle.usfm_export.specs.Writing.{TakesAll, TakesFront};

use crate::keys::exported_keys;
use crate::{ByteSink, ExportFault, StdSink, TextFault, WriteFault, write_more};
use op_core::{Picked, chapter_line};
use replica_state::Replica;
use std::alloc::Global;
use usfm_ref::Book;

/// The text of a book: the picked texts of its segments in ascending order of keys. It is UTF-8,
/// and cuts back into them.
///
/// # Errors
/// - `NoBook` (82) exactly where the book has no operation.
/// - `Memory` (1) where an allocation failed.
pub fn book_text(alloc: Global, replica: &Replica, book: Book) -> Result<Vec<u8>, TextFault>
    ensures { AnswersText replica.now.held book result }
{
    let mut sink = StdSink::new(Vec::new(alloc));
    match write_book(replica, book, &mut sink) {
        Ok(()) => Ok(sink.into_inner()),
        Err(ExportFault::NoBook) => Err(TextFault::NoBook),
        Err(ExportFault::WriteFailed { gone: _ }) => Err(TextFault::Memory),
    }
}

/// Writes the text of a book to a sink: the picked texts of its segments in ascending order of
/// keys, in one walk over these. It does not allocate.
///
/// # Errors
/// - `NoBook` (82) exactly where the book has no operation. Nothing was written.
/// - `WriteFailed` (90) where the sink answers an error, of whatever kind, or takes 0 bytes, with
///   the bytes that were written: they are the front of the book of that length. No write is tried
///   again.
pub fn write_book<W: ByteSink>(
    replica: &Replica,
    book: Book,
    sink: &mut W,
) -> Result<(), ExportFault>
    ensures answers { AnswersBook replica.now.held book (W.taken sink.old)
        (W.taken sink.new) result }
    ensures is_book { OnOk result
        (IsBookOf replica.now.held book (exports.export replica.now.held book)) }
    ensures failed { W.failures sink.new ≡ sink_failures result (W.failures sink.old) }
{
    if !has_book(replica, book) {
        return Err(ExportFault::NoBook);
    }
    write_keys(replica, book, sink)?;
    Ok(())
}

// Whether the replica has an operation of the book.
fn has_book(replica: &Replica, book: Book) -> bool
    ensures has { result ≡ exports.has_book replica.now.held book }
    ensures set { IsOpSet replica.now.held }
{
    // The name shows that the replica holds a set.
    let _ = replica.name();
    replica.keys(book).next().is_some()
}

// Writes the picked texts of the book's segments by rising key. It does not allocate.
fn write_keys<W: ByteSink>(replica: &Replica, book: Book, sink: &mut W) -> Result<(), WriteFault>
    ensures all { OnOk result
        (Appends (W.taken sink.old) (W.taken sink.new) (exports.export replica.now.held book)) }
    ensures front { IfErr result (λ fault.
        TakesFront (W.taken sink.old) (W.taken sink.new) (exports.export replica.now.held book)
        0 fault.gone) }
    ensures failed { W.failures sink.new ≡ failures_after result (W.failures sink.old) }
{
    let mut gone = 0;
    let mut cursor = replica.set().cursor();
    for key in exported_keys(replica, book) {
        gone = write_picked(sink, gone, cursor.pick(book, key))?;
    }
    Ok(())
}

// Writes a picked text of a book of which `gone` bytes are written, and answers how many are then.
fn write_picked<W: ByteSink>(sink: &mut W, gone: u64, choice: Picked<'_>) -> Result<u64, WriteFault>
    ensures all { IfOk result (λ total.
        TakesAll (W.taken sink.old) (W.taken sink.new) (picked_text (picked choice.entry))
        gone total) }
    ensures front { IfErr result (λ fault.
        TakesFront (W.taken sink.old) (W.taken sink.new) (picked_text (picked choice.entry))
        gone fault.gone) }
    ensures failed { W.failures sink.new ≡ failures_after result (W.failures sink.old) }
{
    match choice {
        // What is picked is shown, so it has its text.
        Picked::Held(op) => write_more(sink, gone, op.text_or_empty().as_bytes()),
        Picked::ChapterLine(chapter) => write_more(sink, gone, chapter_line(chapter).bytes()),
        Picked::Nothing => Ok(gone),
    }
}
