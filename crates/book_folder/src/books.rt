// The new files of a project's books.
ghost use Rattle.std.specs.Prelude.{◌≡◌, IfOk, IsUtf8, Some, is_some, map, option_map};
ghost use Rattle.std.specs.Option.{IfSome};
ghost use Rattle.op_core.specs.Export.{export};
ghost use Rattle.book_folder.specs.Files.{file_view, files_view};
ghost use Rattle.book_folder.specs.Likes.{line_ends};
ghost use Rattle.book_folder.specs.Naming.{form_view};
ghost use Rattle.book_folder.specs.Plans as plans;
ghost use Rattle.book_folder.specs.Refusals.{AnswersBy};
ghost use Rattle.book_folder.specs.Wanted.{seen_view};

use crate::files::{BookFile, book_begun, is_same_book};
use crate::folder::FolderIndex;
use crate::likes::{LineEnds, is_like};
use crate::naming::{Form, free_name};
use crate::plan::NewFile;
use crate::refusal::Refusal;
use crate::restored::in_manner_of;
use crate::taking::export_of;
use replica_state::Replica;
use std::alloc::{AllocError, Global};
use usfm_ref::Book;
use usfm_token::read_text;

// The books of a project, as they get files.
#[derive(Debug, Drop)]
pub(crate) struct FiledBooks {
    // Those that get none, since the project does not have their heads.
    pub(crate) headless: Vec<Book>,
    // The new files of the others, where they are not like those that are there.
    pub(crate) made: Vec<NewFile>,
}

// The new files of the books of which the project has the head, where they are not like those that
// are there; and the books that get none. Each book's text is made once.
pub(crate) fn file_books(
    alloc: Global,
    folder: &FolderIndex<'_, '_>,
    replica: &Replica,
    form: &Form<'_>,
) -> Result<FiledBooks, Refusal>
    ensures made { let files = files_view folder.now.files.now in
        AnswersBy (λ filed. map plans.new_file_view filed.made.items) (plans.new_files
        (seen_view folder.now.seen) replica.now.held files (form_view form.now)) result }
    ensures headless { IfOk result (λ filed.
        filed.headless.items ≡ plans.headless replica.now.held) }
{
    let mut headless = Vec::new(alloc);
    let mut made = Vec::new(alloc);
    for book in replica.books() {
        match whole_text(alloc, replica, book)? {
            Some(text) => {
                if let Some(file) = file_by_text(alloc, folder, form, book, text)? {
                    made.push(file)?;
                }
            }
            None => headless.push(book)?,
        }
    }
    Ok(FiledBooks { headless, made })
}

// The new file of a book, if it is to get one.
pub(crate) fn new_file(
    alloc: Global,
    folder: &FolderIndex<'_, '_>,
    replica: &Replica,
    form: &Form<'_>,
    book: Book,
) -> Result<Option<NewFile>, Refusal>
    ensures { let files = files_view folder.now.files.now in
        AnswersBy (option_map plans.new_file_view) (plans.new_file_if (seen_view folder.now.seen)
        replica.now.held files (form_view form.now) book) result }
{
    match whole_text(alloc, replica, book)? {
        Some(text) => file_by_text(alloc, folder, form, book, text),
        None => Ok(None),
    }
}

// The new file of a book by its text, unless the file that it has is like that.
fn file_by_text(
    alloc: Global,
    folder: &FolderIndex<'_, '_>,
    form: &Form<'_>,
    book: Book,
    text: Vec<u8>,
) -> Result<Option<NewFile>, Refusal>
    requires text { IsUtf8 text.items }
    ensures { let files = files_view folder.now.files.now in
        AnswersBy (option_map plans.new_file_view) (plans.file_by_text (seen_view folder.now.seen)
        files (form_view form.now) book text.items) result }
{
    let Some(file) = folder.file_of(book) else {
        let name = free_name(alloc, folder, form, book)?;
        return Ok(Some(NewFile {
            book,
            name,
            text,
            replaces: None,
        }));
    };
    if is_like(&text, file.bytes) {
        return Ok(None);
    }
    let name = String::from_str(alloc, file.name)?;
    let text = text_for(alloc, file, book, text)?;
    let replaces = Some(file.at);
    Ok(Some(NewFile {
        book,
        name,
        text,
        replaces,
    }))
}

// The text of a book that begins with its `\id`, so that it can have a file.
fn whole_text(alloc: Global, replica: &Replica, book: Book) -> Result<Option<Vec<u8>>, AllocError>
    ensures whole { IfOk result (λ text. is_some text ≡ plans.is_whole replica.now.held book) }
    ensures bytes { IfOk result
        (λ text. IfSome text (λ t. t.items ≡ export replica.now.held book)) }
    ensures text { IfOk result (λ text. IfSome text (λ t. IsUtf8 t.items)) }
{
    let Some(text) = export_of(alloc, replica, book)? else {
        return Ok(None);
    };
    if is_book(book_begun(&text), book) {
        Ok(Some(text))
    } else {
        Ok(None)
    }
}

// Whether the project has a book's head, so that it can have a file.
pub(crate) fn is_whole(alloc: Global, replica: &Replica, book: Book) -> Result<bool, AllocError>
    ensures { IfOk result (λ is. is ≡ plans.is_whole replica.now.held book) }
{
    Ok(whole_text(alloc, replica, book)?.is_some())
}

// Whether a book that was read is this one.
pub(crate) fn is_book(read: Option<Book>, book: Book) -> bool
    ensures { result ≡ plans.is_book read book }
{
    match read {
        Some(read) => is_same_book(read, book),
        None => false,
    }
}

// A book's text in the manner of the file that it replaces, where that is known; as it is where the
// book would not be known by it any more.
fn text_for(
    alloc: Global,
    file: &BookFile<'_>,
    book: Book,
    text: Vec<u8>,
) -> Result<Vec<u8>, AllocError>
    requires text { IsUtf8 text.items }
    ensures { IfOk result (λ made.
        made.items ≡ plans.text_for (Some (file_view file.now)) book text.items) }
{
    let made = in_manner_of_file(alloc, file, &text)?;
    if is_book(book_begun(&made), book) {
        Ok(made)
    } else {
        Ok(text)
    }
}

// A book's text in the manner of a file, where that is known.
fn in_manner_of_file(alloc: Global, file: &BookFile<'_>, text: &[u8]) -> Result<Vec<u8>, AllocError>
    requires text { IsUtf8 text.now }
    ensures { IfOk result (λ made. made.items
        ≡ plans.by_ends (line_ends file.now.bytes.now) file.now.bytes.now text.now) }
{
    match (LineEnds::of(file.bytes), read_text(text)) {
        (LineEnds::Lf | LineEnds::CrLf, Ok(now)) => {
            Ok(in_manner_of(alloc, file.bytes, now)?.into_bytes())
        }
        _ => text.to_vec(alloc),
    }
}
