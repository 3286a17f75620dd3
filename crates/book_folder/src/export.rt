// What an export into a folder does, as a plan.
ghost use Rattle.std.specs.Prelude.{◌≡◌, [], IfOk, map, option_map};
ghost use Rattle.std.specs.List.{list_all};
ghost use Rattle.std.specs.Option.{option_copied};
ghost use Rattle.op_core.specs.Export as export;
ghost use Rattle.op_core.specs.Ops.{agree, in_segment, texts_agree};
ghost use Rattle.op_core.specs.Sets as sets;
ghost use Rattle.book_folder.specs.Exports as exports;
ghost use Rattle.book_folder.specs.Files.{file_view, files_view};
ghost use Rattle.book_folder.specs.Naming.{form_view};
ghost use Rattle.book_folder.specs.Plans as plans;
ghost use Rattle.book_folder.specs.Refusals.{AnswersBy, gathered};
ghost use Rattle.book_folder.specs.Wanted.{seen_view, wishes_view};

use crate::bases::{OwnFiles, other_base};
use crate::begun::{base_of, join, ops_of, project_of};
use crate::books::{is_whole, new_file};
use crate::by_book::SomeBooks;
use crate::files::{BookFile, book_files, is_same_book};
use crate::folder::{FolderIndex, clear_folder};
use crate::likes::is_like;
use crate::names::other_names;
use crate::naming::{Form, form_of};
use crate::plan::{NewFile, Plan, Told, push_recovery, push_steps};
use crate::refusal::{FolderFault, Place, Refusal};
use crate::seen::{Seen, Wishes};
use crate::taking::{export_of, has_book};
use op_core::Op;
use replica_state::Replica;
use std::alloc::{AllocError, Global};
use usfm_ref::Book;

// What an export goes by: the folder, the project, what the files were written from, and how new
// ones are named.
#[derive(Clone, Copy)]
struct Sources<'s, 'f, 'a> {
    folder: &'s FolderIndex<'f, 'a>,
    replica: &'s Replica,
    base: &'s Replica,
    form: &'s Form<'a>,
}

// Books, parted into those that get a file and those that do not.
#[derive(Debug, Drop)]
struct Parted {
    filed: Vec<Book>,
    headless: Vec<Book>,
}

/// Plans what an export into a folder does: the books that are named, all where none is, go into
/// their files; the project stays as it is.
///
/// # Errors
/// The first of these, and of what; nothing is to be done then.
/// - `Project` where the project's file is none.
/// - `FileChanged` of a second file of a book, and of what stands under the name of a book's file
///   and is no longer that book's.
/// - `Bundle` and `Clash` of what the files were written from.
/// - `NoBook` where the project has no operation of a book that is named.
/// - `BadForm` where the name that is to say how files are named does not.
/// - `NameTaken` of what stands where a new file is to be put; and `FileChanged` of a file that is
///   not like its book's text and was changed since it was written, or was written from an operation
///   that the project does not have.
/// - `Bundle` and `Clash`, of the project, where no base can be made of what it shows.
/// - `Memory` where an allocation failed.
pub fn export_plan<'a>(
    alloc: Global,
    seen: &Seen<'a>,
    wishes: &'a Wishes,
    named: &[Book],
) -> Result<Plan, Refusal>
    ensures { AnswersBy plans.plan_view
        (exports.exported (seen_view seen.now) (wishes_view wishes.now) named.now) result }
{
    let replica = project_of(alloc, seen.project)?;
    let files = book_files(alloc, seen)?;
    let folder = clear_folder(alloc, seen, &files)?;
    export_folder(alloc, &replica, &folder, wishes, named)
}

// The plan of an export into a folder in which it is known which file is which book's.
fn export_folder<'a>(
    alloc: Global,
    replica: &Replica,
    folder: &FolderIndex<'_, 'a>,
    wishes: &'a Wishes,
    named: &[Book],
) -> Result<Plan, Refusal>
    ensures { let files = files_view folder.now.files.now in
        AnswersBy plans.plan_view (exports.exported_with (seen_view folder.now.seen)
        (wishes_view wishes.now) named.now replica.now.held files) result }
{
    let base = base_of(alloc, &folder.seen)?;
    let books = chosen_books(alloc, replica, named)?;
    let form = form_of(alloc, folder, wishes)?;
    let sources = Sources {
        folder,
        replica,
        base: &base,
        form: &form,
    };
    export_books(alloc, &sources, &books)
}

// The plan of an export of some books.
fn export_books(alloc: Global, by: &Sources<'_, '_, '_>, books: &[Book]) -> Result<Plan, Refusal>
    ensures { let files = files_view by.now.folder.now.files.now in
        let form = form_view by.now.form.now in
        AnswersBy plans.plan_view (exports.books_exported (seen_view by.now.folder.now.seen)
        by.now.replica.now.held by.now.base.now.held files form books.now) result }
{
    let Parted { filed, headless } = part_by_head(alloc, by.replica, books)?;
    let made = exported_files(alloc, by, &filed)?;
    let next = exported_base(alloc, by.replica, by.base, &filed)?;
    let names = other_names(alloc, &by.folder.seen, by.folder.files, &made)?;
    let own = own_files(alloc, by, next, names, &made)?;
    Ok(export_steps(alloc, &by.folder.seen, made, own, headless)?)
}

// The books that are named, in the order of books, all where none is named; one of which the
// project has no operation is refused.
fn chosen_books(alloc: Global, replica: &Replica, named: &[Book]) -> Result<Vec<Book>, Refusal>
    ensures { AnswersBy (λ books. books.items) (exports.chosen replica.now.held named.now) result }
{
    if !has_books(replica, named) {
        return Err(Refusal::Of(Place::Project, FolderFault::NoBook));
    }
    let among = SomeBooks::new(alloc, named)?;
    let mut books = Vec::new(alloc);
    for book in replica.books() {
        if named.is_empty() || among.has(book) {
            books.push(book)?;
        }
    }
    Ok(books)
}

// Whether a project has an operation of each of some books.
fn has_books(replica: &Replica, books: &[Book]) -> bool
    ensures { result ≡ list_all (export.has_book replica.now.held) books.now }
{
    let mut left = books;
    'books: while let [book, later @ ..] = left {
        if !has_book(replica, *book) {
            return false;
        }
        left = later;
    }
    true
}

// Books, parted into those of which a project has the head, and those of which it does not.
fn part_by_head(alloc: Global, replica: &Replica, books: &[Book]) -> Result<Parted, AllocError>
    ensures filed { IfOk result (λ parted.
        parted.filed.items ≡ exports.filed replica.now.held books.now) }
    ensures headless { IfOk result (λ parted.
        parted.headless.items ≡ exports.unfiled replica.now.held books.now) }
{
    let mut filed = Vec::new(alloc);
    let mut headless = Vec::new(alloc);
    let mut left = books;
    'books: while let [book, later @ ..] = left {
        if is_whole(alloc, replica, *book)? {
            filed.push(*book)?;
        } else {
            headless.push(*book)?;
        }
        left = later;
    }
    Ok(Parted { filed, headless })
}

// The new files of some books.
fn exported_files(
    alloc: Global,
    by: &Sources<'_, '_, '_>,
    books: &[Book],
) -> Result<Vec<NewFile>, Refusal>
    ensures { let files = files_view by.now.folder.now.files.now in
        let seen = seen_view by.now.folder.now.seen in
        let form = form_view by.now.form.now in
        AnswersBy (λ made. map plans.new_file_view made.items) (gathered (exports.exported_file
        seen by.now.replica.now.held by.now.base.now.held files form) [] books.now) result }
{
    let mut made = Vec::new(alloc);
    let mut left = books;
    'books: while let [book, later @ ..] = left {
        if let Some(file) = exported_file(alloc, by, *book)? {
            made.push(file)?;
        }
        left = later;
    }
    Ok(made)
}

// The new file of a book, if it gets one. The file that it replaces has to be as it was written,
// from what the project has.
#[tactic(auto, unfolding(crate::specs::Exports::exported_file))]
fn exported_file(
    alloc: Global,
    by: &Sources<'_, '_, '_>,
    book: Book,
) -> Result<Option<NewFile>, Refusal>
    ensures { let files = files_view by.now.folder.now.files.now in
        let seen = seen_view by.now.folder.now.seen in
        let form = form_view by.now.form.now in
        AnswersBy (option_map plans.new_file_view) (exports.exported_file
        seen by.now.replica.now.held by.now.base.now.held files form book) result }
{
    let Some(made) = new_file(alloc, by.folder, by.replica, by.form, book)? else {
        return Ok(None);
    };
    let Some(file) = by.folder.file_of(book) else {
        return Ok(Some(made));
    };
    if !is_unchanged(alloc, by.replica, by.base, file, book)? {
        return Err(Refusal::Of(Place::File(file.at), FolderFault::FileChanged));
    }
    Ok(Some(made))
}

// Whether a file is as it was written, from what the project has.
fn is_unchanged(
    alloc: Global,
    replica: &Replica,
    base: &Replica,
    file: &BookFile<'_>,
    book: Book,
) -> Result<bool, AllocError>
    ensures { IfOk result (λ is. is ≡ exports.is_unchanged replica.now.held base.now.held
        (file_view file.now) book) }
{
    Ok(match export_of(alloc, base, book)? {
        Some(was) => is_like(&was, file.bytes) && holds_all(replica, base, book),
        None => false,
    })
}

// Whether a project holds all that a base has of a book, by operations that agree with it.
fn holds_all(replica: &Replica, base: &Replica, book: Book) -> bool
    ensures { result ≡ list_all (exports.is_held_of replica.now.held book) base.now.held }
{
    let mut cursor = replica.set().cursor();
    for op in base.set().iter() {
        if is_same_book(op.book(), book) && !is_held_alike(cursor.find(&op.id()), op) {
            return false;
        }
    }
    true
}

// Whether there is an operation, and it agrees with another one.
pub(crate) fn is_held_alike(held: Option<&Op>, op: &Op) -> bool
    ensures { result ≡ sets.is_like (option_copied held.entry) op.now }
{
    match held {
        Some(held) => do_agree(held, op),
        None => false,
    }
}

// Whether two operations are equal, or equal but for a text that is left out.
fn do_agree(held: &Op, op: &Op) -> bool
    ensures { result ≡ agree held.now op.now }
{
    held.id() == op.id()
        && is_beside(held, op)
        && held.replaced() == op.replaced()
        && do_texts_agree(held.text(), op.text())
}

// Whether an operation is of the segment of another one.
fn is_beside(held: &Op, op: &Op) -> bool
    ensures { result ≡ in_segment held.now.segment op.now }
{
    op.book() == held.book() && op.key() == held.key()
}

// Whether two texts are equal, or one is left out.
fn do_texts_agree(held: Option<&str>, text: Option<&str>) -> bool
    ensures { result ≡ texts_agree (option_map (λ t. t.now) held.entry)
        (option_map (λ t. t.now) text.entry) }
{
    match (held, text) {
        (Some(held), Some(text)) => held.as_bytes() == text.as_bytes(),
        _ => true,
    }
}

// What the base has, but of the books that are exported what the project shows.
fn exported_base(
    alloc: Global,
    replica: &Replica,
    base: &Replica,
    filed: &[Book],
) -> Result<Vec<u8>, Refusal>
    ensures { AnswersBy (λ made. made.items)
        (exports.exported_base replica.now.held base.now.held filed.now) result }
{
    let left = ops_of(alloc, base.set(), filed, false)?;
    let shown = shown_ops(alloc, replica, filed)?;
    join(alloc, Place::Project, &left, &shown)
}

// What some books show.
fn shown_ops<'a>(
    alloc: Global,
    replica: &'a Replica,
    books: &[Book],
) -> Result<Vec<&'a Op>, AllocError>
    ensures { IfOk result (λ ops. map (λ op. op.now) ops.items
        ≡ exports.shown_of books.now replica.now.held) }
{
    let among = SomeBooks::new(alloc, books)?;
    let mut cursor = replica.set().cursor();
    let mut ops = Vec::new(alloc);
    for op in replica.set().iter() {
        if among.has(op.book()) && cursor.shows(op) {
            ops.push(op)?;
        }
    }
    Ok(ops)
}

// Where there are new files, the base as it is, and the next one; else the next one as the base.
fn own_files(
    alloc: Global,
    by: &Sources<'_, '_, '_>,
    next: Vec<u8>,
    names: Option<Vec<u8>>,
    made: &[NewFile],
) -> Result<OwnFiles, AllocError>
    ensures { let seen = seen_view by.now.folder.now.seen in
        IfOk result (λ own. plans.own_view own ≡ exports.own_of seen
        by.now.base.now.held (map plans.new_file_view made.now) next.items
        (option_map (λ b. b.items) names)) }
{
    if made.is_empty() {
        return Ok(OwnFiles {
            base: other_base(&by.folder.seen, next),
            names,
            next: None,
        });
    }
    Ok(OwnFiles {
        base: other_base(&by.folder.seen, by.base.bundle(alloc)?),
        names,
        next: Some(next),
    })
}

// The plan of an export with new files, where some books get none.
fn export_steps(
    alloc: Global,
    seen: &Seen<'_>,
    made: Vec<NewFile>,
    own: OwnFiles,
    headless: Vec<Book>,
) -> Result<Plan, AllocError>
    ensures { IfOk result (λ plan. plans.plan_view plan ≡ exports.export_of (seen_view seen.now)
        headless.items (map plans.new_file_view made.items) (plans.own_view own)) }
{
    let mut steps = Vec::new(alloc);
    push_recovery(&mut steps, seen, None)?;
    push_steps(alloc, &mut steps, made, own, None)?;
    let told = Told {
        base: 0,
        bundles: Vec::new(alloc),
        files: Vec::new(alloc),
        headless,
        conflicts: Vec::new(alloc),
        awaits: false,
    };
    Ok(Plan { steps, told })
}
