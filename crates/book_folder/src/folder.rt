// What was read of a folder, each book's file and name found under the book, and what stands under
// each name found under the name: so it costs little to ask for each of however many.
ghost use Rattle.std.specs.Prelude.{◌≡◌, IfOk, None, OnOk, map, option_map};
ghost use Rattle.book_folder.specs.ByBook.{HasFirsts};
ghost use Rattle.book_folder.specs.Files as which;
ghost use Rattle.book_folder.specs.Folder as folders;
ghost use Rattle.book_folder.specs.Refusals.{AnswersBy};
ghost use Rattle.book_folder.specs.Wanted.{found_view, named_view, seen_view};

use crate::by_book::{put, under};
use crate::files::BookFile;
use crate::refusal::{FolderFault, Place, Refusal};
use crate::seen::{FoundFile, Named, Seen};
use std::alloc::{AllocError, Global};
use std::collections::BTreeMap;
use usfm_ref::Book;

// What was read of a folder, with what is found in it.
#[derive(Drop)]
pub(crate) struct FolderIndex<'f, 'a> {
    pub(crate) seen: Seen<'a>,
    // The files of books, in the order of their names.
    pub(crate) files: &'f [BookFile<'a>],
    twins: Option<Twins<'f, 'a>>,
    by_book: BTreeMap<Book, &'f BookFile<'a>>,
    names: BTreeMap<Book, &'a Named>,
    places: BTreeMap<&'a str, Place>,
    ghost twins_found: { folders.AreTwins (which.files_view files.now) twins },
    ghost files_found: { HasFirsts (λ f. which.file_view f.now) (λ f. f.book)
        (which.files_view files.now) by_book },
    ghost names_found: { HasFirsts (λ n. named_view n.now) (λ n. n.book)
        (map named_view seen.names.now) names },
    ghost places_found: { folders.HasPlaces (seen_view seen) places },
}

impl<'f, 'a> FolderIndex<'f, 'a> {
    // What was read of a folder, with its books' files.
    pub(crate) fn new(
        alloc: Global,
        seen: &Seen<'a>,
        files: &'f [BookFile<'a>],
    ) -> Result<FolderIndex<'f, 'a>, AllocError>
        ensures files { IfOk result (λ folder. folder.files.now ≡ files.now) }
        ensures seen { IfOk result (λ folder. folder.seen ≡ seen.now) }
    {
        let ByBook { firsts, twins } = files_by_book(alloc, files)?;
        Ok(FolderIndex {
            seen: *seen,
            files,
            twins,
            by_book: firsts,
            names: names_by_book(alloc, seen.names)?,
            places: places_by_name(alloc, seen)?,
        })
    }

    // The first file of a book, if there is one.
    pub(crate) fn file_of(&self, book: Book) -> Option<&BookFile<'a>>
        ensures { option_map (λ f. which.file_view f.now) result
            ≡ which.file_of (which.files_view self.now.files.now) book }
    {
        match under(&self.by_book, book) {
            Some(file) => Some(file),
            None => None,
        }
    }

    // The name that was written down of a book's file, if one was.
    pub(crate) fn name_of(&self, book: Book) -> Option<&str>
        ensures { option_map (λ name. name.now) result
            ≡ which.name_of (map named_view self.now.seen.names.now) book }
    {
        match under(&self.names, book) {
            Some(named) => Some(&named.name),
            None => None,
        }
    }

    // What stands under a name.
    pub(crate) fn place_of(&self, name: &str) -> Option<Place>
        ensures { result ≡ which.place_of (seen_view self.now.seen) name.now }
    {
        self.places.get(name).copied()
    }
}

// A file, and the first later one of its book.
#[derive(Clone, Copy, Debug)]
struct Twins<'f, 'a> {
    file: &'f BookFile<'a>,
    later: &'f BookFile<'a>,
}

// The first file of each book, found under the book, and the first file of which a later one is of
// its book.
#[derive(Drop)]
struct ByBook<'f, 'a> {
    firsts: BTreeMap<Book, &'f BookFile<'a>>,
    twins: Option<Twins<'f, 'a>>,
}

// Files by their books.
fn files_by_book<'f, 'a>(
    alloc: Global,
    files: &'f [BookFile<'a>],
) -> Result<ByBook<'f, 'a>, AllocError>
    ensures firsts { let view = which.files_view files.now in
        IfOk result (λ made.
        HasFirsts (λ f. which.file_view f.now) (λ f. f.book) view made.firsts) }
    ensures twins { let view = which.files_view files.now in
        IfOk result (λ made. folders.AreTwins view made.twins) }
{
    let mut firsts = BTreeMap::new(alloc);
    let mut twins = None;
    let mut left = files;
    'files: while let [earlier @ .., file] = left {
        // Of several of one book, the first one is put last, and stays.
        if let Some(later) = put(&mut firsts, file.book, file)? {
            twins = Some(Twins { file, later });
        }
        left = earlier;
    }
    Ok(ByBook { firsts, twins })
}

// Names that were written down, by their books.
fn names_by_book<'a>(
    alloc: Global,
    names: &'a [Named],
) -> Result<BTreeMap<Book, &'a Named>, AllocError>
    ensures { IfOk result (λ firsts.
        HasFirsts (λ n. named_view n.now) (λ n. n.book) (map named_view names.now) firsts) }
{
    let mut firsts = BTreeMap::new(alloc);
    let mut left = names;
    'names: while let [earlier @ .., named] = left {
        put(&mut firsts, named.book, named)?;
        left = earlier;
    }
    Ok(firsts)
}

// What stands under each name: a file, or else something else.
fn places_by_name<'a>(
    alloc: Global,
    seen: &Seen<'a>,
) -> Result<BTreeMap<&'a str, Place>, AllocError>
    ensures { IfOk result (λ places. folders.HasPlaces (seen_view seen.now) places) }
{
    let mut places = BTreeMap::new(alloc);
    put_others(&mut places, seen.others)?;
    put_files(&mut places, seen.files)?;
    Ok(places)
}

// Puts what else stands under names.
fn put_others<'a>(
    places: &mut BTreeMap<&'a str, Place>,
    others: &[&'a str],
) -> Result<(), AllocError>
    requires { folders.HasNone places.old }
    ensures { OnOk result (folders.HasOthers (map (λ name. name.now) others.now) places.new) }
{
    let mut left = others;
    'others: while let [earlier @ .., name] = left {
        put_place(places, name, Place::Other(earlier.len()))?;
        left = earlier;
    }
    Ok(())
}

// Puts files over it.
fn put_files<'a>(
    places: &mut BTreeMap<&'a str, Place>,
    files: &[FoundFile<'a>],
) -> Result<(), AllocError>
    ensures { OnOk result (folders.HasFilesOver places.old (map found_view files.now) places.new) }
{
    let mut left = files;
    'files: while let [earlier @ .., found] = left {
        put_place(places, found.name, Place::File(earlier.len()))?;
        left = earlier;
    }
    Ok(())
}

// Puts a place under a name.
fn put_place<'a>(
    places: &mut BTreeMap<&'a str, Place>,
    name: &'a str,
    place: Place,
) -> Result<(), AllocError>
    ensures { OnOk result (folders.PutsPlace places.old name.now place places.new) }
{
    match places.insert(name, place) {
        Ok(_) => Ok(()),
        Err(_) => Err(AllocError),
    }
}

// A folder in which it is known which file is which book's.
pub(crate) fn clear_folder<'f, 'a>(
    alloc: Global,
    seen: &Seen<'a>,
    files: &'f [BookFile<'a>],
) -> Result<FolderIndex<'f, 'a>, Refusal>
    requires { which.files_view files.now ≡ which.files_from 0 (seen_view seen.now).files }
    ensures files { AnswersBy (λ folder. which.files_view folder.files.now)
        (which.clear_files (seen_view seen.now)) result }
    ensures seen { IfOk result (λ folder. folder.seen ≡ seen.now) }
{
    let folder = FolderIndex::new(alloc, seen, files)?;
    match unclear(&folder) {
        Some(UnclearFile { place, fault }) => Err(Refusal::Of(place, fault)),
        None => Ok(folder),
    }
}

// Why it is not known which file is a book's, and what is to be named.
#[derive(Clone, Copy, Debug, Drop)]
struct UnclearFile {
    place: Place,
    fault: FolderFault,
}

// A second file of a book, beside the book's other file.
fn second_of(at: usize, other: usize) -> UnclearFile
    ensures { result ≡ which.second_of at other }
{
    UnclearFile {
        place: Place::File(at),
        fault: FolderFault::SecondOf(other),
    }
}

// What stands under the name of a book's file and is no longer that.
fn changed_at(place: Place) -> UnclearFile
    ensures { result ≡ which.changed_at place }
{
    UnclearFile {
        place,
        fault: FolderFault::FileChanged,
    }
}

// What is refused of a folder in which it is not known which file is a book's: there are two; or
// under the name of a book's file stands what is no longer that book's, so that its text would be
// lost from sight and the book written anew beside it.
fn unclear(folder: &FolderIndex<'_, '_>) -> Option<UnclearFile>
    ensures { result
        ≡ which.unclear (seen_view folder.now.seen) (which.files_view folder.now.files.now) }
{
    match &folder.twins {
        Some(twins) => Some(second_file(folder, twins)),
        None => lost(folder).map(changed_at),
    }
}

// Of two files of a book, the one that is not written down as the book's; of two that are not, the
// later one.
fn second_file(folder: &FolderIndex<'_, '_>, twins: &Twins<'_, '_>) -> UnclearFile
    ensures { result ≡ folders.second_in (map named_view folder.now.seen.names.now) twins.now }
{
    let Twins { file, later } = twins;
    if is_name(folder.name_of(file.book), later.name) {
        second_of(file.at, later.at)
    } else {
        second_of(later.at, file.at)
    }
}

// Whether a name is the one that was written down.
fn is_name(written: Option<&str>, name: &str) -> bool
    ensures { result ≡ which.is_name (option_map (λ w. w.now) written.entry) name.now }
{
    match written {
        Some(written) => written == name,
        None => false,
    }
}

// What stands under the first name that was written down and is no longer its book's file.
fn lost(folder: &FolderIndex<'_, '_>) -> Option<Place>
    requires { let names = map named_view folder.now.seen.names.now in
        which.second_file names (which.files_view folder.now.files.now) ≡ None }
    ensures { let files = which.files_view folder.now.files.now in
        let view = seen_view folder.now.seen in result ≡ which.lost view files view.names }
{
    let mut left = folder.seen.names;
    'names: while let [named, later @ ..] = left {
        if !is_still(folder, named) {
            if let Some(place) = folder.place_of(&named.name) {
                return Some(place);
            }
        }
        left = later;
    }
    None
}

// Whether a name that was written down is still that of its book's file. No book has two files.
fn is_still(folder: &FolderIndex<'_, '_>, named: &Named) -> bool
    requires { let names = map named_view folder.now.seen.names.now in
        which.second_file names (which.files_view folder.now.files.now) ≡ None }
    ensures { result
        ≡ which.is_still (which.files_view folder.now.files.now) (named_view named.now) }
{
    match folder.file_of(named.book) {
        Some(file) => file.name == named.name.as_str(),
        None => false,
    }
}
