// How the files of books are named that have none.
ghost use Rattle.std.specs.Prelude.{◌≡◌, ◌++◌, IfOk, IsTrue, is_some, map, option_map, string_bytes};
ghost use Rattle.std.specs.List.{find};
ghost use Rattle.usfm_ref.specs.Books.{is_book_code};
ghost use Rattle.book_folder.specs.Files.{files_view};
ghost use Rattle.book_folder.specs.Naming as naming;
ghost use Rattle.book_folder.specs.Refusals.{AnswersBy};
ghost use Rattle.book_folder.specs.Wanted.{named_view, seen_view, wishes_view};

use crate::files::{may_be_book, text_if};
use crate::folder::FolderIndex;
use crate::names::{BookName, names_had};
use crate::numbers::{NUMBERS, Numbered, number_of};
use crate::refusal::{FolderFault, Place, Refusal};
use crate::seen::{Named, Wishes};
use std::alloc::{AllocError, Global};
use usfm_ref::Book;

const DEFAULT_END: &str = ".usfm";

// How a name is made of a book: with the book's number before its code, or without, and with this
// end.
#[derive(Clone, Copy, Debug)]
pub(crate) struct Form<'a> {
    pub(crate) has_number: bool,
    pub(crate) end: &'a str,
}

impl Form<'_> {
    fn is_same(&self, other: &Form<'_>) -> bool
        ensures { let own = naming.form_view self.now in
            result ≡ naming.same_form own (naming.form_view other.now) }
    {
        self.has_number == other.has_number && self.end == other.end
    }
}

// How files are named that have no name: as is asked for; else as all others are, if these are named
// in one way; else `CODE.usfm`.
pub(crate) fn form_of<'a>(
    alloc: Global,
    folder: &FolderIndex<'_, 'a>,
    wishes: &'a Wishes,
) -> Result<Form<'a>, Refusal>
    ensures { AnswersBy naming.form_view (naming.form_of (seen_view folder.now.seen)
        (files_view folder.now.files.now) (wishes_view wishes.now)) result }
{
    let asked = asked(wishes)?;
    let names = names_had(alloc, folder)?;
    let default = Form {
        has_number: false,
        end: DEFAULT_END,
    };
    Ok(asked.or(common_form(&names)).unwrap_or(default))
}

/// The first of the names of books' files that has another form than a name which is asked for: new
/// files are not named so any more. None where there is none, and where the name that is asked for
/// does not say a form. It does not allocate.
pub fn left_name<'a>(names: &'a [Named], name: &str) -> Option<&'a str>
    ensures { option_map (λ n. n.now) result
        ≡ naming.left_name (map named_view names.now) name.now }
{
    match asked_form(name) {
        Some(form) => first_left(names, &form),
        None => None,
    }
}

// The first name that has another form.
fn first_left<'a>(names: &'a [Named], form: &Form<'_>) -> Option<&'a str>
    ensures { option_map (λ n. n.now) result ≡ option_map (λ n. n.name)
        (find (naming.is_left (naming.form_view form.now)) (map named_view names.now)) }
{
    let mut left = names;
    'names: while let [named, later @ ..] = left {
        match form_in(named.book, &named.name) {
            Some(other) if !form.is_same(&other) => return Some(&named.name),
            _ => left = later,
        }
    }
    None
}

// The form that all names have, if they have one.
fn common_form<'a>(names: &[BookName<'a>]) -> Option<Form<'a>>
    ensures { option_map naming.form_view result
        ≡ naming.common_form (map naming.book_name_view names.now) }
{
    let [first, later @ ..] = names else {
        return None;
    };
    let form = form_in(first.book, first.name)?;
    if have_form(later, &form) {
        Some(form)
    } else {
        None
    }
}

// Whether all names have a form.
fn have_form(names: &[BookName<'_>], form: &Form<'_>) -> bool
    ensures { result ≡ naming.have_form (map naming.book_name_view names.now)
        (naming.form_view form.now) }
{
    let mut left = names;
    'names: while let [named, later @ ..] = left {
        match form_in(named.book, named.name) {
            Some(other) if form.is_same(&other) => left = later,
            _ => return false,
        }
    }
    true
}

// The form of a book's name.
fn form_in<'a>(book: Book, name: &'a str) -> Option<Form<'a>>
    ensures { option_map naming.form_view result ≡ naming.form_in book name.now }
{
    if let Some(end) = after_code(book, name) {
        return Some(Form {
            has_number: false,
            end,
        });
    }
    let end = after_number(book, name)?;
    Some(Form {
        has_number: true,
        end,
    })
}

// What follows a book's number and its code at the front of a name.
fn after_number(book: Book, name: &str) -> Option<&str>
    ensures { option_map (λ end. end.now) result
        ≡ naming.after_number (naming.number_of book) book name.now }
{
    let code = book.code();
    after_both(number_of(book)?, code_text(&code), name)
}

// What follows a book's code at the front of a name.
fn after_code(book: Book, name: &str) -> Option<&str>
    ensures { option_map (λ end. end.now) result ≡ naming.after book name.now }
{
    let code = book.code();
    after_front(code_text(&code), name)
}

// A book's code as a text.
fn code_text(code: &[u8; 3]) -> &str
    requires { IsTrue (is_book_code code.now) }
    ensures { result.now ≡ code.now }
{
    text_if(code).unwrap()
}

/// Whether a name says how new files are to be named: it may be that of a book's file, and begins
/// with a number and its book's code, or with the code of a book that has a number. It does not
/// allocate.
pub fn says_form(name: &str) -> bool
    ensures { result ≡ is_some (naming.asked_form name.now) }
{
    asked_form(name).is_some()
}

// The form that is asked for, if one is.
fn asked(wishes: &Wishes) -> Result<Option<Form<'_>>, Refusal>
    ensures { AnswersBy (option_map naming.form_view)
        (naming.asked (option_map string_bytes wishes.now.form)) result }
{
    let Some(name) = &wishes.form else {
        return Ok(None);
    };
    match asked_form(name) {
        Some(form) => Ok(Some(form)),
        None => Err(Refusal::Of(Place::Form, FolderFault::BadForm)),
    }
}

// The form of a name that is asked for: of whatever book it is, with its number or without. It
// begins so, or it has no form: after a number of another book, or of none, it is not known how the
// others are to be numbered.
fn asked_form(name: &str) -> Option<Form<'_>>
    ensures { option_map naming.form_view result ≡ naming.asked_form name.now }
{
    if may_be_asked(name) {
        numbered_form(name)
    } else {
        None
    }
}

// Whether a file of this name may be a book's in the folder, and the name is one line.
fn may_be_asked(name: &str) -> bool
    ensures { result ≡ naming.may_be_asked name.now }
{
    may_be_book(name) && !has_byte(name, b'/') && !has_byte(name, b'\n')
}

// The form of a name that begins with a number and its book's code, or with the code of a book that
// has a number.
fn numbered_form(name: &str) -> Option<Form<'_>>
    ensures { option_map naming.form_view result ≡ naming.form_by naming.numbers name.now }
{
    form_by(&NUMBERS, name)
}

// The same by a table of numbers.
fn form_by<'a>(table: &[Numbered], name: &'a str) -> Option<Form<'a>>
    ensures { option_map naming.form_view result
        ≡ naming.form_by (map naming.numbered_view table.now) name.now }
{
    if let Some(end) = after_a_number(table, name) {
        return Some(Form {
            has_number: true,
            end,
        });
    }
    let end = after_a_code(table, name)?;
    Some(Form {
        has_number: false,
        end,
    })
}

// Whether a name has a byte.
pub(crate) fn has_byte(name: &str, byte: u8) -> bool
    ensures { result ≡ naming.has_byte byte name.now }
{
    name.as_bytes().contains(&byte)
}

// What follows a number and its book's code at the front of a name.
fn after_a_number<'a>(table: &[Numbered], name: &'a str) -> Option<&'a str>
    ensures { option_map (λ end. end.now) result
        ≡ naming.after_one
        (map naming.number_and_code (map naming.numbered_view table.now)) name.now }
{
    let mut left = table;
    'numbers: while let [(number, code), later @ ..] = left {
        if let Some(end) = after_both(number, code, name) {
            return Some(end);
        }
        left = later;
    }
    None
}

// What follows the code of a book that has a number at the front of a name.
fn after_a_code<'a>(table: &[Numbered], name: &'a str) -> Option<&'a str>
    ensures { option_map (λ end. end.now) result
        ≡ naming.after_one (map naming.code_alone (map naming.numbered_view table.now)) name.now }
{
    let mut left = table;
    'numbers: while let [(_, code), later @ ..] = left {
        if let Some(end) = after_front(code, name) {
            return Some(end);
        }
        left = later;
    }
    None
}

// What follows one text and then another one at the front of a name.
#[tactic(auto, using(crate::proofs::Fronts::after_append))]
fn after_both<'a>(first: &str, second: &str, name: &'a str) -> Option<&'a str>
    ensures { option_map (λ end. end.now) result ≡ naming.after (first.now ++ second.now) name.now }
{
    after_front(second, after_front(first, name)?)
}

// What follows a text at the front of a name.
fn after_front<'a>(front: &str, name: &'a str) -> Option<&'a str>
    ensures { option_map (λ end. end.now) result ≡ naming.after front.now name.now }
{
    name.strip_prefix(front)
}

// The name of the file of a book that has none. Where something stands under it, the folder is
// refused.
pub(crate) fn free_name(
    alloc: Global,
    folder: &FolderIndex<'_, '_>,
    form: &Form<'_>,
    book: Book,
) -> Result<String, Refusal>
    ensures { AnswersBy string_bytes (naming.free_name (seen_view folder.now.seen)
        (naming.form_view form.now) book) result }
{
    let name = name_for(alloc, folder, form, book)?;
    match folder.place_of(&name) {
        Some(place) => Err(Refusal::Of(place, FolderFault::NameTaken)),
        None => Ok(name),
    }
}

// The name of the file of a book that has none: the one that was written down of it alone; else a
// new one, as a form has it. So no two new files get one name.
fn name_for(
    alloc: Global,
    folder: &FolderIndex<'_, '_>,
    form: &Form<'_>,
    book: Book,
) -> Result<String, AllocError>
    ensures { let names = map named_view folder.now.seen.names.now in
        IfOk result (λ name.
        string_bytes name ≡ naming.name_for names (naming.form_view form.now) book) }
{
    if let Some(name) = folder.name_of(book) {
        if !is_of_another(alloc, form, book, name)? {
            return String::from_str(alloc, name);
        }
    }
    name_by(alloc, form, book)
}

// Whether a name is the one that a form makes of another book.
fn is_of_another(alloc: Global, form: &Form<'_>, book: Book, name: &str) -> Result<bool, AllocError>
    ensures { IfOk result (λ is. is
        ≡ naming.is_of_another (naming.form_view form.now) book name.now) }
{
    let bytes = name.as_bytes();
    let is_first = is_made_of(alloc, form, book, name, book_at(bytes))?;
    Ok(is_first || is_made_of(alloc, form, book, name, book_after_two(bytes))?)
}

// Whether a name is the one that a form makes of another book than this one.
fn is_made_of(
    alloc: Global,
    form: &Form<'_>,
    book: Book,
    name: &str,
    other: Option<Book>,
) -> Result<bool, AllocError>
    ensures { IfOk result (λ is. is
        ≡ naming.is_made_of (naming.form_view form.now) book name.now other) }
{
    match other {
        Some(other) if other != book => Ok(name_by(alloc, form, other)?.as_str() == name),
        _ => Ok(false),
    }
}

// The book whose code a text begins with.
fn book_at(text: &[u8]) -> Option<Book>
    ensures { result ≡ naming.book_at text.now }
{
    match text {
        [a, b, c, ..] => Book::of_code([*a, *b, *c]),
        _ => None,
    }
}

// The book whose code a text has after two bytes, as after a number.
fn book_after_two(text: &[u8]) -> Option<Book>
    ensures { result ≡ naming.book_after_two text.now }
{
    match text {
        [_, _, rest @ ..] => book_at(rest),
        _ => None,
    }
}

// The name that a form makes of a book.
fn name_by(alloc: Global, form: &Form<'_>, book: Book) -> Result<String, AllocError>
    ensures { IfOk result (λ name. string_bytes name
        ≡ naming.name_by (naming.form_view form.now) book) }
{
    let mut name = String::new(alloc);
    if form.has_number {
        name.push_str(number_of(book).unwrap_or(""))?;
    }
    let code = book.code();
    name.push_str(code_text(&code))?;
    name.push_str(form.end)?;
    Ok(name)
}
