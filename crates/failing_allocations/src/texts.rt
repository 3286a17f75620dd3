// Calls on the text of a book.
use crate::play::{Play, Said, said_of};
use crate::told::Told;
use crate::vectors::{GNATS, NESTED, SHEET, TWO_VERSES};
use command_faults::Fault;
use concordance::{find, words};
use segment_check::check;
use std::alloc::Global;
use sty_sheet::Sheet;
use usfm_ref::{Key, Place};
use usfm_token::tokens;
use usfm_tree::Tree;
use verse_cut::cut;

#[derive(Clone, Copy)]
enum Call {
    Tokens,
    Cut,
    Sheet,
    Tree,
    Check,
    Find(&'static str),
    Words,
}

/// A call, its text, and what it gives.
#[derive(Clone, Copy)]
pub(crate) struct Row {
    call: Call,
    text: &'static str,
    wanted: &'static [u8],
}

pub(crate) fn row_of(name: &str) -> Option<Row> {
    let (call, text, wanted): (Call, &'static str, &'static [u8]) = match name {
        "tokens" => (
            Call::Tokens,
            NESTED,
            b"\\p|\\add| a |\\+nd| b|\\+nd*| c|\\add*|\\wj| d|\
              \\f| + |\\ft| e|\\f*| g|\\wj*|\\nd*|\n|",
        ),
        "cut" => (
            Call::Cut,
            TWO_VERSES,
            b"0 0 \\id MAT\n|8 1 \\c 1\n|13 1 3 \\v 3 x\n|20 1 4 \\v 4 y\n|",
        ),
        "sheet" => (Call::Sheet, SHEET, b"id c v p add nd wj w f ft qt-s "),
        "tree" => (Call::Tree, NESTED, b"19 9 \\+nd b\\+nd*"),
        "check" => (Call::Check, NESTED, b"stray-close 51 "),
        "check overlap" => (
            Call::Check,
            "\\id MAT\n\\c 1\n\\v 3-4 xy\n\\v 4 y\n",
            b"overlap 23 ",
        ),
        "find" => (Call::Find("gnat"), GNATS, b"27 1 1 52 1 1 "),
        "find nothing" => (Call::Find("lemma"), GNATS, b""),
        "find of nothing" => (Call::Find(""), GNATS, b"fault 100\n"),
        "words" => (Call::Words, GNATS, b"In 1 1 gnat 1 1 the 1 1 "),
        _ => return None,
    };
    Some(Row { call, text, wanted })
}

impl Row {
    pub(crate) fn said(&self, alloc: Global) -> Said {
        said_of(OnText::begin(alloc, *self), &[self.wanted])
    }
}

// A call with the style sheet that it goes by, where it goes by one.
#[derive(Drop)]
struct OnText {
    alloc: Global,
    row: Row,
    sheet: Sheet<'static>,
}

impl OnText {
    fn begin(alloc: Global, row: Row) -> Result<OnText, Fault> {
        let sheet = match row.call {
            Call::Tokens | Call::Cut | Call::Sheet => "",
            _ => SHEET,
        };
        let sheet = Sheet::read(alloc, sheet)?;
        Ok(OnText { alloc, row, sheet })
    }
}

// The parts of a key, each with a blank after it.
fn push_key(told: &mut Told, key: Key) {
    told.push_number(u64::from(key.chapter));
    if let Place::Verse { number, .. } = key.place {
        told.push_number(u64::from(number));
    }
}

impl Play for OnText {
    fn make(&mut self, told: &mut Told) -> Result<(), Fault> {
        let text = self.row.text;
        match self.row.call {
            Call::Tokens => push_tokens(self.alloc, text, told),
            Call::Cut => push_pieces(self.alloc, text, told),
            Call::Sheet => push_records(self.alloc, text, told),
            Call::Tree => push_tree(self.alloc, text, &self.sheet, told),
            Call::Check => push_findings(self.alloc, text, &self.sheet, told),
            Call::Find(needle) => push_hits(self.alloc, text, &self.sheet, needle, told),
            Call::Words => push_words(self.alloc, text, &self.sheet, told),
        }
    }

    fn is_as_before(&self) -> bool {
        true
    }
}

fn push_tokens(alloc: Global, text: &str, told: &mut Told) -> Result<(), Fault> {
    for token in &tokens(alloc, text)? {
        told.push_text(token.slice());
        told.push_text("|");
    }
    Ok(())
}

fn push_pieces(alloc: Global, text: &str, told: &mut Told) -> Result<(), Fault> {
    for piece in &cut(alloc, text)? {
        told.push_number(piece.start as u64);
        push_key(told, piece.key);
        told.push_text(piece.text);
        told.push_text("|");
    }
    Ok(())
}

fn push_records(alloc: Global, text: &str, told: &mut Told) -> Result<(), Fault> {
    let sheet = Sheet::read(alloc, text)?;
    for style in sheet.iter() {
        told.push_text(style.marker());
        told.push_text(" ");
    }
    Ok(())
}

// How many leaves there are, and where a part starts and what it is; nothing where the leaves do
// not join to the text.
fn push_tree(alloc: Global, text: &str, sheet: &Sheet<'_>, told: &mut Told) -> Result<(), Fault> {
    let tree = Tree::read(alloc, text, sheet)?;
    let mut rest = text.as_bytes();
    let mut count: u64 = 0;
    for leaf in tree.leaves() {
        let Some(left) = rest.strip_prefix(leaf.as_bytes()) else {
            return Ok(());
        };
        rest = left;
        count = count.wrapping_add(1);
    }
    let Some(part) = tree.part(&[0, 0, 1]) else {
        return Ok(());
    };
    if rest.is_empty() {
        told.push_number(count);
        told.push_number(part.start() as u64);
        told.push_text(part.slice());
    }
    Ok(())
}

fn push_findings(
    alloc: Global,
    text: &str,
    sheet: &Sheet<'_>,
    told: &mut Told,
) -> Result<(), Fault> {
    for finding in &check(alloc, text, sheet)? {
        told.push_text(finding.code.name());
        told.push_text(" ");
        told.push_number(finding.start as u64);
    }
    Ok(())
}

fn push_hits(
    alloc: Global,
    text: &str,
    sheet: &Sheet<'_>,
    needle: &str,
    told: &mut Told,
) -> Result<(), Fault> {
    for hit in &find(alloc, text, sheet, needle)? {
        told.push_number(hit.start as u64);
        push_key(told, hit.key);
    }
    Ok(())
}

fn push_words(alloc: Global, text: &str, sheet: &Sheet<'_>, told: &mut Told) -> Result<(), Fault> {
    for word in &words(alloc, text, sheet)? {
        told.push_text(word.form());
        told.push_text(" ");
        for key in word.keys() {
            push_key(told, *key);
        }
    }
    Ok(())
}
