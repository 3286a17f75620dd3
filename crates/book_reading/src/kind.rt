//! What a block is, by the name of its paragraph's mark.

ghost use Rattle.std.specs.Prelude.{◌≡◌};
ghost use Rattle.std.specs.List.{list_any};
ghost use Rattle.std.specs.Str.{bytes_eq};
ghost use Rattle.book_reading.specs.Kinds as kinds;

/// What a block is.
#[derive(Clone, Copy, Debug, PartialEq, Eq)]
pub enum BlockKind {
    /// A chapter begins: the mark `\c`.
    Chapter,
    /// A title or a heading, of this level.
    Heading(u8),
    /// A line of poetry, of this level.
    Poetry(u8),
    /// An item of a list, of this level.
    Item(u8),
    /// It says something of the file or of the book, and is no part of its text.
    About,
    /// Any other paragraph.
    Prose,
}

// A name without the digit of its level.
fn stem_of(name: &str) -> &str
    ensures { result.now ≡ kinds.stem_of name.now }
{
    match name.as_bytes() {
        [.., b'1'..=b'9'] => name.split_at(name.len() - 1).0,
        _ => name,
    }
}

// The level that a name ends with, or the first.
fn level_of(name: &str) -> u8
    ensures { result ≡ kinds.level_of name.now }
{
    match name.as_bytes() {
        [.., digit @ b'1'..=b'9'] => *digit - b'0',
        _ => 1,
    }
}

// Whether a name is one of these.
fn is_one_of(name: &str, names: &[&str]) -> bool
    ensures { result ≡ list_any (λ n. bytes_eq n.now name.now) names.now }
{
    names.iter().any(|it| *it == name)
}

#[tactic(auto, unfolding(crate::specs::Kinds::headings))]
fn is_heading(stem: &str) -> bool
    ensures { result ≡ kinds.is_one_of stem.now kinds.headings }
{
    let stems = [
        "mt", "mte", "ms", "mr", "s", "sr", "r", "d", "sp", "sd", "cl", "cd", "qa", "imt", "imte",
        "is", "iot",
    ];
    is_one_of(stem, &stems)
}

#[tactic(auto, unfolding(crate::specs::Kinds::poetry))]
fn is_poetry(stem: &str) -> bool
    ensures { result ≡ kinds.is_one_of stem.now kinds.poetry }
{
    let stems = ["q", "qr", "qc", "qd", "qm", "iq"];
    is_one_of(stem, &stems)
}

#[tactic(auto, unfolding(crate::specs::Kinds::items))]
fn is_item(stem: &str) -> bool
    ensures { result ≡ kinds.is_one_of stem.now kinds.items }
{
    let stems = ["li", "lim", "ili", "io"];
    is_one_of(stem, &stems)
}

#[tactic(auto, unfolding(crate::specs::Kinds::about))]
fn is_about(stem: &str) -> bool
    ensures { result ≡ kinds.is_one_of stem.now kinds.about }
{
    let stems = ["id", "usfm", "ide", "sts", "rem", "h", "toc", "toca"];
    is_one_of(stem, &stems)
}

/// The kind of a block whose paragraph's mark has this name.
#[tactic(auto, unfolding(crate::specs::Kinds::block_kind))]
pub fn block_kind(name: &str) -> BlockKind
    ensures { result ≡ kinds.block_kind name.now }
{
    let stem = stem_of(name);
    let level = level_of(name);
    if name == "c" {
        BlockKind::Chapter
    } else if is_heading(stem) {
        BlockKind::Heading(level)
    } else if is_poetry(stem) {
        BlockKind::Poetry(level)
    } else if is_item(stem) {
        BlockKind::Item(level)
    } else if is_about(stem) {
        BlockKind::About
    } else {
        BlockKind::Prose
    }
}
