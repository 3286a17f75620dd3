//! The plain text of a reading.

ghost use Rattle.std.specs.Prelude.{◌≡◌, ◌++◌, ◌∷◌, List, OnOk, IfOk, string_bytes, take, drop};
ghost use Rattle.book_reading.specs.Views.{block_view, chapter_view, note_view, runs_view};
ghost use Rattle.plain_reading.specs.Lines as lines;
ghost use Rattle.plain_reading.specs.Paragraphs as paragraphs;
ghost use Rattle.plain_reading.specs.Paragraphs.{Paragraph};
ghost use Rattle.plain_reading.specs.Loops.{page_with};

use crate::ink::{note_ink, text_ink};
use crate::lines::push_paragraph;
use crate::setting::{Group, Setting, block_setting, note_setting, number_length, number_setting};
use book_reading::{Block, Chapter, Note, Run, chapters_in};
use std::alloc::{AllocError, Global};

// The text so far, and the group of its last paragraph.
#[derive(Drop)]
struct Page {
    text: String,
    width: usize,
    last: Group,
}

// The runs of a block that go with the number of its chapter, and the others.
#[tactic(auto, using(crate::proofs::PageLemmas::front_view, crate::proofs::PageLemmas::back_view))]
fn split_number<'r, 'a>(block: Block<'r, 'a>) -> (&'r [Run<'a>], &'r [Run<'a>])
    ensures number { runs_view result.0.now
        ≡ take (paragraphs.number_length (block_view block.entry))
        (runs_view block.entry.runs.now) }
    ensures others { runs_view result.1.now
        ≡ drop (paragraphs.number_length (block_view block.entry))
        (runs_view block.entry.runs.now) }
{
    block.runs.split_at(number_length(block))
}

impl Page {
    // Writes what is written of runs of the text.
    #[tactic(auto, using(crate::proofs::PageLemmas::one_more))]
    fn push_runs(
        &mut self,
        alloc: Global,
        setting: Setting,
        runs: &[Run<'_>],
    ) -> Result<(), AllocError>
        ensures { OnOk result ((later : List Paragraph) → page_with self.new later
            ≡ page_with self.old (paragraphs.text_paragraph setting (runs_view runs.now) ∷ later)) }
    {
        let ink = text_ink(alloc, runs)?;
        self.last = push_paragraph(&mut self.text, self.width, self.last, setting, &ink)?;
        Ok(())
    }

    // Writes a block.
    fn push_block(&mut self, alloc: Global, block: Block<'_, '_>) -> Result<(), AllocError>
        ensures { OnOk result ((later : List Paragraph) → page_with self.new later
            ≡ page_with self.old
            (paragraphs.block_paragraphs (block_view block.entry) ++ later)) }
    {
        let (number, others) = split_number(block);
        self.push_runs(alloc, number_setting(), number)?;
        self.push_runs(alloc, block_setting(block), others)?;
        Ok(())
    }

    // Writes a note.
    #[tactic(auto, using(crate::proofs::PageLemmas::one_more))]
    fn push_note(&mut self, alloc: Global, note: Note<'_, '_>) -> Result<(), AllocError>
        ensures { OnOk result ((later : List Paragraph) → page_with self.new later
            ≡ page_with self.old (paragraphs.note_paragraph (note_view note.entry) ∷ later)) }
    {
        let ink = note_ink(alloc, note.runs)?;
        let setting = note_setting();
        self.last = push_paragraph(&mut self.text, self.width, self.last, setting, &ink)?;
        Ok(())
    }

    // Writes the blocks of a chapter, and then its notes.
    fn push_chapter(&mut self, alloc: Global, chapter: Chapter<'_, '_>) -> Result<(), AllocError>
        ensures { OnOk result ((later : List Paragraph) → page_with self.new later
            ≡ page_with self.old
            (paragraphs.chapter_paragraphs (chapter_view chapter.entry) ++ later)) }
    {
        for block in chapter.blocks() {
            self.push_block(alloc, block)?;
        }
        for note in chapter.notes() {
            self.push_note(alloc, note)?;
        }
        Ok(())
    }
}

/// The plain text of the runs of a reading, in lines of so many columns.
///
/// # Errors
///
/// `AllocError` where an allocation failed.
#[tactic(auto, unfolding(crate::specs::Lines::plain))]
pub fn plain(alloc: Global, runs: &[Run<'_>], width: usize) -> Result<String, AllocError>
    ensures { IfOk result (λ text. string_bytes text ≡ lines.plain width (runs_view runs.now)) }
{
    let mut page = Page {
        text: String::new(alloc),
        width,
        last: Group::Begin,
    };
    for chapter in chapters_in(runs) {
        page.push_chapter(alloc, chapter)?;
    }
    Ok(page.text)
}
