//! What holds of the cut of every text, and of all texts that fit keys. Each function does
//! nothing: its contract is the law.

ghost use Rattle.verse_cut.specs.Fits.{PiecesFit};
ghost use Rattle.verse_cut.specs.Joins.{BooksAreJoins, ChapterLinesFit, FittingTextsCutBack};
ghost use Rattle.verse_cut.specs.Joins.{JoinsKeepTheirBook};
ghost use Rattle.verse_cut.specs.Pieces.{OneCut, PiecesLie, PiecesRise};
ghost use Rattle.verse_cut.specs.Reading.{CutIsRead, FitsIsRead};

/// Each text has exactly one cut.
pub fn one_cut()
    ensures { OneCut }
{}

/// The keys of a text's pieces rise.
pub fn pieces_rise()
    ensures { PiecesRise }
{}

/// Each piece of a text is its bytes from the piece's start on.
pub fn pieces_lie()
    ensures { PiecesLie }
{}

/// The reading from the left gives the pieces between the marks that open one.
pub fn cut_is_read()
    ensures { CutIsRead }
{}

/// The test that reads from the left holds exactly where a text fits.
pub fn fits_is_read()
    ensures { FitsIsRead }
{}

/// Each piece of a text that begins with `\id` and a book's code fits the book and its key.
pub fn pieces_fit()
    ensures { PiecesFit }
{}

/// Fitting texts in ascending order of keys join and cut back, where each verse with a text that
/// is not empty has its chapter's head with it, or is in chapter 0.
pub fn fitting_texts_cut_back()
    ensures { FittingTextsCutBack }
{}

/// Each text that begins with `\id` and a book's code is the join of its pieces, which are such
/// texts as cut back from their join.
pub fn books_are_joins()
    ensures { BooksAreJoins }
{}

/// A join begins with `\id` and the book's code, as its head does.
pub fn joins_keep_their_book()
    ensures { JoinsKeepTheirBook }
{}

/// The line `\c N` fits the head of chapter N, from chapter 1 on.
pub fn chapter_lines_fit()
    ensures { ChapterLinesFit }
{}
