//! What is reported of books by a style sheet, as lines: their findings, the hits of a needle, and
//! their words.
//!
//! A [`Form`] says how a finding or a hit is written: where it stands by bytes, or by line and
//! column (`line_column`), and perhaps with the line of the text, in which the mark or the needle
//! is set off (`line_excerpt`). The words of several books are one list: a line for each word of each
//! book, by the words, and those of one word in the order of the books.
#![tactic(auto)]

mod book;
mod form;
mod formed;
mod lines;
mod mark;
mod words;

pub use book::{check_book, check_file, find_book, find_file};
pub use form::{Form, Places};
pub use line_excerpt::SetOff;
pub use lines::{finding_lines, hit_lines, word_lines};
pub use words::{BookWord, push_words, words_by_form};
