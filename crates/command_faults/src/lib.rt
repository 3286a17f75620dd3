//! Why commands are refused: the faults, the line that is written of each, and what a person reads of
//! it.
#![tactic(auto)]

mod answers;
mod book_fronts;
mod circumstances;
mod explanation;
mod fault;
mod fault_lines;
mod listing;
mod merge_sentences;
mod seal_sentences;
mod sentences;
mod setup_sentences;

pub use book_fronts::{FRONT_BYTES, NoBook, Slip, book_meant, found_file, front_slip, why_no_book};
pub use circumstances::{Circumstances, Expected, Found, Input, refused_input};
pub use explanation::{Explanation, explained};
pub use fault::Fault;
pub use fault_lines::{fault_line, fault_number};
pub use listing::list_faults;
pub use op_core::{MOST_LINE_BYTES, ShortLine as FaultLine};
