//! A folder of books' files beside a project: what was changed in the files comes into the project,
//! and the project's books go into the files. What is to be done is a plan, which one pure function
//! makes of what was read.
#![tactic(auto)]

mod asks;
mod bases;
mod begun;
mod begun_anew;
mod books;
mod bridges;
mod by_book;
mod changed;
mod coming;
mod conflicts;
mod done;
mod export;
mod files;
mod folder;
mod kept;
pub mod laws;
mod likes;
mod names;
mod naming;
mod numbers;
mod older_bases;
mod origin;
mod plan;
mod questions;
mod refusal;
mod restored;
mod seen;
mod settling;
mod sifting;
mod stale;
mod standing;
mod stood_texts;
mod taking;
mod team_box;

pub use begun::settled;
pub use begun_anew::lacks_base;
pub use done::{Line, lines_of, project_after};
pub use export::export_plan;
pub use files::{book_begun, may_be_book};
pub use kept::{KeptName, MADE_END, kept_name};
pub use likes::{LineEnds, is_like, push_in_line_ends};
pub use names::read_names;
pub use naming::{left_name, says_form};
pub use older_bases::MovedBase;
pub use origin::{Origin, files_origin};
pub use plan::{Added, NewFile, Placing, Plan, Step, Told, make_plan};
pub use questions::{AskedSegment, asked_segments};
pub use refusal::{FolderFault, Place, Refusal};
pub use seen::{FoundFile, Named, Seen, Wanted, Wishes};
pub use settling::{SettlingStep, Unsettled, settling_steps};
pub use sifting::{Sifted, sift_box};
pub use standing::{ChangedFile, LeftOut, Standing, folder_standing};
pub use team_box::{BoxFile, box_file};
