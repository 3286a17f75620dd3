//! The style sheet that the program carries: the markers of USFM 3.0.
//!
//! Its text is that of `samples/usfm.sty`, in a file that `samples/carry` writes;
//! `tests/sheets/run` compares the two. A caller reads it as any other sheet.
#![tactic(auto)]

mod sheet;

/// The text of the style sheet.
pub fn carried_sheet() -> &'static str {
    sheet::SHEET
}
