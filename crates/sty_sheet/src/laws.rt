//! What holds of all style sheets. Each function does nothing: its contract is the law.

ghost use Rattle.sty_sheet.specs.Laws.{LastRecordCounts};

/// The record that a sheet has of a marker is the last one that its text has of it: nothing of an
/// earlier one is left.
pub fn last_record_counts()
    ensures { LastRecordCounts }
{}
