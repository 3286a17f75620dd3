//! Laws of imports since a base.
ghost use Rattle.replica_state.specs.SinceLaws as laws;

/// Each id that an edit of an import since a base names stood in the file: the base shows it, with
/// the text that the file had.
pub fn replaces_nothing_unseen()
    ensures { laws.ReplacesNothingUnseen }
{}

/// What did not stand in the file stays: an operation that the replica shows with the base
/// received, as one that came in since, or the other text of a conflict, is shown after the import.
pub fn unseen_stays()
    ensures { laws.UnseenStays }
{}

/// The import of the base's own export adds nothing, whatever came in since.
pub fn unchanged_files_add_nothing()
    ensures { laws.UnchangedFilesAddNothing }
{}

/// An import since a base that is not refused is a receiving and then edits over given ids, one for
/// each key that was changed, of which none is refused.
pub fn is_receiving_and_edits()
    ensures { laws.IsReceivingAndEdits }
{}

/// The same base and file taken in again add nothing.
pub fn twice_is_once()
    ensures { laws.TwiceIsOnce }
{}

/// It is `import` where, with the base received, each segment of the file's book shows what the
/// base shows there, and of several operations that the base shows in one segment all have one
/// text.
pub fn is_import_where_nothing_came()
    ensures { laws.IsImportWhereNothingCame }
{}
