//! Laws of imports.
ghost use Rattle.replica_state.specs.ImportLaws as laws;

/// After an import that is not refused the export of the file's book is the file.
pub fn imports_are_exported()
    ensures { laws.ImportsAreExported }
{}

/// The import of the export of a book whose head has an operation adds nothing.
pub fn own_exports_add_nothing()
    ensures { laws.OwnExportsAddNothing }
{}
