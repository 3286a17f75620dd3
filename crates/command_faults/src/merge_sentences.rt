// What a person reads of the files of a merge, as `sentences.rt` has it of all else.

pub(crate) const SIDE_OF_OTHER_BOOK: &str = "\
This is another book than BASE, and a merge is of one book: its three files
begin with the same code after \\id. Name the right file, or mend the code.";

pub(crate) const SIDE_NOT_WRITTEN: &str = "\
The merged book could not be written into this file, or the disk may not keep
it. Check the permissions of the file and of its folder, and the free space,
and merge again; with --stdout the book is written to standard output instead.";
