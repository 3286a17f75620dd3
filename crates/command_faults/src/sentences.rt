// What a person reads of each fault: the first line says what is the case, and those after it
// what to do. Each stands here once: the program says it, and the tables in README and
// docs/FORMATS.md are made from what the program says.

pub(crate) const MEMORY: &str = "\
There was not enough memory.
Close other programs, and try again. The project is unchanged, unless the
command was `sync`.";

pub(crate) const NOT_TEXT: &str = "\
The text is not UTF-8 after this many bytes.
Save it as UTF-8 in your editor, and try again.";

pub(crate) const NO_CODE: &str = "\
This is not a book's code, in the command or after \\id in a file.
A code is three capital letters or digits, such as MAT: 'MAT 1:1', or \\id MAT.";

pub(crate) const NO_FORM: &str = "\
This name does not say how the files of books are to be named.
Give the name of one book's file, such as MRK.usfm or 42MRKana.SFM: its code,
alone or after the two digits that Paratext has for the book, and an ending.";

pub(crate) const IN_CAPITALS: &str = "\
The code of a book is written in capitals.
Write it like this: ";

pub(crate) const NO_REFERENCE: &str = "\
This is not a reference to a verse, or to the head of a chapter or of a book.
Write 'MAT 1:1' for a verse, 'MAT 1' for the head of a chapter, and 'MAT 0'
for that of the book: one space, a colon, no zeros in front. Verses that stand
together, as in \\v 3-4, have the reference of the first one: 'MAT 1:3'.";

pub(crate) const NO_ID: &str = "\
The file does not begin with \\id and a space.
Give it a first line with the code of its book, such as \\id MAT.";

pub(crate) const ONE_SPACE: &str = "\
More than one blank stands between \\id and the code of the book.
Leave one space there, as in \\id MAT.";

pub(crate) const ID_IN_LINE: &str = "\
The file does not begin with \\id and a space.
\\id stands in line ";

pub(crate) const TAKE_OUT: &str = ": take out what is before it.";

pub(crate) const NEWER: &str = "\
This file is of a newer version of this program.
Get that version, and try again.";

pub(crate) const BUNDLE_NOT_BOOK: &str = "\
This is a bundle, and not the file of a book.
Take it in with `receive`.";

pub(crate) const PROJECT_NOT_BOOK: &str = "\
This is a project, and not the file of a book.
Make a bundle of it, and take that in: usfm_team send PROJECT > BUNDLE";

pub(crate) const SUMMARY_NOT_BOOK: &str = "\
This is a summary, and not the file of a book.
Make a bundle for its sender: usfm_team delta PROJECT SUMMARY > BUNDLE";

pub(crate) const FIELD_BEFORE_MARKER: &str = "\
This line of the style sheet has a field, and no \\Marker comes before it.
Correct that line.";

pub(crate) const EMPTY_MARKER: &str = "\
This line of the style sheet has a \\Marker without a name.
Correct that line.";

pub(crate) const BAD_STYLE_TYPE: &str = "\
This line of the style sheet has an unknown \\StyleType.
Make it Paragraph, Character, Note or Milestone.";

pub(crate) const BAD_VERSIFICATION: &str = "\
This line of the versification is none of its lines.
Correct it, as `MAT 1:25 2:23`, `-MAT 17:21` or `# a comment`.";

pub(crate) const BAD_NAME: &str = "\
This is not a name for a copy.
Take 1 to 32 of a to z, 0 to 9 and -, such as ana.";

pub(crate) const CLASH: &str = "\
Two different edits have this id.
Two copies use one name, or one was set back to an old file, or a file was
changed by hand. Let one go on under another name: see WALKTHROUGH.md, in docs
or in /usr/share/doc/usfm-team.";

pub(crate) const CLASH_IN_BUNDLE: &str = "\
Two different edits have this id.
This bundle was damaged on its way, or two copies use one name, or one was set
back to an old file. Move the bundle away, and have it sent again: in a box
its owner's next sync writes it anew. If the fault comes back, or the bundle
has your own copy's name, let one copy go on under another name: see
WALKTHROUGH.md, in docs or in /usr/share/doc/usfm-team.";

pub(crate) const BAD_ID: &str = "\
This is not the id of an edit.
Write its number, a colon and the name of its copy: 3:ana for `op 3 ana`.";

pub(crate) const DAMAGED_PROJECT: &str = "\
The project's file is damaged.
Begin a new one with `init`, under a name that no copy has had, and take in
what the last good copy and the others have: see WALKTHROUGH.md, in docs or in
/usr/share/doc/usfm-team.";

pub(crate) const NO_BUNDLE: &str = "\
This is not a bundle.
It is another file, or was changed on its way: have it sent again.";

pub(crate) const BOOK_NOT_BUNDLE: &str = "\
This is the file of a book, and not a bundle.
Take it in with `import`, or with `sync` where it is in a folder of books.";

pub(crate) const PROJECT_NOT_BUNDLE: &str = "\
This is a project, and not a bundle.
Make a bundle of it first: usfm_team send PROJECT > BUNDLE";

pub(crate) const SUMMARY_NOT_BUNDLE: &str = "\
This is a summary, and not a bundle.
Make a bundle for its sender: usfm_team delta PROJECT SUMMARY > BUNDLE";

pub(crate) const TRUNCATED: &str = "\
The bundle is truncated: its end is missing.
Have it sent again.";

pub(crate) const DAMAGED_BASE: &str = "\
What the program keeps of this folder is damaged.
Move this file away, and sync: a file that then differs from the project's
book is refused (131).";

pub(crate) const NOT_RISING: &str = "\
The bundle is damaged: this edit's id is not above the one before.
Have it sent again.";

pub(crate) const BAD_OPERATION: &str = "\
The bundle is damaged: this edit's number or name is out of range.
Have it sent again.";

pub(crate) const BAD_KEY: &str = "\
The bundle is damaged: this edit's book or verse is out of range.
Have it sent again.";

pub(crate) const BAD_REPLACED: &str = "\
The bundle is damaged: this edit replaces what it cannot replace.
Have it sent again.";

pub(crate) const BAD_TAG: &str = "\
The bundle is damaged: this edit has an unknown tag.
Have it sent again.";

pub(crate) const TEXT_NOT_UTF8: &str = "\
The bundle is damaged: the text of this edit is not UTF-8.
Have it sent again.";

pub(crate) const BAD_TEXT: &str = "\
The bundle is damaged: the text of this edit does not fit its segment.
Have it sent again.";

pub(crate) const UNSUPPORTED: &str = "\
The bundle is damaged: what it says of the texts that it leaves out is wrong.
Have it sent again.";

pub(crate) const TRAILING: &str = "\
More follows after the end of the bundle.
Have it sent again.";

pub(crate) const NO_SUMMARY: &str = "\
This is not a summary.
Have it sent again, as `summary` writes it.";

pub(crate) const BUNDLE_NOT_SUMMARY: &str = "\
This is a bundle, and not a summary.
Take it in with `receive`; `summary` writes a summary.";

pub(crate) const BAD_SEGMENT: &str = "\
The text does not fit its segment.
Begin it with the segment's mark, such as \\v 1, and leave later verses out.";

pub(crate) const NUMBERS_USED_UP: &str = "\
No number is left for another edit.
A damaged or forged bundle brought the greatest one. Export the books, and
begin new copies: see WALKTHROUGH.md, in docs or in /usr/share/doc/usfm-team.";

pub(crate) const NO_BOOK: &str = "\
The project has nothing of this book.
Check the code: `progress` lists the books that have verses. To begin a book,
import its file; a file with only the line \\id MAT begins Matthew.";

pub(crate) const NOT_SHOWN: &str = "\
This edit is not, or no longer, among the texts of the segment.
Look with `shown`, and name what it shows; or with `history`, for `restore`.";

pub(crate) const LEFT_OUT: &str = "\
This text was left out by `thin`.
It is gone here, and with all who exchanged with this copy since. A copy that
did not, or an old bundle, may have it: `history` shows it there.";

pub(crate) const WRITE_FAILED: &str = "\
Writing the answer failed after this many bytes.
The disk is full, or nobody reads the output any more. A command that changes
the project has done so: look with `shown` or `report`.";

pub(crate) const EMPTY_NEEDLE: &str = "\
The text to find is empty.
Give `find` a text.";

pub(crate) const NO_PROJECT: &str = "\
This is not a project's file.
Check its name. If it was a project, it is damaged: begin a new one with
`init`, under a name that no copy has had, and take in what the last good copy
and the others have: see WALKTHROUGH.md, in docs or in
/usr/share/doc/usfm-team.";

pub(crate) const BUNDLE_NOT_PROJECT: &str = "\
This is a bundle, and not a project.
A project takes it in: usfm_team receive PROJECT BUNDLE";

pub(crate) const BOOK_NOT_PROJECT: &str = "\
This is the file of a book, and not a project.
A project takes it in: usfm_team import PROJECT FILE";

pub(crate) const SUMMARY_NOT_PROJECT: &str = "\
This is a summary, and not a project.
Name the project first: usfm_team delta PROJECT SUMMARY > BUNDLE";

pub(crate) const READ_FAILED: &str = "\
A file or a folder could not be read.
Check its name and its permissions.";

pub(crate) const IS_FOLDER: &str = "\
This is a folder, but a file is wanted here.
Name the file. `sync` and `status` take the folder of the books right after the
project, `export` takes it as --into FOLDER, and `sync` a box as --box FOLDER.";

pub(crate) const IS_FILE: &str = "\
This is not a folder.
Name the folder that the books' files are in.";

pub(crate) const BOX_IS_FILE: &str = "\
This is not a folder.
A box is wanted here: name the folder where all leave their bundles.";

pub(crate) const FOLDER_UNREADABLE: &str = "\
This folder cannot be read.
Ask whoever owns it to let you read it, and write in it.";

pub(crate) const OWN_NOT_FOLDER: &str = "\
Here the program keeps what it knows of the books' files, in a folder, and
something else has its name.
Move that away. If the folder is elsewhere now, put it back; if not, and the
files differ from the project's books, `sync` then says what to do with them.";

pub(crate) const OWN_UNREADABLE: &str = "\
Here the program keeps what it knows of the books' files, and this cannot be
read.
Ask whoever owns it to let you read it, and write in it.";

pub(crate) const CUT_LINE: &str = "\
A terminal passes on no more than 4,095 bytes of a line, and one has more.
Nothing was changed. Type the text in several lines, or write it into a file,
and end the command with < and the name of that file.";

pub(crate) const NOTHING_THERE: &str = "\
There is no file of this name.
Check the name, and which folder you are in.";

pub(crate) const NO_PROJECT_THERE: &str = "\
There is no project of this name.
Check the name, and which folder you are in. `init` begins a project.";

pub(crate) const NO_FOLDER_THERE: &str = "\
There is no folder of this name.
Check the name, and that a stick or server is connected; or make the folder
with `mkdir`.";

pub(crate) const TOO_LONG: &str = "\
The file has more than 268,435,456 bytes, the most that can be read.
If it is a project, see Limits in DISK.md, in docs or in
/usr/share/doc/usfm-team.";

pub(crate) const FILE_FAILED: &str = "\
A file could not be written, or the disk may not keep it.
Check that the folder is there, its permissions and the free space, and look
with `shown`. A project that nobody may write, or that has a hard link, is not
changed.";

pub(crate) const IS_THERE: &str = "\
Something of this name is there already.
Go on with that project, or begin one under another name.";

pub(crate) const FOLDER_IS_THERE: &str = "\
A folder of this name is there already.
Name a file that is not there yet, such as ana.project: the project is one
file, and its books' files are in a folder beside it.";

pub(crate) const HALF_IS_THERE: &str = "\
Something stands under the name that a project has until it is whole.
`init` did not leave it there. Move it away, or begin the project under another
name.";

pub(crate) const NO_FOLDER_FOR_IT: &str = "\
The folder for this project is not there.
Check the name, and that a stick or server is connected; or make the folder
with `mkdir`.";

pub(crate) const BUNDLE_NOT_LEFT: &str = "\
This bundle could not be written, or the disk may not keep it.
All else that `sync` does is done. Check the permissions of the folder and the
free space, and sync again: until then the others do not get your work there.";

pub(crate) const NOT_OWN_BUNDLE: &str = "\
This stands in the place of your copy's bundle, and is none.
Move it out of the box, and sync again. Nothing was done.";

pub(crate) const FILE_NOT_WRITTEN: &str = "\
This book's file could not be written, or the disk may not keep it.
All else that `sync` does is done. Check the permissions of the folder and the
free space, and sync again.";

pub(crate) const FILE_CHANGED: &str = "\
A file of the folder would lose text.
After `export`, try `sync`, which takes in changes. If you and somebody else
began the same book, sync once without bundles and --box, and then with them:
both texts stay. If the project has the book from elsewhere, as by `import`,
and the file is the newer one, `import` it, to have it replace all of it.
Else move the file away, sync, and make its changes in the new file.";

pub(crate) const FILE_UNBASED: &str = "\
Nothing says what this file was written from, and it differs from the book.
If the folder was copied or moved, its hidden folder .usfm_team was left
behind: copy that, too. If the project was set back to an older file, take in
what was changed since: usfm_team import PROJECT FILE --since BUNDLE, where
BUNDLE was made of that older file by `send`; then move the file away, and
sync. If you and somebody else began the same book, sync once without bundles
and --box, and then with them: both texts stay. Only if the file is newer in
each verse, `import` it, to have it replace all of the book. Else move it
away, sync, and make its changes in the new file.";

pub(crate) const FILE_RENAMED: &str = "\
This was the file of another book, and does not have the \\id of that now.
If the code after \\id was changed by mistake, put the old one back. If the
file was renamed, give it its old name back. If it is to be this book's from
now on, give it a new name: `sync` writes the other book's file anew.";

pub(crate) const NAME_TAKEN: &str = "\
This stands under the name that the new file of a book is to get.
If it is the file of another book, give it a name of its own: `sync` knows it
by its \\id. Else move it away. Then sync again.";

pub(crate) const FILE_NO_BOOK: &str = "\
This stands under the name of a book's file, and does not begin as one.
If it is the book's file, correct its first line, with \\id and the code, save
it as UTF-8, and sync again. Else move it away: `sync` writes the book's file
anew.";

pub(crate) const FILE_NOT_READ: &str = "\
This stands under the name of a book's file, and `sync` does not read it.
It is a link, a file with a second name or of more than 16,777,216 bytes, or no
file at all. Put a plain file in its place, or move it away: `sync` writes the
book's file anew.";

pub(crate) const SECOND_FILE: &str = "\
These two files are of one book, and a folder has one file for each book.
Move the one that you do not work in out of the folder, and sync. If it has
changes, make them in the other one too.";

pub(crate) const EMPTIED: &str = "\
This many texts are gone from the file of a book.
An editor may have saved only a part of it: correct it, and try again. If they
are gone on purpose, sync with --emptied. It applies to all files of the
folder: `status` with the folder shows which ones `sync` refuses.";

pub(crate) const UNDONE: &str = "\
In this many segments a book's file has an older text than the one received.
If it is an older file, or was open in an editor meanwhile, sync with --stale:
what came in stays, and what was changed in the file comes in. If they were
undone on purpose, sync with --undone. Both apply to all files of the folder:
`status` with the folder shows which ones `sync` refuses.";

pub(crate) const UNLIKE: &str = "\
The bundle shares nothing with the project, and brings this many conflicts.
Leave it out, unless the two are to be one: then sync with --join; no command
takes them apart again. If two copies began with the same files, one of them
begins anew: `init` under a new name, one sync of an empty folder with this
bundle, and its changes there.";

pub(crate) const UNLIKE_FOLDER: &str = "\
The folder shares nothing with the project, and brings this many conflicts.
Name the folder of this project's books. Only if the two projects are to be one
from now on, sync with --join: no command takes them apart again.";

pub(crate) const SETTLED_EARLY: &str = "\
The sync before was cut short, or an older file is taken in with this one.
So nobody has seen yet what the files show by now. Sync without --settle, look
at the file, and settle then.";
