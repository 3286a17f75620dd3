// What a person reads of a folder that is set up, and of a box.

pub(crate) const NAME_IN_USE: &str = "\
Another copy in the box has this name.
A name is one copy's, also where one person has two computers, or lost a copy:
take another name.";

pub(crate) const SETUP_DAMAGED: &str = "\
This file says what its folder is synced with, and a line of it is damaged.
It has a line `project PATH`, and then, as far as there are, `box PATH` and
`names NAME`, in this order. Correct it; or remove it, and sync with
--remember: usfm_team sync PROJECT FOLDER --box DIR --remember";

pub(crate) const NOT_SET_UP: &str = "\
This folder does not remember what it is synced with.
Set up a folder with `usfm_team join FOLDER NAME`; or name the project, and
have the folder remember it: usfm_team sync PROJECT FOLDER --remember";

pub(crate) const SETUP_IS_THERE: &str = "\
This folder is set up already, in another way.
Sync it with `usfm_team sync FOLDER`. To change the box or the form of new
names, add --box or --names, and --remember.";

pub(crate) const NOT_REMEMBERED: &str = "\
A folder cannot remember this path, since it is empty or has a line break.
Give what it names another name.";

pub(crate) const BOX_IN_FOLDER: &str = "\
The box cannot be the folder of the books, and cannot be within it.
Make a folder elsewhere that the team shares, and name it after --box.";

pub(crate) const BOX_HAS_BOOKS: &str = "\
This folder has books' files, so it is no box.
In a box are bundles alone. If books were written into it by mistake, move
them away, and its folder .usfm_team; or name another folder after --box.";

pub(crate) const FOLDER_IS_BOX: &str = "\
This is a box: write --box before it, and name the folder of the books' files
too, as in: usfm_team sync ana.project texts --box stick
It has bundles, and no book's file.";

pub(crate) const NO_DAY: &str = "\
No sync has changed the project since this day began.
Where one does, the folder keeps the day. Those that are kept are named above:
name one of them, or a day before it.";

pub(crate) const NO_DAY_FOLDER: &str = "\
The days of a project are kept in the folder that it is synced with.
Name the folder in the place of the project, as in this line:
usfm_team changes texts --since 2026-11-24";

pub(crate) const NO_OLDER: &str = "\
The folder does not keep what it was before its last sync.
It does so once a book's file was written a second time. Name a day, or a
summary.";
