//! Laws of a folder's files.
ghost use Rattle.book_folder.specs.CameIn as came;
ghost use Rattle.book_folder.specs.CutDisk as disk;
ghost use Rattle.book_folder.specs.CutLate as late;
ghost use Rattle.book_folder.specs.CutShort as cut;
ghost use Rattle.book_folder.specs.Done as done;
ghost use Rattle.book_folder.specs.DoneAgain as done_again;
ghost use Rattle.book_folder.specs.DoneTwice as done_twice;
ghost use Rattle.book_folder.specs.FolderLaws as folder;
ghost use Rattle.book_folder.specs.Laws as laws;
ghost use Rattle.book_folder.specs.OwnBooks as own;
ghost use Rattle.book_folder.specs.ReadAgain as again;
ghost use Rattle.book_folder.specs.Sifting as sifts;

/// Line ends say nothing: two files of a book that are like each other, and were written from the
/// same base, lead to the same project, or are refused alike.
pub fn line_ends_say_nothing()
    ensures { laws.LineEndsSayNothing }
{}

/// Other books say nothing: what comes in of a file, what is asked of it and what it is refused for
/// hang on what the base has of its own book alone.
pub fn other_books_say_nothing()
    ensures { own.OtherBooksSayNothing }
{}

/// A base is settled book by book: of a book whose new file was not put in its place it has what
/// the base had, and of each other book what the next one has.
pub fn settled_book_by_book()
    ensures { own.SettledBookByBook }
{}

/// Older bases move on book by book: of a book that was written anew an older base has what the next
/// newer one had, and of each other book what it had.
pub fn older_bases_move_by_book()
    ensures { own.OlderBasesMoveByBook }
{}

/// Each id that an edit of a file names is one that the file's base shows with the text that the
/// file was written with; or the segment is one that the file is to settle, and it is one that the
/// base shows.
pub fn nothing_unseen_is_replaced()
    ensures { laws.NothingUnseenIsReplaced }
{}

/// Where a file has another text in a segment than its base picks, the project holds an operation
/// of that segment with the file's text after the file was taken in.
pub fn nothing_written_is_lost()
    ensures { laws.NothingWrittenIsLost }
{}

/// Where a file has another text in a segment than its base picks, the project shows the file's text
/// there once the file was taken in.
pub fn written_is_shown()
    ensures { came.WrittenIsShown }
{}

/// Of bundles that a project has received already nothing comes in, and nothing is asked.
pub fn bundles_bring_nothing_again()
    ensures { came.BundlesBringNothingAgain }
{}

/// The bundles of a box that come in are received one after another, and none of them is refused.
pub fn sifted_bundles_come_in()
    ensures { sifts.SiftedBundlesComeIn }
{}

/// Once all came in, the project is reached from the one that was read by receivings of legal sets
/// and edits over given ids, of which none is refused.
pub fn like_a_schedule()
    ensures { folder.LikeASchedule }
{}

/// The base that makes the files as they are written is a legal part of what the project holds.
pub fn next_base_is_part()
    ensures { folder.NextBaseIsPart }
{}

/// The base exports each book that gets a file as the project does.
pub fn base_makes_files()
    ensures { folder.BaseMakesFiles }
{}

/// The base that makes the files as they were read has operations of the project alone, where the
/// base before it was received.
pub fn base_as_read_is_held()
    ensures { folder.BaseAsReadIsHeld }
{}

/// Once the steps of a plan were done, the project is the one into which all came in.
pub fn steps_make_project()
    ensures { done.StepsMakeProject }
{}

/// A new file of a plan is as a sync leaves it once it was put, where the lines of its book's text
/// end in one manner.
pub fn new_files_are_left_so()
    ensures { folder.NewFilesAreLeftSo }
{}

/// Each other file of a book of which the project has the head gets a new one under its name, or is
/// as a sync leaves it, where the lines of the book's text end in one manner.
pub fn other_files_are_left_so()
    ensures { folder.OtherFilesAreLeftSo }
{}

/// A sync of a project and a folder as a sync left them brings nothing in, and has nothing to do on
/// the disk.
pub fn twice_is_once()
    ensures { folder.TwiceIsOnce }
{}

/// Once each step of a sync's plan was done, and no file was left, a project and a folder are as
/// `twice_is_once` asks them to be.
pub fn done_is_synced()
    ensures { done_twice.DoneIsSynced }
{}

/// Cut short anywhere, by a kill or a power cut, a sync leaves it known what each file of the folder
/// was written from: either no file is other than before, or the project has all that came in, and
/// the bases by which it is known of each file whether it was put are there.
pub fn cut_short_is_known()
    ensures { cut.CutShortIsKnown }
{}

/// Cut short before it put a base, a sync is done again: the plan of what stands then is the same,
/// but that the new files are removed that were written.
pub fn cut_early_is_done_again()
    ensures { cut.CutEarlyIsDoneAgain }
{}

/// Cut short before it put a base of its own, once the project has what the bases brought, a sync is
/// done again: of the same bundles and files all comes in as it did, but for what the bases brought.
pub fn recovered_comes_in_again()
    ensures { done_again.RecoveredComesInAgain }
{}

/// Cut short once it put a base, a sync is done again: of what stands then, and of the same bundles,
/// the same project comes, and no edit is made again.
pub fn cut_short_is_done_again()
    ensures { done_again.CutShortIsDoneAgain }
{}

/// Wherever a sync is cut short, by a kill or a power cut, a sync of what stands on the disk then makes
/// the same project.
pub fn cut_short_makes_the_same()
    ensures { disk.CutShortMakesTheSame }
{}

/// Cut short once the project had all that came in, a sync has nothing more to take in: of what
/// stands then, and of the same bundles, nothing comes in, and the project stays.
pub fn cut_late_nothing_comes_in()
    ensures { late.CutLateNothingComesIn }
{}

/// Read again by the base that makes the files as they were read, nothing comes in of a file that
/// was taken in.
pub fn read_again_nothing_comes_in()
    ensures { again.ReadAgainNothingComesIn }
{}
