//! Laws of streams of bundles, of projects and of the trees of books, over the definitions alone.
//! Each function does nothing: its contract is the law.
ghost use Rattle.usfm_cli.specs.Books as books;
ghost use Rattle.usfm_cli.specs.ExecLaws as projects;
ghost use Rattle.usfm_cli.specs.StreamLaws as laws;
ghost use Rattle.usfm_cli.specs.TreeLaws as trees;

pub mod combining;
pub mod copies;
pub mod deltas;
pub mod headline;
pub mod schedules;
pub mod turns;

/// Bundles one after another give the union of their sets, taken one after another, or the first
/// clash.
pub fn streams_give_unions()
    ensures { laws.StreamsGiveUnions }
{}

/// Bytes that give a union are bundles one after another, whose sets have that union.
pub fn unions_are_of_streams()
    ensures { laws.UnionsAreOfStreams }
{}

/// Streams whose bundles have the same operations together, in whatever order, grouping and
/// repetition, give the same bytes of every book, where neither is refused for a clash.
pub fn same_operations_same_books()
    ensures { laws.SameOperationsSameBooks }
{}

/// Streams of bundles of one family, which have the same ids together, give the same bytes of every
/// book, whatever texts are left out. Neither is refused.
pub fn same_ids_same_books()
    ensures { laws.SameIdsSameBooks }
{}

/// What a stream of bytes gives for a book is the export of a set, is UTF-8, and cuts back into the
/// picked texts.
pub fn folded_books_cut_back()
    ensures { books.FoldedBooksCutBack }
{}

/// What `Command::Export` writes of a project's file is the export of its book, is UTF-8, and cuts
/// back into the picked texts; the leaves of its tree, by whatever style sheet, join to it.
pub fn exported_books_cut_back()
    ensures { books.ExportedBooksCutBack }
{}

/// The leaves of an exported book's tree, by whatever style sheet, join to the book's bytes.
pub fn exports_are_leaves()
    ensures { trees.ExportsAreLeaves }
{}

/// Projects that hold the same operations after whatever commands write the same bytes of every
/// book, and the same conflict report.
pub fn same_operations_read_the_same()
    ensures { projects.SameOperationsReadTheSame }
{}

/// Projects that hold the same but for texts left out, after whatever commands, write the same
/// bytes of every book, and the same conflict report, if no id has two operations.
pub fn skeletons_read_the_same()
    ensures { projects.SkeletonsReadTheSame }
{}

/// Projects that hold operations of one family and of the same ids, after whatever commands, write
/// the same bytes of every book, and the same conflict report, whatever texts are left out.
pub fn same_ids_read_alike()
    ensures { projects.SameIdsReadAlike }
{}

/// A project, after whatever commands, and a stream of bundles of one family with the same ids
/// write the same bytes of every book, or refuse it alike, whatever texts are left out.
pub fn thinned_projects_read_as_streams()
    ensures { projects.ThinnedProjectsReadAsStreams }
{}

/// A project, after whatever commands, and a stream of bundles with the same operations, none of
/// them refused, write the same bytes of every book, or refuse it alike.
pub fn projects_read_as_streams()
    ensures { projects.ProjectsReadAsStreams }
{}
