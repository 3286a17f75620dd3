//! Laws of every schedule of commands on the files of a team's copies: what holds after any number
//! of them, in whatever order, where what is received is what one of the files wrote. Each function
//! does nothing: its contract is the law.
ghost use Rattle.usfm_cli.specs.Schedules as schedules;
ghost use Rattle.usfm_cli.specs.Schedules.Relays as relays;
ghost use Rattle.usfm_cli.specs.Schedules.Making as making;
ghost use Rattle.usfm_cli.specs.Schedules.Twins as twins;

/// Each file is that of a replica with the copy's name.
pub fn files_are_projects()
    ensures { schedules.FilesAreProjects }
{}

/// No whole bundle that a file wrote is refused when another receives it.
pub fn no_receive_is_refused()
    ensures { schedules.NoReceiveIsRefused }
{}

/// A proper front of a bundle that a file wrote is refused as truncated.
pub fn fronts_are_refused()
    ensures { schedules.FrontsAreRefused }
{}

/// What a file holds, it holds from then on, perhaps without its text.
pub fn files_keep()
    ensures { schedules.FilesKeep }
{}

/// What two files hold under one id agrees.
pub fn one_for_each_id()
    ensures { schedules.OneForEachId }
{}

/// From an operation that a file holds a chain of replacements, all held, leads to a shown one.
pub fn shown_in_the_end()
    ensures { schedules.ShownInTheEnd }
{}

/// A copy that receives what another one writes for its summary is not refused, and holds the union
/// of both but for texts left out.
pub fn deltas_bring_union()
    ensures { schedules.DeltasBringUnion }
{}

/// Where a relay leads, what a file held is held.
pub fn relays_tell()
    ensures { relays.RelaysTell }
{}

/// Where after the last edit or import a relay leads from each copy to each other one, the files of
/// any two of them write the same bytes of every book and the same report, and await nothing.
pub fn all_agree_in_the_end()
    ensures { relays.AllAgreeInTheEnd }
{}

/// What a file holds one of the commands made, at the copy of its name, and what it names was in
/// view there before that command.
pub fn names_what_was_shown()
    ensures { making.NamesWhatWasShown }
{}

/// Where after the last edit or import a relay leads from each copy to each other one, the file of
/// each of them holds all that the file of any copy ever held, perhaps without its text.
pub fn all_hold_all()
    ensures { relays.AllHoldAll }
{}

/// A refused command leaves every file, and all that was written, as it was.
pub fn refused_leaves_all()
    ensures { schedules.RefusedLeavesAll }
{}

/// A command that only reports leaves every file as it was, byte by byte, refused or not.
pub fn reports_leave_files()
    ensures { schedules.ReportsLeaveFiles }
{}

/// A command at one copy leaves the file of each other copy as it was.
pub fn others_stay()
    ensures { schedules.OthersStay }
{}

/// The file of each copy writes the same of every book, the same report, the same of each segment
/// and the same summary as in a twin of the schedule, in which no copy thins.
pub fn thinning_is_invisible()
    ensures { twins.ThinningIsInvisible }
{}
