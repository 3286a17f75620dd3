// Which operations are looked at.
ghost use Rattle.std.specs.Prelude.{◌≡◌};
ghost use Rattle.sync_changes.specs.Loops.Parts as parts;

use crate::files::FileEdits;
use bundle_codec::Summary;
use op_core::OpId;

// Which of some operations are looked at.
#[derive(Clone, Copy, Debug)]
pub(crate) enum Part<'s> {
    // All.
    All,
    // Those that are known.
    Known(&'s Summary),
    // Those that the files did not make.
    Brought(&'s FileEdits),
    // Those that are not known, and that the files did not make.
    CameIn(&'s Summary, &'s FileEdits),
    // Those that the files made.
    Files(&'s FileEdits),
}

impl<'s> Part<'s> {
    // Whether the operation of an id is looked at.
    pub(crate) fn has(&self, id: &OpId) -> bool
        ensures { result ≡ parts.in_part self.now id.now }
    {
        match *self {
            Part::All => true,
            Part::Known(known) => known.covers(id),
            Part::Brought(files) => !files.has(id),
            Part::CameIn(known, files) => !known.covers(id) && !files.has(id),
            Part::Files(files) => files.has(id),
        }
    }
}
