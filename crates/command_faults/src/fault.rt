ghost use Rattle.std.specs.Prelude.{◌≡◌};
ghost use Rattle.command_faults.specs.Faults as faults;
ghost use Rattle.command_faults.specs.declared.fault.Fault.TheVariants.{Memory, Reference, BadSeal};
ghost use Rattle.command_faults.specs.declared.fault.Fault.TheVariants.{Naming, WriteFailed};

use bundle_codec::{BundleFault, JoinFault, SummaryFault, WholeFault};
use byte_source::ReadFault;
use concordance::FindFault;
use conflict_settling::SettleFault;
use op_core::{IdFault, OpId};
use project_file::{CreateFault, LoadFault};
use replica_state::{EditFault, ImportFault, ReceiveFault, SinceFault};
use sealed_bundle::SealFault;
use segment_history::RestoreFault;
use std::alloc::{AllocError, AllocFailed};
use sty_sheet::SheetFault;
use thiserror::Error;
use usfm_export::{ExportFault, TextFault, WriteFault};
use usfm_ref::RefFault;
use usfm_token::TokenFault;
use verse_cut::BookFault;
use versification::VersificationFault;

/// Why a command was refused. `fault_line` writes it with its number.
#[derive(Clone, Copy, Debug, PartialEq, Eq, Error)]
pub enum Fault {
    /// 1: an allocation failed.
    #[error("out of memory")]
    Memory,
    /// 10: bytes that are no text, which is UTF-8. Their longest front that is has this many bytes.
    #[error("not UTF-8 after {valid} bytes")]
    NotText { valid: usize },
    /// 20 and 21: a text that is no book's code, or no reference; 20 also a file whose book has no
    /// code.
    #[error("{0}")]
    Reference(RefFault),
    /// 30: a file that does not begin with at most one U+FEFF, `\id` and a blank.
    #[error("the file does not begin with \\id and a blank")]
    NoId,
    /// 40: a style sheet has a field before its first marker, in this line, counted from 1.
    #[error("line {line}: a field before the first marker")]
    FieldBeforeMarker { line: usize },
    /// 41: a style sheet has a marker without a name in this line.
    #[error("line {line}: a marker without a name")]
    EmptyMarker { line: usize },
    /// 42: a style sheet has an unknown style type in this line.
    #[error("line {line}: an unknown style type")]
    BadStyleType { line: usize },
    /// 43: a versification has a line that has none of the forms, this one, counted from 1.
    #[error("line {line}: no line of a versification")]
    BadVersification { line: usize },
    /// 50 and 52: a text that is no replica's name, or no operation's id.
    #[error("{0}")]
    Naming(IdFault),
    /// 51: two operations that do not agree have this id.
    #[error("two operations that differ have one id: {} {}", .0.number, .0.name.text())]
    Clash(OpId),
    /// 60 to 69: bytes that are no bundle.
    #[error("{0}")]
    Bundle(BundleFault),
    /// 70: something follows a bundle.
    #[error("something follows the bundle")]
    Trailing,
    /// 71: bytes that are no summary.
    #[error("not a summary")]
    BadSummary,
    /// 72: a sealed bundle that was damaged, or is not whole.
    #[error("a sealed bundle that was damaged, or is not whole")]
    BadSeal,
    /// 80: a text that does not fit its book and key.
    #[error("the text does not fit its book and key")]
    BadSegment,
    /// 81: the next number, or that of an import's last edit, would be above 10^15.
    #[error("no number is left for the edit")]
    NumbersUsedUp,
    /// 82: the book has no operation.
    #[error("the book has no operation")]
    NoBook,
    /// 83: the segment does not show this id, the first such one of those that were given.
    #[error("the segment does not show {} {}", .0.number, .0.name.text())]
    NotShown(OpId),
    /// 84: the text of the operation of this id was left out.
    #[error("the text of {} {} was left out", .0.number, .0.name.text())]
    LeftOut(OpId),
    /// 85: a file of answers has a line that has none of the forms, this one, counted from 1.
    #[error("line {line}: no line of a file of answers")]
    BadAnswers { line: usize },
    /// 90: the writer failed after it had taken this many bytes.
    #[error("the writer failed after {gone} bytes")]
    WriteFailed { gone: u64 },
    /// 100: the needle is empty.
    #[error("the needle is empty")]
    EmptyNeedle,
    /// 110: bytes that do not begin as a project does, with its name.
    #[error("not a project")]
    BadProject,
    /// 120: the reader answered an error.
    #[error("the reader failed")]
    ReadFailed,
    /// 121: the input has more than 268,435,456 bytes.
    #[error("the input is too long")]
    TooLong,
    /// 130: a project's file, or one of a folder, was not made, replaced or renamed.
    #[error("the file was not written")]
    FileFailed,
    /// 131: a book's file in a folder was changed, and what it was written from is not known; or
    /// there are two of one book, or another file in the place of one.
    #[error("the folder's file would lose what stands in it")]
    FileChanged,
    /// 132: of this many segments with a text in what a book's file was written from, it has none.
    #[error("{count} texts are gone from the file")]
    Emptied { count: u64 },
    /// 133: of this many segments a book's file has the text from before another's came in.
    #[error("the file undoes {count} texts that came in")]
    Undone { count: u64 },
    /// 134: a bundle that has nothing in common with the project would bring this many conflicts.
    #[error("the bundle is of another project, and brings {count} conflicts")]
    Unlike { count: u64 },
    /// 135: files are to settle conflicts after a sync that was cut short, or by an older file.
    #[error("no file settles a conflict before a sync was whole")]
    SettledEarly,
}

impl From<AllocError> for Fault {
    ghost from_gives = { λ _ fault. fault ≡ Memory };

    fn from(_: AllocError) -> Self {
        Fault::Memory
    }
}

impl<T: Drop> From<AllocFailed<T>> for Fault {
    ghost from_gives = { λ _ fault. fault ≡ Memory };

    fn from(_: AllocFailed<T>) -> Self {
        Fault::Memory
    }
}

impl From<SettleFault> for Fault {
    ghost from_gives = { λ from fault. fault ≡ faults.of_settling from };

    fn from(fault: SettleFault) -> Self {
        match fault {
            SettleFault::Memory => Fault::Memory,
            SettleFault::NoBook => Fault::NoBook,
        }
    }
}

impl From<ReceiveFault> for Fault {
    ghost from_gives = { λ from fault. fault ≡ faults.of_receiving from };

    fn from(fault: ReceiveFault) -> Self {
        match fault {
            ReceiveFault::Memory => Fault::Memory,
            ReceiveFault::Clash(id) => Fault::Clash(id),
        }
    }
}

impl From<BundleFault> for Fault {
    ghost from_gives = { λ from fault. fault ≡ faults.of_bundle from };

    fn from(fault: BundleFault) -> Self {
        match fault {
            BundleFault::Memory => Fault::Memory,
            _ => Fault::Bundle(fault),
        }
    }
}

impl From<RefFault> for Fault {
    ghost from_gives = { λ from fault. fault ≡ Reference from };

    fn from(fault: RefFault) -> Self {
        Fault::Reference(fault)
    }
}

impl From<IdFault> for Fault {
    ghost from_gives = { λ from fault. fault ≡ Naming from };

    fn from(fault: IdFault) -> Self {
        Fault::Naming(fault)
    }
}

impl From<TokenFault> for Fault {
    ghost from_gives = { λ from fault. fault ≡ faults.of_text from };

    fn from(fault: TokenFault) -> Self {
        let TokenFault::NotUtf8 { valid } = fault;
        Fault::NotText { valid }
    }
}

impl From<BookFault> for Fault {
    ghost from_gives = { λ from fault. fault ≡ faults.of_book from };

    fn from(fault: BookFault) -> Self {
        match fault {
            BookFault::NoId => Fault::NoId,
            BookFault::BadBook => Fault::Reference(RefFault::BadBook),
        }
    }
}

impl From<WholeFault> for Fault {
    ghost from_gives = { λ from fault. fault ≡ faults.of_whole from };

    fn from(fault: WholeFault) -> Self {
        match fault {
            WholeFault::Bundle(fault) => Fault::from(fault),
            WholeFault::Trailing => Fault::Trailing,
        }
    }
}

impl From<JoinFault> for Fault {
    ghost from_gives = { λ from fault. fault ≡ faults.of_joining from };

    fn from(fault: JoinFault) -> Self {
        match fault {
            JoinFault::Memory => Fault::Memory,
            JoinFault::Bundle(fault) => Fault::from(fault),
            JoinFault::Clash(id) => Fault::Clash(id),
        }
    }
}

impl From<EditFault> for Fault {
    ghost from_gives = { λ from fault. fault ≡ faults.of_edit from };

    fn from(fault: EditFault) -> Self {
        match fault {
            EditFault::Memory => Fault::Memory,
            EditFault::BadSegment => Fault::BadSegment,
            EditFault::NoBook => Fault::NoBook,
            EditFault::NotShown(id) => Fault::NotShown(id),
            EditFault::NumbersUsedUp => Fault::NumbersUsedUp,
        }
    }
}

impl From<ImportFault> for Fault {
    ghost from_gives = { λ from fault. fault ≡ faults.of_import from };

    fn from(fault: ImportFault) -> Self {
        match fault {
            ImportFault::Memory => Fault::Memory,
            ImportFault::BadFile(fault) => Fault::from(fault),
            ImportFault::NumbersUsedUp => Fault::NumbersUsedUp,
        }
    }
}

impl From<SinceFault> for Fault {
    ghost from_gives = { λ from fault. fault ≡ faults.of_since from };

    fn from(fault: SinceFault) -> Self {
        match fault {
            SinceFault::Memory => Fault::Memory,
            SinceFault::BadFile(fault) => Fault::from(fault),
            SinceFault::Clash(id) => Fault::Clash(id),
            SinceFault::NumbersUsedUp => Fault::NumbersUsedUp,
        }
    }
}

impl From<TextFault> for Fault {
    ghost from_gives = { λ from fault. fault ≡ faults.of_book_text from };

    fn from(fault: TextFault) -> Self {
        match fault {
            TextFault::Memory => Fault::Memory,
            TextFault::NoBook => Fault::NoBook,
        }
    }
}

impl From<RestoreFault> for Fault {
    ghost from_gives = { λ from fault. fault ≡ faults.of_restoring from };

    fn from(fault: RestoreFault) -> Self {
        match fault {
            RestoreFault::Memory => Fault::Memory,
            RestoreFault::NotHeld(id) => Fault::NotShown(id),
            RestoreFault::LeftOut(id) => Fault::LeftOut(id),
        }
    }
}

impl From<LoadFault> for Fault {
    ghost from_gives = { λ from fault. fault ≡ faults.of_loading from };

    fn from(fault: LoadFault) -> Self {
        match fault {
            LoadFault::Memory => Fault::Memory,
            LoadFault::BadProject => Fault::BadProject,
            LoadFault::Bundle(fault) => Fault::from(fault),
        }
    }
}

impl From<CreateFault> for Fault {
    ghost from_gives = { λ from fault. fault ≡ faults.of_creating from };

    fn from(fault: CreateFault) -> Self {
        match fault {
            CreateFault::Memory => Fault::Memory,
            CreateFault::BadName => Fault::Naming(IdFault::BadName),
        }
    }
}

impl From<ReadFault> for Fault {
    ghost from_gives = { λ from fault. fault ≡ faults.of_reading from };

    fn from(fault: ReadFault) -> Self {
        match fault {
            ReadFault::Memory => Fault::Memory,
            ReadFault::ReadFailed => Fault::ReadFailed,
            ReadFault::TooLong => Fault::TooLong,
        }
    }
}

impl From<ExportFault> for Fault {
    ghost from_gives = { λ from fault. fault ≡ faults.of_export from };

    fn from(fault: ExportFault) -> Self {
        match fault {
            ExportFault::NoBook => Fault::NoBook,
            ExportFault::WriteFailed { gone } => Fault::WriteFailed { gone },
        }
    }
}

impl From<WriteFault> for Fault {
    ghost from_gives = { λ from fault. fault ≡ WriteFailed from.gone };

    fn from(fault: WriteFault) -> Self {
        Fault::WriteFailed { gone: fault.gone }
    }
}

impl From<SheetFault> for Fault {
    ghost from_gives = { λ from fault. fault ≡ faults.of_sheet from };

    fn from(fault: SheetFault) -> Self {
        match fault {
            SheetFault::Memory => Fault::Memory,
            SheetFault::FieldBeforeMarker { line } => Fault::FieldBeforeMarker { line },
            SheetFault::EmptyMarker { line } => Fault::EmptyMarker { line },
            SheetFault::BadStyleType { line } => Fault::BadStyleType { line },
        }
    }
}

impl From<VersificationFault> for Fault {
    ghost from_gives = { λ from fault. fault ≡ faults.of_versification from };

    fn from(fault: VersificationFault) -> Self {
        match fault {
            VersificationFault::Memory => Fault::Memory,
            VersificationFault::BadLine { line } => Fault::BadVersification { line },
        }
    }
}

impl From<SummaryFault> for Fault {
    ghost from_gives = { λ from fault. fault ≡ faults.of_summary from };

    fn from(fault: SummaryFault) -> Self {
        match fault {
            SummaryFault::Memory => Fault::Memory,
            SummaryFault::BadSummary => Fault::BadSummary,
        }
    }
}

impl From<SealFault> for Fault {
    ghost from_gives = { λ _ fault. fault ≡ BadSeal };

    fn from(_: SealFault) -> Self {
        Fault::BadSeal
    }
}

impl From<FindFault> for Fault {
    ghost from_gives = { λ from fault. fault ≡ faults.of_find from };

    fn from(fault: FindFault) -> Self {
        match fault {
            FindFault::Memory => Fault::Memory,
            FindFault::EmptyNeedle => Fault::EmptyNeedle,
        }
    }
}
