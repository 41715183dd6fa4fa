ghost use Rattle.std.specs.Prelude.{◌≡◌};
ghost use Rattle.geode_tool.specs.Statuses.{status_of};

use crate::open_fault_texts::OpenFaultText;
use dag_core::Counts;
use geom_core::Memory;
use journal::JournalFault;
use obj_source::{ObjFault, ObjWhy};
use page_file::{OpenFault, PageWrite, VerifyFault};
use residency::ReplayFault;
use span_io::TextFault;
use thiserror::Error;

/// What a command did, if it succeeded. Neither copied nor compared: variants to come hold lists.
#[derive(Debug, Drop)]
pub enum Done {
    /// `draw` wrote the picture.
    Drawn,
    /// `audit` wrote that the journal is legal.
    Audited {
        /// The number of entries of the journal.
        entries: u64,
    },
    /// `make` wrote the text of the box.
    Made,
    /// `build` wrote the page file.
    Built(
        /// The counts that the file's header states.
        Counts,
    ),
    /// `verify` wrote that the page file is sound.
    Verified(
        /// The counts that the file's header states.
        Counts,
    ),
}

/// What is wrong with a command line.
#[derive(Clone, Copy, Debug, PartialEq, Eq, Error)]
pub enum UsageKind {
    /// The words are no command.
    #[error("line")]
    Line,
}

/// Why a command was not done. Neither copied nor compared: variants to come hold lists.
///
/// `Usage`, then `NoSource`, come before anything is read. `ReadFault`, `WriteFault` and `Memory` are failures of the
/// outside. The others are facts of the text, by its lines and not in one order: in `draw` and `build` the first line
/// with a fault decides, so that `TooMany` of line 5 comes before `BadObj` of line 6, and `TooLong` and `Empty` come if
/// no line has a fault; in `audit` `TooLong` comes first, then `BadJournal`, then `Illegal`. In `verify` the parts of
/// the page file are judged in their order, so that `PageFault` or `Pages` comes first, then `Unsound`.
#[derive(Debug, Drop, Error)]
pub enum Fault {
    /// The words are no command; nothing was read or written.
    #[error("usage: {0}")]
    Usage(UsageKind),
    /// Fewer page sources were handed in than the command needs; nothing was read or written.
    #[error("{need} sources needed, {have} given")]
    NoSource {
        /// The number of sources that the command needs.
        need: u32,
        /// The number of sources that were handed in.
        have: u32,
    },
    /// The input failed before its end; nothing was written.
    #[error("input could not be read")]
    ReadFault,
    /// The input is longer than `MAX_OBJ_BYTES` (`draw` and `build`, if no line that ends within them has a fault) or
    /// `MAX_JOURNAL_BYTES` (`audit`); nothing was written.
    #[error("input too long")]
    TooLong,
    /// A line of the OBJ text has a fault; nothing was written.
    #[error("line {line}: {why}")]
    BadObj {
        /// The number of the first such line, from 1; all lines are counted.
        line: u32,
        /// What is wrong with it.
        why: ObjWhy,
    },
    /// The text has more than `MAX_TRIANGLES` triangles; nothing was written.
    #[error("more than 1048576 triangles")]
    TooMany,
    /// The text has no triangle with three different corners; nothing was written.
    #[error("no triangle")]
    Empty,
    /// The input is not the text of a journal; nothing was written.
    #[error("journal line {line}")]
    BadJournal {
        /// The number of the first line outside the grammar, from 1; all lines are counted. If the layout
        /// is missing, the number after that of the last line.
        line: u64,
    },
    /// An entry of the journal was not allowed after those before it; nothing was written.
    #[error("entry {entry} not allowed")]
    Illegal {
        /// The index of the first such entry, from 0.
        entry: u64,
    },
    /// The bytes of the first page source are no page file of which every part is as its header and directory say;
    /// nothing was written. It is neither `OpenFault::PageFault` nor `OpenFault::Memory`, which have variants here.
    #[error("page file: {}", OpenFaultText(.0))]
    Pages(OpenFault),
    /// A read of the first page source failed; nothing was written.
    #[error("page file could not be read")]
    PageFault,
    /// The page file opened, and its DAG is not sound: this is the first break of a rule; nothing was written.
    #[error("rule {rule} broken at {index}")]
    Unsound {
        /// The rule's number: 6 edge sums, 7 sources, 8 corners.
        rule: u8,
        /// The least index at which it is broken, from 0: of a group, of a source triangle, of a cluster.
        index: u32,
    },
    /// The output failed; a prefix of the result was written, possibly empty or complete.
    #[error("output could not be written")]
    WriteFault,
    /// Memory ran out; nothing was written, since each command takes all its memory first.
    #[error("out of memory")]
    Memory,
}

impl From<Memory> for Fault {
    ghost use Rattle.geode_tool.specs.declared.faults.Fault.TheVariants as faults;

    ghost from_gives = { λ shortage fault. fault ≡ faults.Memory };

    fn from(_shortage: Memory) -> Fault {
        Fault::Memory
    }
}

impl From<ObjFault> for Fault {
    ghost use Rattle.geode_tool.specs.Faults.{fault_of_obj};

    ghost from_gives = { λ part fault. fault ≡ fault_of_obj part };

    fn from(part: ObjFault) -> Fault {
        match part {
            ObjFault::Line { line, why } => Fault::BadObj { line, why },
            ObjFault::TooMany => Fault::TooMany,
            ObjFault::TooLong => Fault::TooLong,
            ObjFault::Empty => Fault::Empty,
            ObjFault::Read => Fault::ReadFault,
            ObjFault::Memory => Fault::Memory,
        }
    }
}

impl From<TextFault> for Fault {
    ghost use Rattle.geode_tool.specs.Faults.{fault_of_text};

    ghost from_gives = { λ part fault. fault ≡ fault_of_text part };

    fn from(part: TextFault) -> Fault {
        match part {
            TextFault::Read => Fault::ReadFault,
            TextFault::TooLong => Fault::TooLong,
            TextFault::Memory => Fault::Memory,
        }
    }
}

impl From<PageWrite> for Fault {
    ghost use Rattle.geode_tool.specs.Faults.{fault_of_pages};

    ghost from_gives = { λ part fault. fault ≡ fault_of_pages part };

    fn from(part: PageWrite) -> Fault {
        match part {
            PageWrite::Memory => Fault::Memory,
            PageWrite::Write => Fault::WriteFault,
        }
    }
}

impl From<OpenFault> for Fault {
    ghost use Rattle.geode_tool.specs.Faults.{fault_of_open};

    ghost from_gives = { λ part fault. fault ≡ fault_of_open part };

    fn from(part: OpenFault) -> Fault {
        match part {
            OpenFault::PageFault => Fault::PageFault,
            OpenFault::Memory => Fault::Memory,
            OpenFault::Magic { .. }
            | OpenFault::Version { .. }
            | OpenFault::Truncated { .. }
            | OpenFault::DirectoryDigest { .. }
            | OpenFault::DirectoryBad { .. }
            | OpenFault::Rule { .. }
            | OpenFault::PageDigest { .. }
            | OpenFault::PageBad { .. } => Fault::Pages(part),
        }
    }
}

impl From<VerifyFault> for Fault {
    ghost use Rattle.geode_tool.specs.Faults.{fault_of_verify};

    ghost from_gives = { λ part fault. fault ≡ fault_of_verify part };

    fn from(part: VerifyFault) -> Fault {
        match part {
            VerifyFault::Open(fault) => Fault::from(fault),
            VerifyFault::Broken { rule, index } => Fault::Unsound { rule, index },
        }
    }
}

impl From<JournalFault> for Fault {
    ghost use Rattle.geode_tool.specs.Faults.{fault_of_journal};

    ghost from_gives = { λ part fault. fault ≡ fault_of_journal part };

    fn from(part: JournalFault) -> Fault {
        match part {
            JournalFault::Line { line } => Fault::BadJournal { line },
            JournalFault::Memory => Fault::Memory,
        }
    }
}

impl From<ReplayFault> for Fault {
    ghost use Rattle.geode_tool.specs.Faults.{fault_of_replay};

    ghost from_gives = { λ part fault. fault ≡ fault_of_replay part };

    fn from(part: ReplayFault) -> Fault {
        match part {
            ReplayFault::Illegal { entry } => Fault::Illegal { entry },
            ReplayFault::Memory => Fault::Memory,
        }
    }
}

impl Fault {
    /// Returns the exit status of this fault. Different variants have different statuses; 0 is success.
    pub fn status(&self) -> u8
        ensures { result ≡ status_of self.now }
    {
        match self {
            Fault::Memory => 2,
            Fault::Usage(_) => 3,
            Fault::ReadFault => 4,
            Fault::WriteFault => 5,
            Fault::BadObj { .. } => 6,
            Fault::Empty => 7,
            Fault::TooMany => 8,
            Fault::TooLong => 9,
            Fault::BadJournal { .. } => 11,
            Fault::NoSource { .. } => 12,
            Fault::Pages(_) => 13,
            Fault::PageFault => 14,
            Fault::Unsound { .. } => 16,
            Fault::Illegal { .. } => 17,
        }
    }
}
