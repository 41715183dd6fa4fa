use crate::entries::Entries;
use crate::layouts::Layout;
use geom_core::Memory;
use thiserror::Error;

/// A pool's layout and its event log: what the text of a journal spells.
#[derive(Debug, Drop)]
pub struct Journal {
    /// The pages and slots of the pool.
    pub layout: Layout,
    /// The entries, the earliest first.
    pub entries: Entries,
}

/// Why no journal was read. Of two lines outside the grammar the first is reported.
#[derive(Clone, Copy, Debug, PartialEq, Eq, Error)]
pub enum JournalFault {
    /// The text has a line outside the grammar.
    #[error("line {line}")]
    Line {
        /// The number of the first such line, from 1, comments included. If the text has no layout line and
        /// no other line outside the grammar, it is the number of lines plus 1.
        line: u64,
    },
    /// Memory ran out.
    #[error("out of memory")]
    Memory,
}

impl From<Memory> for JournalFault {
    ghost use Rattle.std.specs.Prelude.{◌≡◌};
    ghost use Rattle.journal.specs.declared.journals.JournalFault.TheVariants as journal;

    ghost from_gives = { λ _ fault. fault ≡ journal.Memory };

    fn from(_refused: Memory) -> JournalFault {
        JournalFault::Memory
    }
}

#[cfg(test)]
mod tests {
    use super::*;
    use crate::entries::Entry;

    /// Compiles only if threads may hold and share a value of this type.
    fn is_shared<T: Send + Sync>() -> bool {
        true
    }

    #[test]
    fn threads_hold_journals(rt: HostRuntime) {
        assert!(rt; is_shared::<Layout>());
        assert!(rt; is_shared::<Entry>());
        assert!(rt; is_shared::<Entries>());
        assert!(rt; is_shared::<Journal>());
    }
}
