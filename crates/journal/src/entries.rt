ghost use Rattle.std.specs.Prelude.{◌≡◌, List};

use geom_core::{Digest32, Nums};
use std::marker::Model;

/// Why the bytes that a load read are not their page.
#[derive(Clone, Copy, Debug, PartialEq, Eq)]
pub enum Spoilt {
    /// Their digest is not the one in the directory.
    Digest {
        /// The digest in the directory.
        stated: Digest32,
        /// The digest of the bytes that were read.
        found: Digest32,
    },
    /// They are not in the grammar of pages.
    Grammar {
        /// The number of the rule that is broken, 1 to 4.
        rule: u8,
        /// Where it is broken, in bytes from the page's start, below `PAGE_BYTES`.
        offset: u32,
    },
    /// The file has fewer bytes for the page than a page has.
    Short {
        /// How many bytes it has, below `PAGE_BYTES`.
        got: u32,
    },
}

/// An event of the pool: what a maker did. The variants are the kinds of events.
#[derive(Debug, Drop)]
pub enum What {
    /// A frame begins, or pins anew: it pins all pages that are resident (a snapshot).
    Pin {
        /// The frame's number.
        frame: u32,
    },
    /// A frame states the pages that it needs: the resident ones, and those that it waits for.
    Settle {
        /// The frame's number.
        frame: u32,
        /// The needed pages that are resident, ascending. They become the frame's pins.
        pages: Nums,
        /// The needed pages that are not resident, ascending. The frame wants them, and pins each when it is
        /// installed.
        missing: Nums,
    },
    /// A frame asks for pages without waiting for them (a prefetch).
    Ask {
        /// The frame's number.
        frame: u32,
        /// The pages that it asks for, none of them resident, ascending.
        pages: Nums,
    },
    /// A frame reduces its pins to these.
    Narrow {
        /// The frame's number.
        frame: u32,
        /// The pages that stay pinned, ascending.
        pages: Nums,
    },
    /// A frame ends. Its pins end; its wants stay until the next Settle or Ask of any frame.
    Unpin {
        /// The frame's number.
        frame: u32,
    },
    /// A load begins: a maker takes a page, and evicts the victim if there is one.
    Take {
        /// The frame for whose wants the page is loaded; None for the wants of all frames.
        frame: Option<u32>,
        /// The page that is taken.
        page: u32,
        /// The page that is evicted for it; None if a slot is free.
        victim: Option<u32>,
    },
    /// A load ends with its page, which is then resident.
    Install {
        /// The page that was loaded.
        page: u32,
        /// The digest of the bytes that were read.
        digest: Digest32,
    },
    /// A load ends with a failed read.
    Fail {
        /// The page of the load.
        page: u32,
        /// The source's count of faults before the read.
        before: u64,
        /// The source's count of faults after it.
        after: u64,
    },
    /// A load ends with bytes that are not the page.
    Spoil {
        /// The page of the load.
        page: u32,
        /// What was wrong with the bytes.
        why: Spoilt,
    },
    /// A load ends because memory ran out.
    Starve {
        /// The page of the load.
        page: u32,
    },
    /// A frame learns that a page that it wants could be taken, but no slot is free and no page is evictable.
    Full {
        /// The frame's number.
        frame: u32,
    },
    /// The pool stops: no page is taken after this entry.
    Stop,
}

/// An entry of the journal, which is the pool's event log.
#[derive(Debug, Drop)]
pub struct Entry {
    /// The maker: 0 for the frames, n for loader n.
    pub by: u32,
    /// The event.
    pub what: What,
}

/// The entries of a journal, the earliest first. A contract sees the list.
#[derive(Debug, Drop)]
pub struct Entries {
    items: Vec<Entry>,
}

impl Model for Entries {
    ghost use Rattle.std.specs.Prelude.{List};
    ghost use Rattle.journal.specs.declared.entries.Entry.{Entry};

    ghost Value = { List Entry };

    ghost view = { λ entries. entries.items.items };
}

impl Entries {
    /// Wraps the entries. Takes no memory.
    pub fn of(items: Vec<Entry>) -> Entries
        ensures { result ≡ items.items }
    {
        Entries { items }
    }

    /// Returns the entries, the earliest first.
    pub fn as_slice(&self) -> &[Entry]
        ensures { result.now ≡ self.now }
    {
        self.items.as_slice()
    }

    /// Returns the vector of the entries. Takes no memory.
    pub fn into_vec(self) -> Vec<Entry>
        ensures { result.items ≡ self }
    {
        let Entries { items } = self;
        items
    }
}
