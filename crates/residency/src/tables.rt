ghost use Rattle.std.specs.Prelude.{◌≡◌, [], IfOk};
ghost use Rattle.journal.specs.Layout.{InBounds};
ghost use Rattle.residency.specs.Internal.Tables.{number_of};

use crate::Layout;
use geom_core::Memory;
use pool_tables::{FrameId, FrameTable, MakerTable, PageTable, WantList};
use std::alloc::Global;

/// What is kept of a journal.
#[derive(Debug, Drop)]
pub struct Tables {
    /// A record of each page.
    pub pages: PageTable,
    /// An item of each frame that began.
    pub frames: FrameTable,
    /// The wants, with some that are over.
    pub wants: WantList,
    /// The makers' counts of faults.
    pub makers: MakerTable,
    /// Whether the journal has a Stop.
    pub stopped: bool,
}

/// Returns the frame's number, if there is one, as an id.
pub fn frame_id(frame: Option<u32>) -> Option<FrameId>
    ensures { number_of result ≡ frame }
{
    match frame {
        Some(frame) => Some(FrameId(frame)),
        None => None,
    }
}

impl Tables {
    ghost use Rattle.residency.specs.Internal.Tables.{AreTables};

    /// Returns the tables of a journal without entries.
    pub fn new(alloc: Global, layout: &Layout) -> Result<Tables, Memory>
        requires layout_bounds { InBounds layout.now }
        ensures { IfOk result (λ tables. AreTables layout.now [] tables) }
    {
        Ok(Tables {
            pages: PageTable::new(alloc, layout.pages, layout.roots)?,
            frames: FrameTable::new(alloc),
            wants: WantList::new(alloc),
            makers: MakerTable::new(alloc),
            stopped: false,
        })
    }
}
