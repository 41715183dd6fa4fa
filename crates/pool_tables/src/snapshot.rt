ghost use Rattle.std.specs.Prelude.{◌≡◌, true};
ghost use Rattle.pool_tables.specs.Internal.SnapshotList.{AreListed, IsCurrent, IsSnapshotList};

use crate::frame_item::FrameItem;
use std::collections::BTreeMap;

/// What was resident at a Pin: the pages that were installed up to its count of entries.
#[derive(Clone, Copy, Debug)]
pub struct Snapshot {
    /// The count of entries at the Pin.
    pub count: u64,
    /// The number of the frame that it pinned.
    pub frame: u32,
}

/// Whether the frame of the snapshot still has it.
fn is_current(items: &BTreeMap<u32, FrameItem>, snapshot: Snapshot) -> bool
    ensures current { result ≡ true → IsCurrent items.now.entries snapshot }
    ensures stale { IsCurrent items.now.entries snapshot → result ≡ true }
{
    match items.get(&snapshot.frame) {
        Some(item) => item.snapshot == Some(snapshot.count),
        None => false,
    }
}

/// Removes the last snapshots up to one that is still its frame's.
pub fn pop_stale(snapshots: &mut Vec<Snapshot>, items: &BTreeMap<u32, FrameItem>)
    requires listed { AreListed items.now.entries snapshots.old.items }
    ensures { IsSnapshotList items.now.entries snapshots.new.items }
{
    'stale: while let Some(last) = snapshots.last().copied() {
        if is_current(items, last) {
            return;
        }
        snapshots.pop();
    }
}
