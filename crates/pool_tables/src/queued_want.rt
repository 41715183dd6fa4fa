ghost use Rattle.std.specs.Prelude.{◌≡◌};

use crate::frame_item::FrameId;
use pool_rules::Want;

/// A want of a frame, and when it was made.
#[derive(Clone, Copy, Debug)]
pub struct QueuedWant {
    /// The frame that wants the page.
    pub frame: FrameId,
    /// The page that it wants.
    pub page: u32,
    /// Whether a Settle made the want, and not an Ask.
    pub settled: bool,
    /// The count of entries at the Settle or Ask.
    pub made_at: u64,
}

impl QueuedWant {
    ghost use Rattle.pool_tables.specs.WantQueue.{want_of};

    /// Returns the want without the count.
    pub fn want(self) -> Want
        ensures { result ≡ want_of self }
    {
        Want {
            frame: self.frame.0,
            page: self.page,
            settled: self.settled,
        }
    }
}
