/// What a loader may do next, for a frame or for all of them.
#[derive(Clone, Copy, Debug, PartialEq, Eq)]
pub enum Next {
    /// Take this page, and evict the victim if there is one.
    Take {
        /// The page to take.
        page: u32,
        /// The page to evict for it; None if a slot is free.
        victim: Option<u32>,
    },
    /// This page could be taken, but no slot is free and no page is evictable.
    Full {
        /// The page that could be taken.
        page: u32,
    },
    /// No page that the frame wants can be taken, and one of those pages is being loaded.
    Busy {
        /// The page of the frame's first want that is being loaded.
        page: u32,
    },
    /// No page that is wanted can be taken.
    Nothing,
}
