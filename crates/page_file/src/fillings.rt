ghost use Rattle.std.specs.Prelude.{◌≡◌, ◌≤◌, ◌<◌, ◌+◌, ◌-◌, ◌^◌};
ghost use Rattle.page_file.specs.PagesRule.{closed_at, place};

use geom_core::limits::PAGE_TRIANGLES;

/// Pages that are filled one after the other by next fit: a group that does not fit on the last page begun begins
/// a new page, and no earlier page gets another group (Johnson, "Near-optimal bin packing algorithms", 1973).
#[derive(Clone, Copy, Debug)]
pub(crate) struct Filling {
    /// The number of pages begun.
    pub(crate) begun: u32,
    /// The room on the last page begun, in triangles; 0 if the next group has to begin a page.
    pub(crate) room: u32,
}

impl Filling {
    /// Returns a part of which `begun` pages are begun and none has room: the next group begins a page.
    pub(crate) fn closed_at(begun: u32) -> Filling
        ensures filling { result ≡ closed_at begun }
    {
        Filling { begun, room: 0 }
    }

    /// Places a group of `size` triangles. Returns its page.
    #[tactic(auto, unfolding(crate::specs::PagesRule::place))]
    pub(crate) fn place(&mut self, size: u32) -> u32
        requires some_triangle { 1 ≤ size }
        requires size_limit { size ≤ PAGE_TRIANGLES }
        requires page_limit { self.old.begun + 1 < 2 ^ 32 }
        requires room_of_a_page { 1 ≤ self.old.room → 1 ≤ self.old.begun }
        ensures placed { self.new ≡ place self.old size }
        ensures page { result ≡ self.new.begun - 1 }
    {
        if size <= self.room {
            self.room -= size;
        } else {
            self.begun += 1;
            self.room = PAGE_TRIANGLES - size;
        }
        self.begun - 1
    }
}
