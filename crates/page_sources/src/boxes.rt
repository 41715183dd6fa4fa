ghost use Rattle.std.specs.Prelude.{◌≡◌, ◌<◌, ◌^◌};
ghost use Rattle.page_sources.specs.PageReads.{PageReadDoes};

use crate::{PageGot, PageSource};

/// A box answers as the source in it.
impl PageSource for Box<dyn PageSource + Send> {
    ghost holds = { λ b. (PageSource-box b).holds b.value };

    ghost faults = { λ b. (PageSource-box b).faults b.value };

    fn read(&mut self, at: u64, into: &mut [u8]) -> PageGot {
        (**self).read(at, into)
    }

    fn faults(&self) -> u64 {
        (**self).faults()
    }
}
