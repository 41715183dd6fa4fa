ghost use Rattle.std.specs.Prelude.{◌≡◌};
ghost use Rattle.page_codec.specs.declared.breaks.Refused.TheVariants as refusals;

use geom_core::Memory;

/// A rule of the grammar that bytes break, and where.
#[derive(Clone, Copy, Debug, PartialEq, Eq)]
pub struct Break {
    /// The rule's number: 1 to 4 in a page, 1 to 7 in a directory.
    pub rule: u8,
    /// The place of what breaks it, in bytes from the start of the page or of the directory: that of the whole
    /// triangle or record, but of the byte itself in a page's tail.
    pub offset: u32,
}

/// Why bytes were not decoded. `Bad` comes exactly where they break a rule, unless memory runs out.
#[derive(Clone, Copy, Debug, PartialEq, Eq)]
pub enum Refused {
    /// They break a rule; this is the first break.
    Bad(Break),
    /// Out of memory.
    Memory,
}

impl From<Memory> for Refused {
    ghost from_gives = { λ shortage refused. refused ≡ refusals.Memory };

    fn from(_shortage: Memory) -> Refused {
        Refused::Memory
    }
}
