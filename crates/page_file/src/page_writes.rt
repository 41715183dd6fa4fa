use geom_core::Memory;

/// Why a page file was not written whole.
#[derive(Clone, Copy, Debug, PartialEq, Eq)]
pub enum PageWrite {
    /// Out of memory; nothing was written.
    Memory,
    /// A write or the flush failed; a prefix of the file was written, perhaps nothing, perhaps all of it.
    Write,
}

impl From<Memory> for PageWrite {
    ghost use Rattle.std.specs.Prelude.{◌≡◌};
    ghost use Rattle.page_file.specs.declared.page_writes.PageWrite.TheVariants as faults;

    ghost from_gives = { λ shortage fault. fault ≡ faults.Memory };

    fn from(_shortage: Memory) -> PageWrite {
        PageWrite::Memory
    }
}
