ghost use Rattle.std.specs.Prelude.{◌≡◌};
ghost use Rattle.obj_source.specs.declared.faults.ObjFault.TheVariants.{Memory};

use std::alloc::AllocError;
use thiserror::Error;

/// What is wrong with a line, and the faulty word's number in it, from 0: the `v` or `f` is word 0.
#[derive(Clone, Copy, Debug, PartialEq, Eq, Error)]
pub enum ObjWhy {
    /// A word where a coordinate is due is no numeral, or it is missing.
    #[error("bad number {0}")]
    BadNumber(u32),
    /// A coordinate isn't within the grid.
    #[error("out of range {0}")]
    OutOfRange(u32),
    /// A corner doesn't begin with a vertex's number.
    #[error("bad corner {0}")]
    BadCorner(u32),
    /// A corner names no vertex of the lines above.
    #[error("no such vertex {0}")]
    NoSuchVertex(u32),
    /// A face has fewer than three corners.
    #[error("short face")]
    ShortFace,
}

/// Why a text gave no mesh: its first fault, line by line. `Read` and `Memory` may come at any place.
#[derive(Clone, Copy, Debug, PartialEq, Eq, Error)]
pub enum ObjFault {
    /// A line has a fault.
    #[error("line {line}: {why}")]
    Line {
        /// The line's number, from 1.
        line: u32,
        /// What is wrong with it.
        why: ObjWhy,
    },
    /// A line would bring the triangles above 2^20.
    #[error("more than 1048576 triangles")]
    TooMany,
    /// The text has more than 2^28 bytes, and no line that ends among these has a fault.
    #[error("input too long")]
    TooLong,
    /// The text has no triangle with three different corners.
    #[error("no triangle")]
    Empty,
    /// A read of the source failed.
    #[error("input could not be read")]
    Read,
    /// Memory ran out.
    #[error("out of memory")]
    Memory,
}

impl From<AllocError> for ObjFault {
    ghost from_gives = { λ refused fault. fault ≡ Memory };

    fn from(_refused: AllocError) -> ObjFault {
        ObjFault::Memory
    }
}
