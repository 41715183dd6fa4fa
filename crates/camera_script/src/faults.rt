use std::alloc::{AllocError, AllocFailed};
use thiserror::Error;

/// What is wrong with a script. The variants are in order of precedence: the first four are looked for in
/// the whole text; the others frame by frame, in ascending order.
#[derive(Clone, Copy, Debug, PartialEq, Eq, Error)]
pub enum ScriptWhy {
    /// The bytes are not the text of a JSON value with at most 127 levels of nesting.
    #[error("text")]
    Text,
    /// The value is not an object with exactly the members `size` and `frames`, or `frames` is no array.
    #[error("shape")]
    Shape,
    /// `size` is not an array of exactly two whole numbers from 1 to `MAX_SIDE`.
    #[error("size")]
    Size,
    /// The number of frames is not from 1 to `MAX_SHOTS`.
    #[error("count")]
    Count,
    /// The frame is not an object with exactly the members `camera`, fifteen whole numbers, and `settle` and
    /// `print`, each true or false.
    #[error("member")]
    Member,
    /// The camera's number with this index, from 0, is the first that is out of its range.
    #[error("camera {0}")]
    Camera(u8),
    /// The frame is one more printed frame than `MAX_PRINTS`.
    #[error("prints")]
    Prints,
}

/// Why no script was read. `Memory` may come at any place of the text.
#[derive(Clone, Copy, Debug, PartialEq, Eq, Error)]
pub enum ScriptFault {
    /// The text is no script.
    #[error("script: {why}")]
    Bad {
        /// The number of the faulty frame, from 0; None if the fault is none of a frame.
        frame: Option<u32>,
        /// The first fault.
        why: ScriptWhy,
    },
    /// Memory ran out.
    #[error("out of memory")]
    Memory,
}

impl From<AllocError> for ScriptFault {
    ghost use Rattle.std.specs.Prelude.{◌≡◌};
    ghost use Rattle.camera_script.specs.declared.faults.ScriptFault.TheVariants.{Memory};

    ghost from_gives = { λ _ fault. fault ≡ Memory };

    fn from(_refused: AllocError) -> ScriptFault {
        ScriptFault::Memory
    }
}

impl<T: Drop> From<AllocFailed<T>> for ScriptFault {
    ghost use Rattle.std.specs.Prelude.{◌≡◌};
    ghost use Rattle.camera_script.specs.declared.faults.ScriptFault.TheVariants.{Memory};

    ghost from_gives = { λ _ fault. fault ≡ Memory };

    fn from(_refused: AllocFailed<T>) -> ScriptFault {
        ScriptFault::Memory
    }
}
