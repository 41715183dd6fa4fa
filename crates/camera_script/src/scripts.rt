ghost use Rattle.std.specs.Prelude.{◌≡◌};

use geom_core::Size;
use std::marker::Model;
use view_camera::Camera;

/// Most shots of a script.
pub const MAX_SHOTS: u32 = 1_024;

/// Most printed shots of a script; a report has their pictures.
pub const MAX_PRINTS: u32 = 64;

/// One frame of a script.
#[derive(Debug, Drop)]
pub struct Shot {
    /// Where the frame is seen from.
    pub camera: Camera,
    /// Whether the frame waits for the pages that it needs.
    pub settle: bool,
    /// Whether the frame's picture is printed.
    pub print: bool,
}

/// The shots of a script, the first one first. A contract sees the list.
#[derive(Debug, Drop)]
pub struct Shots {
    items: Vec<Shot>,
}

impl Model for Shots {
    ghost use Rattle.std.specs.Prelude.{List};
    ghost use Rattle.camera_script.specs.declared.scripts.Shot.{Shot};

    ghost Value = { List Shot };

    ghost view = { λ shots. shots.items.items };
}

impl Shots {
    /// Wraps the shots. Takes no memory.
    pub fn of(items: Vec<Shot>) -> Shots
        ensures { result ≡ items.items }
    {
        Shots { items }
    }

    /// Returns the shots, the first one first.
    pub fn as_slice(&self) -> &[Shot]
        ensures { result.now ≡ self.now }
    {
        self.items.as_slice()
    }
}

/// The frames to be drawn, and the size of their pictures.
#[derive(Debug, Drop)]
pub struct Script {
    /// The size of each picture.
    pub size: Size,
    /// The shots, numbered from 0: 1 to `MAX_SHOTS`, at most `MAX_PRINTS` of them printed.
    pub shots: Shots,
}

#[cfg(test)]
mod tests {
    use super::*;
    use crate::faults::ScriptFault;

    /// Compiles only if threads may hold and share a value of this type.
    fn is_shared<T: Send + Sync>() -> bool {
        true
    }

    #[test]
    fn threads_hold_scripts(rt: HostRuntime) {
        assert!(rt; is_shared::<Script>());
        assert!(rt; is_shared::<Shot>());
        assert!(rt; is_shared::<ScriptFault>());
    }
}
