ghost use Rattle.geom_core.specs.declared.limits.TheConstants.{MAX_SIDE};
ghost use Rattle.std.specs.Prelude.{◌≡◌, ◌≤◌, ◌*◌, length, take};

use crate::sinks::PixelSink;

/// The most puts that a recorder keeps.
pub const ROOM: usize = 16;

/// A sink that keeps the list of its puts, as long as there are at most 16.
#[derive(Drop)]
pub struct Recorder {
    /// The puts, and after them what was there before.
    pub puts: [(u32, u64); ROOM],
    /// How many puts came.
    pub count: usize,
}

impl Recorder {
    pub fn new() -> Self
        ensures { result.count ≡ 0 }
    {
        Recorder {
            puts: [(0, 0); ROOM],
            count: 0,
        }
    }
}

impl PixelSink for Recorder {
    type Rest = ();

    ghost pixels = { λ _. MAX_SIDE * MAX_SIDE };

    ghost shows = { λ recorder _ puts. length puts ≤ 16
        → (recorder.count ≡ length puts) × (take recorder.count recorder.puts ≡ puts) };

    fn put(&mut self, pixel: u32, word: u64) {
        if self.count < ROOM {
            self.puts[self.count] = (pixel, word);
            self.count += 1;
        }
    }
}
