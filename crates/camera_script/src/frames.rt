ghost use Rattle.std.specs.Prelude.{◌≡◌, Some};
ghost use Rattle.serde_json.specs.View.{view};
ghost use Rattle.camera_script.specs.Script.{frame_in, shot_at, shot_in};
ghost use Rattle.camera_script.specs.declared.faults.ScriptFault.TheVariants as fault;

use crate::faults::{ScriptFault, ScriptWhy};
use crate::members::{camera_numbers, has_members};
use crate::scripts::{MAX_PRINTS, Shot};
use serde_json::Value;
use view_camera::Camera;

/// Members of a frame: `camera`, `print` and `settle`.
const FRAME_MEMBERS: usize = 3;

/// What the members of a frame hold.
#[derive(Clone, Copy)]
pub(crate) struct FrameMembers {
    /// The numbers of the camera, in the order of `Camera::new`; not yet judged.
    pub numbers: [i64; 15],
    /// Whether the frame waits for its pages.
    pub settle: bool,
    /// Whether its picture is printed.
    pub print: bool,
}

/// Returns what a frame's members hold, if the value is an object with exactly these members of these kinds.
#[tactic(auto, unfolding(crate::specs::Script::frame_in))]
fn frame_members(value: &Value) -> Option<FrameMembers>
    ensures { result ≡ frame_in (view value.now) }
{
    if !has_members(value, FRAME_MEMBERS) {
        return None;
    }
    let numbers = camera_numbers(value.get("camera")?)?;
    let settle = value.get("settle")?.as_bool()?;
    let print = value.get("print")?.as_bool()?;
    Some(FrameMembers {
        numbers,
        settle,
        print,
    })
}

/// Returns the shot of a frame, or its first fault.
#[tactic(auto, unfolding(crate::specs::Script::shot_in))]
fn shot_of_value(value: &Value) -> Result<Shot, ScriptWhy>
    ensures { result ≡ shot_in (view value.now) }
{
    let Some(frame) = frame_members(value) else {
        return Err(ScriptWhy::Member);
    };
    match Camera::new(frame.numbers) {
        Ok(camera) => Ok(Shot {
            camera,
            settle: frame.settle,
            print: frame.print,
        }),
        Err(bad) => Err(ScriptWhy::Camera(bad.field)),
    }
}

/// Returns the shot of the frame with this number, before which `prints` frames are printed, or its first
/// fault.
#[tactic(auto, unfolding(crate::specs::Script::shot_at))]
pub(crate) fn shot_of_frame(frame: u32, prints: u32, value: &Value) -> Result<Shot, ScriptFault>
    ensures { result ≡ shot_at frame prints (view value.now) }
{
    let shot = match shot_of_value(value) {
        Ok(shot) => shot,
        Err(why) => return Err(bad_frame(frame, why)),
    };
    if shot.print && prints >= MAX_PRINTS {
        return Err(bad_frame(frame, ScriptWhy::Prints));
    }
    Ok(shot)
}

/// Returns the fault of a frame.
fn bad_frame(frame: u32, why: ScriptWhy) -> ScriptFault
    ensures { result ≡ fault.Bad (Some frame) why }
{
    ScriptFault::Bad {
        frame: Some(frame),
        why,
    }
}
