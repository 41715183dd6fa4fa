ghost use Rattle.std.specs.Prelude.{◌≡◌, ◌⊎◌, ◌≤◌, [], ℕ, Option, None, Ok, Err, IfOk, map, length, codes};
ghost use Rattle.std.specs.Option.{option_map, option_and_then};
ghost use Rattle.serde_json.specs.Errors.{IsMemory};
ghost use Rattle.serde_json.specs.Find.{get};
ghost use Rattle.serde_json.specs.View.{view};
ghost use Rattle.camera_script.specs.Internal.Answers.{AnswersOrMemory};
ghost use Rattle.camera_script.specs.IsScript.{IsScript};
ghost use Rattle.camera_script.specs.Members.{items_in};
ghost use Rattle.camera_script.specs.Script.{script_in, script_of, shots_from};
ghost use Rattle.camera_script.specs.declared.faults.ScriptFault.TheVariants as fault;
ghost use Rattle.camera_script.specs.declared.faults.ScriptWhy.{ScriptWhy};
ghost use Rattle.camera_script.specs.declared.faults.ScriptWhy.TheVariants as why;
ghost use Rattle.camera_script.specs.declared.scripts.Script.{Script};
ghost use Rattle.camera_script.specs.declared.scripts.TheConstants.{MAX_SHOTS};

use crate::faults::{ScriptFault, ScriptWhy};
use crate::frames::shot_of_frame;
use crate::members::{has_members, items};
use crate::scripts::{MAX_SHOTS, Script, Shots};
use crate::sizes::size_of_value;
use serde_json::{Error, Value};
use std::alloc::Global;

/// Members of a script: `frames` and `size`.
const SCRIPT_MEMBERS: usize = 2;

/// Reads the script of a JSON text.
///
/// The text is an object with exactly two members: `size`, an array of the pictures' width and height, each
/// from 1 to `MAX_SIDE`, and `frames`, an array of 1 to `MAX_SHOTS` objects. Each of these has exactly three
/// members: `camera`, an array of fifteen whole numbers in the order and the ranges of `Camera::new`, `settle`
/// and `print`, each true or false. At most `MAX_PRINTS` frames are printed. A whole number is a JSON number
/// without a fraction or an exponent that fits 64 bits with a sign; `-0` is none. Of equal keys the last one
/// counts.
///
/// Returns `Bad` for the first fault in the order of `ScriptWhy`, that of a frame before those of later
/// frames. `Memory` may come at any place.
pub fn read_script(alloc: Global, text: &[u8]) -> Result<Script, ScriptFault>
    ensures accepted { (script : Script) → script_of text.now ≡ Ok script →
        (result ≡ Ok script) ⊎ (result ≡ Err fault.Memory) }
    ensures refused { (frame : Option ℕ) (why : ScriptWhy) →
        script_of text.now ≡ Err (fault.Bad frame why) →
        (result ≡ Err (fault.Bad frame why)) ⊎ (result ≡ Err fault.Memory) }
    ensures bad { (frame : Option ℕ) (why : ScriptWhy) → result ≡ Err (fault.Bad frame why) →
        script_of text.now ≡ Err (fault.Bad frame why) }
    ensures sound { IfOk result IsScript }
{
    match Value::from_slice(alloc, text) {
        Ok(value) => script_of_value(alloc, &value),
        Err(error) => Err(fault_of_text(error)),
    }
}

/// Returns why a text gave no JSON value.
fn fault_of_text(error: Error) -> ScriptFault
    ensures { (IsMemory error × (result ≡ fault.Memory))
        ⊎ ((¬ IsMemory error) × (result ≡ fault.Bad None why.Text)) }
{
    if error.is_memory() {
        ScriptFault::Memory
    } else {
        bad_script(ScriptWhy::Text)
    }
}

/// Returns the fault of a script that is none of a frame.
fn bad_script(why: ScriptWhy) -> ScriptFault
    ensures { result ≡ fault.Bad None why }
{
    ScriptFault::Bad { frame: None, why }
}

/// Returns the script of a JSON value, or its first fault.
#[tactic(auto, unfolding(crate::specs::Script::script_in, crate::specs::Script::sections_in))]
fn script_of_value(alloc: Global, value: &Value) -> Result<Script, ScriptFault>
    ensures { AnswersOrMemory (script_in (view value.now)) result }
{
    if !has_members(value, SCRIPT_MEMBERS) {
        return Err(bad_script(ScriptWhy::Shape));
    }
    let (Some(size), Some(frames)) = (value.get("size"), frames_of_value(value)) else {
        return Err(bad_script(ScriptWhy::Shape));
    };
    let Some(size) = size_of_value(size) else {
        return Err(bad_script(ScriptWhy::Size));
    };
    if frames.is_empty() || frames.len() > MAX_SHOTS as usize {
        return Err(bad_script(ScriptWhy::Count));
    }
    let shots = shots_of_frames(alloc, frames)?;
    Ok(Script { size, shots })
}

/// Returns the items of the member `frames`, if there is one and it is an array.
fn frames_of_value(value: &Value) -> Option<&[Value]>
    ensures { option_map (λ items. map view items.now) result
        ≡ option_and_then items_in (get (codes "frames") (view value.now)) }
{
    items(value.get("frames")?)
}

/// Returns the shots of all frames, or the first fault of the first faulty frame.
fn shots_of_frames(alloc: Global, frames: &[Value]) -> Result<Shots, ScriptFault>
    requires shot_limit { length frames.now ≤ MAX_SHOTS }
    ensures { AnswersOrMemory (shots_from [] 0 0 (map view frames.now)) result }
{
    let mut shots = Vec::with_capacity(alloc, frames.len())?;
    let mut prints = 0;
    for (frame, value) in frames.iter().enumerate() {
        let shot = shot_of_frame(frame as u32, prints, value)?;
        prints += u32::from(shot.print);
        shots.push(shot)?;
    }
    Ok(Shots::of(shots))
}
