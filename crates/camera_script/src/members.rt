ghost use Rattle.std.specs.Prelude.{◌≡◌, map};
ghost use Rattle.std.specs.Option.{option_map};
ghost use Rattle.serde_json.specs.View.{view};
ghost use Rattle.camera_script.specs.Members.{has_members, items_in, numbers_in, whole_number_in};

use serde_json::Value;

/// Numbers of a camera.
const CAMERA_NUMBERS: usize = 15;

/// Whether the value is an object with this many members.
#[tactic(auto, using(crate::proofs::MemberCounts::member_count_entries))]
pub(crate) fn has_members(value: &Value, count: usize) -> bool
    ensures { result ≡ has_members count (view value.now) }
{
    match value.as_object() {
        Some(members) => members.len() == count,
        None => false,
    }
}

/// Returns the items of an array.
#[tactic(auto, using(crate::proofs::MemberCounts::items_list_view))]
pub(crate) fn items(value: &Value) -> Option<&[Value]>
    ensures { option_map (λ items. map view items.now) result ≡ items_in (view value.now) }
{
    match value.as_array() {
        Some(items) => Some(items.as_slice()),
        None => None,
    }
}

/// Returns the fifteen numbers of a camera, if the value is an array of exactly fifteen whole numbers.
pub(crate) fn camera_numbers(value: &Value) -> Option<[i64; 15]>
    ensures { result ≡ numbers_in 15 (view value.now) }
{
    let items = items(value)?;
    if items.len() != CAMERA_NUMBERS {
        return None;
    }
    let mut numbers = [0; CAMERA_NUMBERS];
    for (place, item) in items.iter().enumerate() {
        numbers[place] = item.as_i64()?;
    }
    Some(numbers)
}
