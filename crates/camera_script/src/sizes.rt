ghost use Rattle.std.specs.Prelude.{◌≡◌};
ghost use Rattle.std.specs.Option.{option_and_then};
ghost use Rattle.serde_json.specs.View.{view};
ghost use Rattle.camera_script.specs.Members.{whole_number_in};
ghost use Rattle.camera_script.specs.Script.{side_from, size_in};

use crate::members::items;
use geom_core::Size;
use geom_core::limits::MAX_SIDE;
use serde_json::Value;

/// Returns the picture size of a width and a height, if the value is an array of two sides.
pub(crate) fn size_of_value(value: &Value) -> Option<Size>
    ensures { result ≡ size_in (view value.now) }
{
    let items = items(value)?;
    if items.len() != 2 {
        return None;
    }
    Some(Size {
        width: side_of_value(&items[0])?,
        height: side_of_value(&items[1])?,
    })
}

/// Returns a side of a picture, if the value is a whole number from 1 to `MAX_SIDE`.
fn side_of_value(value: &Value) -> Option<u32>
    ensures { result ≡ option_and_then side_from (whole_number_in (view value.now)) }
{
    side_from(value.as_i64()?)
}

/// Returns the number if it is a side of a picture.
fn side_from(number: i64) -> Option<u32>
    ensures { result ≡ side_from number }
{
    if number < 1 || number > i64::from(MAX_SIDE) {
        None
    } else {
        Some(number as u32)
    }
}
