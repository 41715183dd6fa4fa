ghost use Rattle.std.specs.Prelude.{◌≡◌, ◌==◌, ◌^◌, ◌≤◌, ◌<◌, nat_lt, true, map, length, Some, IfSome};
ghost use Rattle.std.specs.Char.{is_ascii_digit};
ghost use Rattle.std.specs.List.{list_all, slice_split};
ghost use Rattle.std.specs.Str.{byte};
ghost use Rattle.std.specs.Str.Parse.{digits_value};
ghost use Rattle.geom_core.specs.Limits.{is_side, IsPicture, IsSide};
ghost use Rattle.shape_gen.specs.Lattice.{IsBoxSize};
ghost use Rattle.geode_tool.specs.Words.{command_words, is_audit, is_build};
ghost use Rattle.geode_tool.specs.Words.{make_words, is_box_size, box_size, box_number};
ghost use Rattle.geode_tool.specs.Words.{draw_words, whole_number, signed_number, side, camera};
ghost use Rattle.geode_tool.specs.Words.{is_numeral, numbers_of, fifteen};
ghost use Rattle.geode_tool.specs.declared.commands.BoxRequest.{BoxRequest};
ghost use Rattle.geode_tool.specs.declared.commands.DrawRequest.{DrawRequest};

use crate::verify_words::is_verify;
use geom_core::Size;
use geom_core::limits::MAX_SIDE;
use shape_gen::MAX_BOX_SIZE;
use view_camera::Camera;

/// The most digits of a width or a height in a command line; leading zeros count.
const SIDE_DIGITS: usize = 10;

/// The most digits of the size or the number of a box in a command line; leading zeros count.
const BOX_DIGITS: usize = 10;

/// The most digits of one of a camera's numbers; leading zeros count.
const CAMERA_DIGITS: usize = 11;

/// A command of the program.
#[derive(Clone, Copy, Debug, PartialEq, Eq)]
pub enum Command {
    /// `draw`: draws a mesh.
    Draw(DrawRequest),
    /// `audit`: checks whether each entry of a journal was allowed.
    Audit,
    /// `make`: writes the text of a box.
    Make(BoxRequest),
    /// `build`: writes the page file of a mesh's levels of detail.
    Build,
    /// `verify`: checks whether a page file is that of a sound DAG.
    Verify,
}

/// The arguments of `make`.
#[derive(Clone, Copy, Debug, PartialEq, Eq)]
pub struct BoxRequest {
    /// The number of cells along an edge of the box, 1 to `MAX_BOX_SIZE`.
    pub size: u32,
    /// The box's number, which decides how its points are moved.
    pub number: u32,
}

/// The arguments of `draw`.
#[derive(Clone, Copy, Debug, PartialEq, Eq)]
pub struct DrawRequest {
    /// The size of the picture.
    pub size: Size,
    /// The camera that sees the mesh.
    pub camera: Camera,
}

/// Returns the command that the words of a command line ask for, if they ask for one.
pub(crate) fn command_of(words: &[&str]) -> Option<Command>
    ensures asked { result ≡ command_words (map (λ w. w.now) words.now) }
    ensures side_range { (request : DrawRequest) → result ≡ Some (Command.Draw request)
        → IsPicture request.size }
    ensures box_range { (request : BoxRequest) → result ≡ Some (Command.Make request)
        → IsBoxSize request.size }
{
    if is_audit(words) {
        return Some(Command::Audit);
    }
    if is_build(words) {
        return Some(Command::Build);
    }
    if is_verify(words) {
        return Some(Command::Verify);
    }
    if let Some(request) = make_of(words) {
        return Some(Command::Make(request));
    }
    Some(Command::Draw(draw_of(words)?))
}

/// Whether the words are `audit` alone.
fn is_audit(words: &[&str]) -> bool
    ensures { result ≡ is_audit (map (λ w. w.now) words.now) }
{
    match words {
        [name] => *name == "audit",
        _ => false,
    }
}

/// Whether the words are `build` alone.
fn is_build(words: &[&str]) -> bool
    ensures { result ≡ is_build (map (λ w. w.now) words.now) }
{
    match words {
        [name] => *name == "build",
        _ => false,
    }
}

/// Returns the arguments of `draw`, if the words are `draw`, a width, a height and a camera, each in its
/// range. A camera is fifteen numbers separated by commas, in the order of `Camera::new`.
fn draw_of(words: &[&str]) -> Option<DrawRequest>
    ensures asked { result ≡ draw_words (map (λ w. w.now) words.now) }
    ensures side_range { IfSome result (λ request. IsPicture request.size) }
{
    let [name, width, height, camera] = words else {
        return None;
    };
    if *name != "draw" {
        return None;
    }
    let size = Size {
        width: side(width.as_bytes())?,
        height: side(height.as_bytes())?,
    };
    let camera = camera_in(camera.as_bytes())?;
    Some(DrawRequest { size, camera })
}

/// Returns the arguments of `make`, if the words are `make`, a size and a number, each in its range.
fn make_of(words: &[&str]) -> Option<BoxRequest>
    ensures asked { result ≡ make_words (map (λ w. w.now) words.now) }
    ensures box_range { IfSome result (λ request. IsBoxSize request.size) }
{
    let [name, size, number] = words else {
        return None;
    };
    if *name != "make" {
        return None;
    }
    let size = box_size(size.as_bytes())?;
    let number = box_number(number.as_bytes())?;
    Some(BoxRequest { size, number })
}

/// Returns the size of a box that a word gives, if it is a whole number from 1 to `MAX_BOX_SIZE`.
fn box_size(word: &[u8]) -> Option<u32>
    ensures number { result ≡ box_size word.now }
    ensures box_range { IfSome result IsBoxSize }
{
    let number = whole_number(word, BOX_DIGITS)?;
    if is_box_size(number) {
        Some(number as u32)
    } else {
        None
    }
}

/// Whether a box can have this many cells along an edge.
fn is_box_size(number: u64) -> bool
    ensures { result ≡ is_box_size number }
{
    1 <= number && number <= u64::from(MAX_BOX_SIZE)
}

/// Returns the number of a box that a word gives, if it is a whole number of 32 bits.
fn box_number(word: &[u8]) -> Option<u32>
    ensures number { result ≡ box_number word.now }
{
    let number = whole_number(word, BOX_DIGITS)?;
    if number < 1 << 32 {
        Some(number as u32)
    } else {
        None
    }
}

/// Returns the width or the height that a word gives, if it is a whole number from 1 to `MAX_SIDE`.
fn side(word: &[u8]) -> Option<u32>
    ensures number { result ≡ side word.now }
    ensures side_range { IfSome result IsSide }
{
    let number = whole_number(word, SIDE_DIGITS)?;
    if is_side(number) {
        Some(number as u32)
    } else {
        None
    }
}

/// Whether a picture can have this many columns or rows.
fn is_side(number: u64) -> bool
    ensures { result ≡ is_side number }
{
    1 <= number && number <= u64::from(MAX_SIDE)
}

/// Returns the camera that a word describes, if it describes one.
fn camera_in(word: &[u8]) -> Option<Camera>
    ensures { result ≡ camera word.now }
{
    Camera::new(numbers_in(word)?).ok()
}

/// Returns the fifteen numbers that a word has between commas, if it has fifteen.
fn numbers_in(word: &[u8]) -> Option<[i64; 15]>
    ensures { result ≡ fifteen (numbers_of (slice_split (λ b. b == byte ",") word.now)) }
{
    let mut numbers = [0; 15];
    let mut count = 0;
    for part in word.split(|byte| *byte == b',') {
        if count == 15 {
            return None;
        }
        numbers[count] = signed_number(part)?;
        count += 1;
    }
    if count == 15 { Some(numbers) } else { None }
}

/// Returns the number that a word gives, if it is digits with an optional `-` before them.
fn signed_number(word: &[u8]) -> Option<i64>
    ensures { result ≡ signed_number CAMERA_DIGITS word.now }
{
    match word {
        [b'-', digits @ ..] => Some(-(whole_number(digits, CAMERA_DIGITS)? as i64)),
        _ => Some(whole_number(word, CAMERA_DIGITS)? as i64),
    }
}

/// Returns the number that a word gives, if it is 1 to `most` digits.
fn whole_number(word: &[u8], most: usize) -> Option<u64>
    requires { most ≤ 18 }
    ensures number { result ≡ whole_number most word.now }
    ensures number_limit { IfSome result (λ n. n < 10 ^ most) }
{
    if is_numeral(word, most) {
        Some(decimal_value(word))
    } else {
        None
    }
}

/// Whether a word is 1 to `most` digits.
fn is_numeral(word: &[u8], most: usize) -> bool
    ensures { result ≡ is_numeral most word.now }
{
    !word.is_empty() && word.len() <= most && is_digits(word)
}

/// Whether each byte is a digit.
fn is_digits(word: &[u8]) -> bool
    ensures { result ≡ list_all is_ascii_digit word.now }
{
    word.iter().all(|byte| byte.is_ascii_digit())
}

/// Returns the decimal value of digits.
fn decimal_value(digits: &[u8]) -> u64
    requires digits { list_all is_ascii_digit digits.now ≡ true }
    requires length_limit { length digits.now ≤ 18 }
    ensures { result ≡ digits_value 10 digits.now }
{
    let mut number = 0;
    for digit in digits {
        number = number * 10 + u64::from(digit - b'0');
    }
    number
}

#[cfg(test)]
mod tests {
    use super::*;

    const CAMERA: &str = "4,33554432,0,0,4096,0,16384,0,0,0,0,16384,0,-16384,0";

    #[test]
    fn words_are_taken(rt: HostRuntime) {
        let cases: [(&str, &[&str], bool); 28] = [
            ("a drawing", &["draw", "4", "4", CAMERA], true),
            ("zeros first", &["draw", "0004", "0000000512", CAMERA], true),
            ("an audit", &["audit"], true),
            ("a word after `audit`", &["audit", CAMERA], false),
            ("`audit` in upper case", &["Audit"], false),
            ("a build", &["build"], true),
            ("a word after `build`", &["build", ""], false),
            ("the start of `build`", &["buil"], false),
            ("a file", &["verify", ""], true),
            ("no file", &["verify"], false),
            ("two files", &["verify", "a", "b"], false),
            ("the words of both", &["audit", "4", "4", CAMERA], false),
            ("a box", &["make", "295", "4294967295"], true),
            ("zeros before a box", &["make", "0001", "00"], true),
            ("a box of 296 cells", &["make", "296", "0"], false),
            ("33 bits", &["make", "1", "4294967296"], false),
            ("a box with no number", &["make", "1"], false),
            ("no words", &[], false),
            ("no camera", &["draw", "4", "4"], false),
            ("too many words", &["draw", "4", "4", CAMERA, "4"], false),
            ("another command", &["fly", "4", "4", CAMERA], false),
            ("width 513", &["draw", "513", "4", CAMERA], false),
            ("height 0", &["draw", "4", "0", CAMERA], false),
            ("a signed width", &["draw", "-4", "4", CAMERA], false),
            ("an option", &["draw", "--scale", "1", CAMERA], false),
            (
                "eleven digits",
                &["draw", "4", "00000000004", CAMERA],
                false,
            ),
            ("an empty width", &["draw", "", "4", CAMERA], false),
            ("two numbers", &["draw", "4", "4", "0,1"], false),
        ];
        for (name, words, want) in cases {
            assert_eq!(rt; command_of(words).is_some(), want, "{name}");
        }
    }

    #[test]
    fn cameras_are_taken(rt: HostRuntime) {
        let cases = [
            ("fourteen", "4,16384,0,0,0,0,1,0,0,0,1,0,0,0", false),
            ("fifteen", "4,16384,0,0,0,0,1,0,0,0,1,0,0,0,-1", true),
            ("sixteen", "4,16384,0,0,0,0,1,0,0,0,1,0,0,0,-1,0", false),
            ("a comma more", "4,16384,0,0,0,0,1,0,0,0,1,0,0,0,-1,", false),
            ("minus 0", "4,16384,-0,0,0,0,1,0,0,0,1,0,0,0,1", true),
            ("a plus", "4,16384,+0,0,0,0,1,0,0,0,1,0,0,0,1", false),
            ("a space", "4,16384, 0,0,0,0,1,0,0,0,1,0,0,0,1", false),
            ("focal 0", "0,16384,0,0,0,0,1,0,0,0,1,0,0,0,1", false),
            ("near 16383", "4,16383,0,0,0,0,1,0,0,0,1,0,0,0,1", false),
            (
                "entry 16385",
                "4,16384,0,0,0,0,1,0,0,0,1,0,0,0,16385",
                false,
            ),
        ];
        for (name, numbers, want) in cases {
            let words = ["draw", "4", "4", numbers];
            assert_eq!(rt; command_of(&words).is_some(), want, "{name}");
        }
    }
}
