ghost use Rattle.std.specs.Prelude.{◌≡◌, ◌*◌, length};
ghost use Rattle.page_codec.specs.Numbers.{numbers_bytes, numbers_of};

use byteorder::{ByteOrder, LittleEndian};

/// Writes the numbers into the whole record, four bytes each.
#[tactic(auto, unfolding(crate::specs::Numbers::numbers_bytes))]
pub(crate) fn write_numbers(numbers: &[u32], bytes: &mut [u8])
    requires length { length bytes.old ≡ 4 * length numbers.now }
    ensures spelling { bytes.new ≡ numbers_bytes numbers.now }
{
    LittleEndian::write_u32_into(numbers, bytes);
}

/// Reads the numbers of the whole record.
pub(crate) fn read_numbers(bytes: &[u8], numbers: &mut [u32])
    requires length { length bytes.now ≡ 4 * length numbers.old }
    ensures numbers { numbers.new ≡ numbers_of (length numbers.old) bytes.now }
{
    LittleEndian::read_u32_into(bytes, numbers);
}
