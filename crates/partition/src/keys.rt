ghost use Rattle.std.specs.Prelude.{◌≡◌, ◌<◌, ◌^◌, slice_index};
ghost use Rattle.std.specs.Int.{int_min};
ghost use Rattle.geom_core.specs.Boxes.{low_of};
ghost use Rattle.geom_core.specs.Limits.{IsGridCoordinate, IsGridPoint};
ghost use Rattle.partition.specs.Morton.{cell_of, morton_of, spread_bits};

use geom_core::Pt;
use geom_core::limits::MAX_COORDINATE;

/// Bits of a cell's number: a coordinate is in one of the 2^20 + 1 cells from 0 on.
const CELL_BITS: u32 = 21;

/// Bits that one entry of `SPREAD` spreads apart, a third of those of a cell.
const TABLE_BITS: u32 = 7;

/// Entries of `SPREAD`.
const TABLE_LEN: u32 = 1 << TABLE_BITS;

/// Weight of the middle bits of a cell's number once they are spread apart.
const MIDDLE_WEIGHT: u64 = 1 << (3 * TABLE_BITS);

/// Weight of the highest bits of a cell's number once they are spread apart.
const HIGH_WEIGHT: u64 = 1 << (6 * TABLE_BITS);

/// Bits of a cell's number once it is spread apart: two zeros between any two bits.
const SPREAD_BITS: u32 = 3 * CELL_BITS - 2;

/// The bits of the numbers below `TABLE_LEN`, spread apart: bit i of a number is bit 3i of its
/// entry, so in octal an entry has the digits that the number has in binary.
const SPREAD: [u32; TABLE_LEN as usize] = [
    0o0, 0o1, 0o10, 0o11, 0o100, 0o101, 0o110, 0o111, 0o1000, 0o1001, 0o1010, 0o1011, 0o1100,
    0o1101, 0o1110, 0o1111, 0o10000, 0o10001, 0o10010, 0o10011, 0o10100, 0o10101, 0o10110, 0o10111,
    0o11000, 0o11001, 0o11010, 0o11011, 0o11100, 0o11101, 0o11110, 0o11111, 0o100000, 0o100001,
    0o100010, 0o100011, 0o100100, 0o100101, 0o100110, 0o100111, 0o101000, 0o101001, 0o101010,
    0o101011, 0o101100, 0o101101, 0o101110, 0o101111, 0o110000, 0o110001, 0o110010, 0o110011,
    0o110100, 0o110101, 0o110110, 0o110111, 0o111000, 0o111001, 0o111010, 0o111011, 0o111100,
    0o111101, 0o111110, 0o111111, 0o1000000, 0o1000001, 0o1000010, 0o1000011, 0o1000100, 0o1000101,
    0o1000110, 0o1000111, 0o1001000, 0o1001001, 0o1001010, 0o1001011, 0o1001100, 0o1001101,
    0o1001110, 0o1001111, 0o1010000, 0o1010001, 0o1010010, 0o1010011, 0o1010100, 0o1010101,
    0o1010110, 0o1010111, 0o1011000, 0o1011001, 0o1011010, 0o1011011, 0o1011100, 0o1011101,
    0o1011110, 0o1011111, 0o1100000, 0o1100001, 0o1100010, 0o1100011, 0o1100100, 0o1100101,
    0o1100110, 0o1100111, 0o1101000, 0o1101001, 0o1101010, 0o1101011, 0o1101100, 0o1101101,
    0o1101110, 0o1101111, 0o1110000, 0o1110001, 0o1110010, 0o1110011, 0o1110100, 0o1110101,
    0o1110110, 0o1110111, 0o1111000, 0o1111001, 0o1111010, 0o1111011, 0o1111100, 0o1111101,
    0o1111110, 0o1111111,
];

/// Returns the Morton key of a point (Morton 1966): the bits of its cells on the three axes interleaved, x lowest.
///
/// A cell is two grid steps wide, so that its number has 21 bits and the key 63; up to eight neighbouring
/// points have one key. Points near one another mostly have keys near one another.
pub fn morton(p: Pt) -> u64
    requires { IsGridPoint p }
    ensures { result ≡ morton_of p }
{
    spread(cell(p.x)) + 2 * spread(cell(p.y)) + 4 * spread(cell(p.z))
}

/// The low corner of the box of two points.
pub(crate) fn low_between(p: Pt, q: Pt) -> Pt
    requires p { IsGridPoint p }
    requires q { IsGridPoint q }
    ensures corner { result ≡ low_of p q }
    ensures corner_range { IsGridPoint result }
{
    Pt {
        x: lesser(p.x, q.x),
        y: lesser(p.y, q.y),
        z: lesser(p.z, q.z),
    }
}

/// The lesser of two coordinates.
fn lesser(m: i32, n: i32) -> i32
    requires m { IsGridCoordinate m }
    requires n { IsGridCoordinate n }
    ensures lesser { result ≡ int_min m n }
    ensures coordinate_range { IsGridCoordinate result }
{
    m.min(n)
}

/// The number of the cell that a coordinate is in, from 0.
fn cell(n: i32) -> u32
    requires { IsGridCoordinate n }
    ensures cell { result ≡ cell_of n }
    ensures cell_limit { result < 2 ^ CELL_BITS }
{
    (n + MAX_COORDINATE as i32) as u32 / 2
}

/// The bits of a number below `TABLE_LEN`, spread apart.
fn spread_seven(bits: u32) -> u64
    requires { bits < TABLE_LEN }
    ensures entry { result ≡ slice_index SPREAD bits }
{
    SPREAD[bits as usize] as u64
}

/// The bits of a cell's number, spread apart: bit i is bit 3i of the result.
fn spread(bits: u32) -> u64
    requires { bits < 2 ^ CELL_BITS }
    ensures spread { result ≡ spread_bits CELL_BITS bits }
    ensures spread_limit { result < 2 ^ SPREAD_BITS }
{
    let low = spread_seven(bits % TABLE_LEN);
    let middle = spread_seven(bits / TABLE_LEN % TABLE_LEN);
    let high = spread_seven(bits / TABLE_LEN / TABLE_LEN);
    low + MIDDLE_WEIGHT * middle + HIGH_WEIGHT * high
}
