ghost use Rattle.std.specs.Prelude.{◌≡◌, ◌≤◌, ◌+◌, length};
ghost use Rattle.page_codec.specs.Records.{group_bytes, group_from, group_of, head_bytes, head_from, head_of, maker_from, maker_number, point_from, terminal_number, triangle_bytes, triangle_from, triangle_of};

use crate::numbers::{read_numbers, write_numbers};
use crate::sizes::{CLUSTER_BYTES, GROUP_BYTES, NO_MAKER};
use dag_core::{ClusterHead, Group};
use geom_core::limits::TRIANGLE_BYTES;
use geom_core::{Cube, Pt, Tagged, Tri};

/// Returns the record of a triangle: its corners, then its source.
#[tactic(auto, unfolding(crate::specs::Records::triangle_numbers))]
pub(crate) fn triangle_record(t: Tagged) -> [u8; TRIANGLE_BYTES as usize]
    ensures spelling { result ≡ triangle_bytes t }
{
    let Tri { a, b, c } = t.tri;
    let mut record = [0; TRIANGLE_BYTES as usize];
    let numbers = [
        a.x.cast_unsigned(),
        a.y.cast_unsigned(),
        a.z.cast_unsigned(),
        b.x.cast_unsigned(),
        b.y.cast_unsigned(),
        b.z.cast_unsigned(),
        c.x.cast_unsigned(),
        c.y.cast_unsigned(),
        c.z.cast_unsigned(),
        t.source,
    ];
    write_numbers(&numbers, &mut record);
    record
}

/// Returns the point of three numbers, from number k on.
fn point_from(k: usize, numbers: &[u32]) -> Pt
    requires room { k + 3 ≤ length numbers.now }
    ensures point { result ≡ point_from k numbers.now }
{
    Pt {
        x: numbers[k].cast_signed(),
        y: numbers[k + 1].cast_signed(),
        z: numbers[k + 2].cast_signed(),
    }
}

/// Returns the triangle of a record.
#[tactic(auto, unfolding(crate::specs::Records::triangle_from))]
pub(crate) fn triangle_of(bytes: &[u8]) -> Tagged
    requires length { length bytes.now ≡ TRIANGLE_BYTES }
    ensures triangle { result ≡ triangle_of bytes.now }
{
    let mut numbers = [0; 10];
    read_numbers(bytes, &mut numbers);
    let a = point_from(0, &numbers);
    let b = point_from(3, &numbers);
    let c = point_from(6, &numbers);
    Tagged {
        tri: Tri { a, b, c },
        source: numbers[9],
    }
}

/// Returns 1 for a terminal group, 0 for any other.
fn terminal_number(terminal: bool) -> u32
    ensures number { result ≡ terminal_number terminal }
{
    u32::from(terminal)
}

/// Returns the record of a group.
#[tactic(auto, unfolding(crate::specs::Records::group_numbers))]
pub(crate) fn group_record(group: &Group) -> [u8; GROUP_BYTES as usize]
    ensures spelling { result ≡ group_bytes group.now }
{
    let Cube { lo, hi } = group.cube;
    let mut record = [0; GROUP_BYTES as usize];
    let numbers = [
        group.error,
        terminal_number(group.terminal),
        lo.x.cast_unsigned(),
        lo.y.cast_unsigned(),
        lo.z.cast_unsigned(),
        hi.x.cast_unsigned(),
        hi.y.cast_unsigned(),
        hi.z.cast_unsigned(),
        group.page,
        group.first,
        group.count,
    ];
    write_numbers(&numbers, &mut record);
    record
}

/// Returns the group of eleven numbers.
#[tactic(auto, unfolding(crate::specs::Records::group_from))]
pub(crate) fn group_from(numbers: &[u32]) -> Group
    requires length { length numbers.now ≡ 11 }
    ensures group { result ≡ group_from numbers.now }
{
    let lo = point_from(2, numbers);
    let hi = point_from(5, numbers);
    Group {
        error: numbers[0],
        terminal: numbers[1] == 1,
        cube: Cube { lo, hi },
        page: numbers[8],
        first: numbers[9],
        count: numbers[10],
    }
}

/// Returns the number of a cluster's maker, or `NO_MAKER`.
fn maker_number(made: Option<u32>) -> u32
    ensures number { result ≡ maker_number made }
{
    match made {
        Some(maker) => maker,
        None => NO_MAKER,
    }
}

/// Returns the maker of this number, or `None` for `NO_MAKER`.
fn maker_from(number: u32) -> Option<u32>
    ensures maker { result ≡ maker_from number }
{
    (number != NO_MAKER).then_some(number)
}

/// Returns the record of a cluster: its maker, then the number of its triangles.
#[tactic(auto, unfolding(crate::specs::Records::head_numbers))]
pub(crate) fn head_record(head: ClusterHead) -> [u8; CLUSTER_BYTES as usize]
    ensures spelling { result ≡ head_bytes head }
{
    let mut record = [0; CLUSTER_BYTES as usize];
    write_numbers(&[maker_number(head.made), head.tris], &mut record);
    record
}

/// Returns the cluster of a record.
#[tactic(auto, unfolding(crate::specs::Records::head_from))]
pub(crate) fn head_of(bytes: &[u8]) -> ClusterHead
    requires length { length bytes.now ≡ CLUSTER_BYTES }
    ensures head { result ≡ head_of bytes.now }
{
    let mut numbers = [0; 2];
    read_numbers(bytes, &mut numbers);
    ClusterHead {
        made: maker_from(numbers[0]),
        tris: numbers[1],
    }
}
