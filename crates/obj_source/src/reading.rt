ghost use Rattle.std.specs.Prelude.{◌≡◌, ◌≤◌, IfOk, IfErr, OnOk};
ghost use Rattle.geom_core.specs.Limits.{AreGridTriangles, IsScale};
ghost use Rattle.span_io.specs.Reads.{ReadToEnd};
ghost use Rattle.obj_source.specs.Readings.{Listed, ReadsUpTo, Refused};

use crate::faults::ObjFault;
use crate::obj_scanner::ObjScanner;
use geom_core::Tri;
use geom_core::limits::MAX_OBJ_BYTES;
use span_io::{ReadEnd, Source, read_into};
use std::alloc::Global;

/// The triangles of an OBJ text on a grid of `scale` steps to the unit, in the order of its `f` lines, or
/// its first fault.
///
/// An LF ends a line, a CR before it is dropped, and a `#` begins a comment. A line `v X Y Z` is a vertex,
/// as `read_coordinate` reads its numerals; what follows them is passed over. A line `f` and three corners
/// or more is a polygon, cut into a fan round its first corner. A corner begins with a vertex's number: from
/// 1 on in the order of the vertices above, from -1 on backwards; what follows a `/` is passed over. A
/// triangle with two equal corners is dropped. Every other line is passed over, whatever its bytes.
///
/// The text is read to its end, or to its first faulty line, or to the first byte above 2^28: no read is made
/// after the one that gave the end of that line. `Read` comes only if the source's count of faults rose, and no
/// line that ended before the failed read has a fault. Memory is taken for the vertices, the triangles and the
/// longest word of a `v` or `f` line.
pub fn read_obj<S: Source>(alloc: Global, src: &mut S, scale: u32) -> Result<Vec<Tri>, ObjFault>
    requires scale_range { IsScale scale }

    ensures listed { IfOk result (λ tris. Listed scale (S.left src.old) tris.items) }
    ensures sound { IfOk result (λ tris. AreGridTriangles tris.items) }
    ensures ended { OnOk result (ReadToEnd (S.left src.old) (S.left src.new)) }
    ensures no_fault { OnOk result (S.faults src.new ≡ S.faults src.old) }

    ensures refused { IfErr result (Refused scale (S.left src.old)
        (S.faults src.old) (S.faults src.new)) }
    ensures read_up_to { IfErr result (ReadsUpTo scale (S.left src.old) (S.left src.new)) }
    ensures fault_count { S.faults src.old ≤ S.faults src.new }
{
    let mut scanner = ObjScanner::of(alloc, scale);
    match read_into(alloc, src, MAX_OBJ_BYTES as usize, &mut scanner) {
        ReadEnd::End => scanner.end(),
        ReadEnd::Stopped(fault) => Err(fault),
        ReadEnd::TooLong => Err(ObjFault::TooLong),
        ReadEnd::Failed => Err(ObjFault::Read),
        ReadEnd::Memory => Err(ObjFault::Memory),
    }
}
