ghost use Rattle.std.specs.Prelude.{◌<◌, IfOk, All};
ghost use Rattle.geom_core.specs.Limits.{IsGridTriangle};

use crate::build_dag;
use dag_core::Dag;
use geom_core::limits::MAX_TRIANGLES;
use geom_core::{Memory, Pt, Tri};
use std::alloc::Global;
use std::test::Fail;

/// The squares along each edge of the bumpy box, which has 12,288 triangles.
const BOX_SIDE: u8 = 32;

/// What is counted of a DAG.
#[derive(Clone, Copy, Debug, PartialEq, Eq)]
struct Counts {
    groups: usize,
    clusters: usize,
    /// Of all levels.
    triangles: usize,
    /// The triangles of the members of terminal groups.
    terminal: usize,
    /// The greatest error.
    error: u32,
}

/// The triangles that may be those of a mesh.
fn mesh_of(alloc: Global, tris: &[Tri]) -> Result<Vec<Tri>, Memory>
    ensures range { IfOk result (λ mesh. All IsGridTriangle mesh.items) }
{
    let mut mesh = Vec::new(alloc);
    for tri in tris {
        if tri.is_grid_triangle() {
            mesh.push(*tri)?;
        }
    }
    Ok(mesh)
}

fn build(alloc: Global, tris: &[Tri]) -> Result<Dag, Memory> {
    let mesh = mesh_of(alloc, tris)?;
    if mesh.is_empty() || mesh.len() > MAX_TRIANGLES as usize {
        return Err(Memory);
    }
    build_dag(alloc, mesh)
}

fn flat_point(x: u32, y: u32) -> Pt {
    Pt {
        x: (x % 4_096) as i32,
        y: (y % 4_096) as i32,
        z: 0,
    }
}

/// The first triangles of a strip of unit squares: of each square the one below its diagonal, then the one above.
fn strip(alloc: Global, count: u16) -> Result<Vec<Tri>, Memory> {
    let mut tris = Vec::new(alloc);
    for number in 0..count {
        let x = u32::from(number / 2);
        let (low, high) = (flat_point(x, 0), flat_point(x + 1, 1));
        tris.push(if number % 2 == 0 {
            Tri {
                a: low,
                b: flat_point(x + 1, 0),
                c: high,
            }
        } else {
            Tri {
                a: low,
                b: high,
                c: flat_point(x, 1),
            }
        })?;
    }
    Ok(tris)
}

/// A point of the bumpy box.
fn box_point(i: u8, j: u8, k: u8) -> Pt {
    let (i, j, k) = (u32::from(i), u32::from(j), u32::from(k));
    let bump = 7 * ((7 * i + 31 * j + 101 * k + 1) % 251) % 251;
    Pt {
        x: (2_048 * i + bump) as i32,
        y: (2_048 * j + 2 * bump % 251) as i32,
        z: (2_048 * k + 4 * bump % 251) as i32,
    }
}

/// A point on the side of the box at this place on an axis.
fn side_point(axis: u8, side: u8, p: u8, q: u8) -> Pt {
    match axis {
        0 => box_point(side, p, q),
        1 => box_point(q, side, p),
        _ => box_point(p, q, side),
    }
}

fn push_square(tris: &mut Vec<Tri>, axis: u8, side: u8, p: u8, q: u8) -> Result<(), Memory>
    requires p_limit { p < 255 }
    requires q_limit { q < 255 }
{
    let (a, c) = (
        side_point(axis, side, p, q),
        side_point(axis, side, p + 1, q + 1),
    );
    let (right, up) = (
        side_point(axis, side, p + 1, q),
        side_point(axis, side, p, q + 1),
    );
    let (b, d) = if side > 0 { (right, up) } else { (up, right) };
    tris.push(Tri { a, b, c })?;
    tris.push(Tri { a, b: c, c: d })?;
    Ok(())
}

/// Two triangles for each square of the box's surface.
fn bumpy_box(alloc: Global) -> Result<Vec<Tri>, Memory> {
    let mut tris = Vec::new(alloc);
    for axis in 0..3u8 {
        for side in [0, BOX_SIDE] {
            for p in 0..BOX_SIDE {
                for q in 0..BOX_SIDE {
                    push_square(&mut tris, axis, side, p, q)?;
                }
            }
        }
    }
    Ok(tris)
}

fn counts_of(dag: &Dag) -> Counts {
    let clusters = dag.heads.clusters.as_slice();
    let mut counts = Counts {
        groups: dag.heads.groups.as_slice().len(),
        clusters: clusters.len(),
        triangles: 0,
        terminal: 0,
        error: 0,
    };
    for tris in dag.tris.as_slice() {
        counts.triangles = counts.triangles.saturating_add(tris.as_slice().len());
    }
    for group in dag.heads.groups.as_slice() {
        counts.error = counts.error.max(group.error);
        for (number, cluster) in clusters.iter().enumerate() {
            let is_member = number >= group.first as usize
                && number < (group.first as usize).saturating_add(group.count as usize);
            if group.terminal && is_member {
                counts.terminal = counts.terminal.saturating_add(cluster.tris as usize);
            }
        }
    }
    counts
}

/// A strip has no free point, so that its level is its last one; all points of the box are free but those on rims.
#[test]
fn meshes_have_these_levels(rt: HostRuntime) -> Result<(), Fail> {
    let alloc = rt.alloc();
    let strips: [(u16, usize, usize); 3] = [(128, 1, 1), (129, 1, 2), (2_048, 2, 16)];
    for (count, groups, clusters) in strips {
        let dag = build(alloc, &strip(alloc, count)?)?;
        let expected = Counts {
            groups,
            clusters,
            triangles: usize::from(count),
            terminal: usize::from(count),
            error: 0,
        };
        assert_eq!(rt; counts_of(&dag), expected, "a strip of {count} triangles");
    }
    let dag = build(alloc, &bumpy_box(alloc)?)?;
    let expected = Counts {
        groups: 27,
        clusters: 195,
        triangles: 24_664,
        terminal: 106,
        error: 272_762,
    };
    assert_eq!(rt; counts_of(&dag), expected, "the bumpy box");
    Ok(())
}
