ghost use Rattle.std.specs.Prelude.{◌≡◌, ◌≤◌, IfOk, All, length};
ghost use Rattle.geom_core.specs.Limits.{HasGridCorners, IsGridCoordinate, IsGridPoint};
ghost use Rattle.partition.specs.Groups.{IsGridShape};

use crate::{ClusterShape, Edges, cut_clusters, cut_groups, morton};
use geom_core::limits::MAX_COORDINATE;
use geom_core::{Memory, Nums, Pt, Tri};
use half_mesh::Edge;
use std::alloc::Global;
use std::test::Fail;

/// A point of a table.
type Corner = (i32, i32, i32);

/// A triangle of a table.
type Corners = (Corner, Corner, Corner);

/// The coordinate of a mesh nearest to a number.
fn coordinate(n: i32) -> i32
    ensures { IsGridCoordinate result }
{
    let far = MAX_COORDINATE as i32;
    n.clamp(-far, far)
}

fn point(corner: Corner) -> Pt
    ensures { IsGridPoint result }
{
    let (x, y, z) = corner;
    Pt {
        x: coordinate(x),
        y: coordinate(y),
        z: coordinate(z),
    }
}

fn triangle(corners: Corners) -> Tri
    ensures { HasGridCorners result }
{
    let (a, b, c) = corners;
    Tri {
        a: point(a),
        b: point(b),
        c: point(c),
    }
}

fn triangles(alloc: Global, table: &[Corners]) -> Result<Vec<Tri>, Memory>
    ensures count { IfOk result (λ tris. length tris.items ≡ length table.now) }
    ensures range { IfOk result (λ tris. All HasGridCorners tris.items) }
{
    let mut tris = Vec::new(alloc);
    for corners in table {
        tris.push(triangle(*corners))?;
    }
    Ok(tris)
}

/// The clusters of the triangles of a table.
fn clusters_of(alloc: Global, table: &[Corners]) -> Result<Vec<Nums>, Memory>
    requires { length table.now ≤ 1024 }
{
    let tris = triangles(alloc, table)?;
    cut_clusters(alloc, &tris)
}

/// The first triangles of a strip of unit squares: of each square the one below its diagonal, then the one
/// above.
fn strip(alloc: Global, count: u16) -> Result<Vec<Corners>, Memory>
    ensures { IfOk result (λ table. length table.items ≡ count) }
{
    let mut table = Vec::new(alloc);
    for number in 0..count {
        let x = i32::from(number / 2);
        let lower = ((x, 0, 0), (x + 1, 0, 0), (x + 1, 1, 0));
        let upper = ((x, 0, 0), (x + 1, 1, 0), (x, 1, 0));
        table.push(if number % 2 == 0 { lower } else { upper })?;
    }
    Ok(table)
}

/// The numbers of the triangles of a strip of 64 squares, in the order in which they grow.
fn strip_order(alloc: Global) -> Result<Vec<u32>, Memory> {
    let mut order = vec![in alloc; 0, 1]?;
    for square in 1..64 {
        order.push(2 * square + 1)?;
        order.push(2 * square)?;
    }
    Ok(order)
}

#[test]
fn a_strip_of_128_triangles_is_one_cluster(rt: HostRuntime) -> Result<(), Fail> {
    let alloc = rt.alloc();
    let table = strip(alloc, 128)?;
    let clusters = clusters_of(alloc, &table)?;
    assert_eq!(rt; clusters.len(), 1);
    assert_eq!(rt; clusters[0].as_slice(), strip_order(alloc)?.as_slice());
    Ok(())
}

#[test]
fn the_129th_triangle_of_a_strip_begins_a_cluster(rt: HostRuntime) -> Result<(), Fail> {
    let alloc = rt.alloc();
    let table = strip(alloc, 129)?;
    let clusters = clusters_of(alloc, &table)?;
    assert_eq!(rt; clusters.len(), 2);
    assert_eq!(rt; clusters[0].as_slice(), strip_order(alloc)?.as_slice());
    assert_eq!(rt; clusters[1].as_slice(), [128].as_slice());
    Ok(())
}

#[test]
fn triangles_go_on_over_shared_edges(rt: HostRuntime) -> Result<(), Fail> {
    let alloc = rt.alloc();
    let first = ((0, 0, 0), (8, 0, 0), (8, 8, 0));
    let at_a_point = ((0, 0, 0), (0, 8, 0), (0, 0, 8));
    let between = ((2, 0, 0), (2, 4, 0), (2, 0, 4));
    let folded = ((8, 0, 0), (8, 0, 0), (0, 0, 0));
    let post = ((0, 0, 0), (0, 0, 8), (4, 0, 0));
    let cases: [(&str, &[Corners], &[u32]); 9] = [
        ("one triangle", &[first], &[0]),
        (
            "a shared point makes no neighbours",
            &[first, at_a_point, ((8, 0, 0), (16, 0, 0), (8, 8, 0))],
            &[0, 2, 1],
        ),
        (
            "an edge run opposite ways",
            &[first, at_a_point, ((8, 8, 0), (8, 0, 0), (16, 0, 0))],
            &[0, 2, 1],
        ),
        (
            "an edge run one way",
            &[first, at_a_point, ((8, 0, 0), (8, 8, 0), (16, 0, 0))],
            &[0, 2, 1],
        ),
        (
            "an edge from a point to itself",
            &[folded, at_a_point, ((8, 0, 0), (8, 0, 0), (16, 0, 0))],
            &[0, 2, 1],
        ),
        (
            "a doubled triangle",
            &[first, between, first, ((8, 0, 0), (16, 0, 0), (8, 8, 0))],
            &[0, 2, 3, 1],
        ),
        (
            "three triangles on one edge",
            &[
                post,
                ((2, 2, 0), (2, 4, 0), (4, 4, 0)),
                ((0, 0, 8), (0, 0, 0), (-4, 0, 0)),
                ((0, 0, 0), (0, 0, 8), (0, 4, 0)),
            ],
            &[2, 0, 3, 1],
        ),
        (
            "keys before numbers",
            &[
                ((80, 0, 0), (88, 0, 0), (88, 8, 0)),
                ((40, 0, 0), (48, 0, 0), (48, 8, 0)),
                first,
            ],
            &[2, 1, 0],
        ),
        (
            "x counts least, z most",
            &[
                ((0, 0, 4), (0, 0, 4), (0, 0, 4)),
                ((0, 4, 0), (0, 4, 0), (0, 4, 0)),
                ((4, 0, 0), (4, 0, 0), (4, 0, 0)),
            ],
            &[2, 1, 0],
        ),
    ];
    for (name, table, want) in cases {
        assert!(rt; table.len() < 10, "{name}");
        let clusters = clusters_of(alloc, table)?;
        assert_eq!(rt; clusters.len(), 1, "{name}");
        assert_eq!(rt; clusters[0].as_slice(), want, "{name}");
    }
    assert!(rt; clusters_of(alloc, &[])?.is_empty());
    Ok(())
}

/// A cluster whose rim has these edges.
fn shape(alloc: Global, low: Corner, rim: &[(Corner, Corner)]) -> Result<ClusterShape, Memory>
    ensures { IfOk result IsGridShape }
{
    let mut edges = Vec::new(alloc);
    for (u, v) in rim {
        edges.push(Edge {
            u: point(*u),
            v: point(*v),
        })?;
    }
    Ok(ClusterShape {
        low: point(low),
        rim: Edges::of(edges),
    })
}

#[test]
fn two_clusters_of_a_strip_are_one_group(rt: HostRuntime) -> Result<(), Fail> {
    let alloc = rt.alloc();
    let first = [
        ((0, 0, 0), (0, 1, 0)),
        ((0, 0, 0), (1, 0, 0)),
        ((63, 1, 0), (64, 1, 0)),
        ((64, 0, 0), (64, 1, 0)),
    ];
    let second = [
        ((64, 0, 0), (65, 0, 0)),
        ((64, 0, 0), (65, 1, 0)),
        ((65, 0, 0), (65, 1, 0)),
    ];
    let shapes = vec![in alloc;
        shape(alloc, (0, 0, 0), &first)?,
        shape(alloc, (64, 0, 0), &second)?,
    ]?;
    let groups = cut_groups(alloc, &shapes)?;
    assert_eq!(rt; groups.len(), 1);
    assert_eq!(rt; groups[0].as_slice(), [0, 1].as_slice());
    Ok(())
}

#[test]
fn clusters_go_on_over_shared_edges_of_their_rims(rt: HostRuntime) -> Result<(), Fail> {
    let alloc = rt.alloc();
    let origin = (0, 0, 0);
    let right = (8, 0, 0);
    let shapes = vec![in alloc;
        shape(alloc, origin, &[(origin, right), (right, (8, 8, 0))])?,
        shape(alloc, (2, 0, 0), &[(origin, (0, 8, 0))])?,
        shape(alloc, right, &[(right, (8, 8, 0)), (right, (16, 0, 0))])?,
    ]?;
    let groups = cut_groups(alloc, &shapes)?;
    assert_eq!(rt; groups.len(), 1);
    assert_eq!(rt; groups[0].as_slice(), [0, 2, 1].as_slice());
    assert_eq!(rt; shapes[1].rim.as_slice().len(), 1);
    assert!(rt; cut_groups(alloc, &[])?.is_empty());
    Ok(())
}

/// Clusters side by side along x, of which none shares an edge with another.
fn row_of_shapes(alloc: Global, count: u8) -> Result<Vec<ClusterShape>, Memory>
    ensures count { IfOk result (λ shapes. length shapes.items ≡ count) }
    ensures range { IfOk result (λ shapes. All IsGridShape shapes.items) }
{
    let mut shapes = Vec::new(alloc);
    for number in 0..count {
        let x = 4 * i32::from(number);
        shapes.push(shape(alloc, (x, 0, 0), &[((x, 0, 0), (x + 4, 0, 0))])?)?;
    }
    Ok(shapes)
}

#[test]
fn the_ninth_cluster_begins_a_group(rt: HostRuntime) -> Result<(), Fail> {
    let alloc = rt.alloc();
    let shapes = row_of_shapes(alloc, 9)?;
    let groups = cut_groups(alloc, &shapes)?;
    assert_eq!(rt; groups.len(), 2);
    assert_eq!(rt; groups[0].as_slice(), [0, 1, 2, 3, 4, 5, 6, 7].as_slice());
    assert_eq!(rt; groups[1].as_slice(), [8].as_slice());
    Ok(())
}

#[test]
fn clusters_or_want_of_memory(rt: HostRuntime) -> Result<(), Fail> {
    let first = ((0, 0, 0), (8, 0, 0), (8, 8, 0));
    let between = ((2, 0, 0), (2, 4, 0), (2, 0, 4));
    match clusters_of(rt.alloc(), &[first, between, first]) {
        Ok(clusters) => {
            assert_eq!(rt; clusters.len(), 1);
            assert_eq!(rt; clusters[0].as_slice(), [0, 2, 1].as_slice());
        }
        Err(Memory) => (),
    }
    Ok(())
}

#[test]
fn groups_or_want_of_memory(rt: HostRuntime) -> Result<(), Fail> {
    let Ok(shapes) = row_of_shapes(rt.alloc(), 2) else {
        return Ok(());
    };
    match cut_groups(rt.alloc(), &shapes) {
        Ok(groups) => {
            assert_eq!(rt; groups.len(), 1);
            assert_eq!(rt; groups[0].as_slice(), [0, 1].as_slice());
        }
        Err(Memory) => (),
    }
    Ok(())
}

#[test]
fn edges_go_in_and_come_out(rt: HostRuntime) -> Result<(), Fail> {
    let edge = Edge {
        u: point((0, 0, 0)),
        v: point((0, 0, 8)),
    };
    let edges = Edges::of(vec![in rt.alloc(); edge]?);
    assert_eq!(rt; edges.as_slice(), [edge].as_slice());
    assert_eq!(rt; edges.into_vec().as_slice(), [edge].as_slice());
    Ok(())
}

#[test]
fn keys_are_the_bits_in_turn(rt: HostRuntime) {
    let cases = [
        ((-1_048_576, -1_048_576, -1_048_576), 0),
        ((-1_048_574, -1_048_572, -1_048_570), 53),
        ((1_048_576, 1_048_576, 1_048_576), 0x7000_0000_0000_0000),
        ((-1_048_575, -1_048_576, -1_048_576), 0),
    ];
    for (corner, want) in cases {
        assert_eq!(rt; morton(point(corner)), want);
    }
}
