ghost use Rattle.std.specs.Prelude.{◌≡◌, ◌≤◌, ◌+◌, IfOk};
ghost use Rattle.dag_core.proofs.TwoSquares as squares;
ghost use Rattle.dag_core.specs.Ranges.{IsInRange};
ghost use Rattle.dag_core.specs.Rules.{Checked};
ghost use Rattle.dag_core.specs.TriangleRules.{Sound};

use dag_core::{ClusterHead, ClusterHeads, ClusterTris, Dag, Group, Groups, Heads};
use geom_core::{Cube, Memory, Pt, Tagged, TaggedTris, Tri};
use std::alloc::Global;

/// Returns the two squares.
pub fn two_squares(alloc: Global) -> Result<Dag, Memory>
    ensures dag { IfOk result (λ dag. dag ≡ squares.two_squares) }
    ensures sound { IfOk result Sound }
{
    assembled_dag(alloc)
}

/// Returns the two squares without their triangles.
pub fn two_squares_heads(alloc: Global) -> Result<Heads, Memory>
    ensures heads { IfOk result (λ heads. heads ≡ squares.two_squares_heads) }
    ensures range { IfOk result IsInRange }
    ensures checked { IfOk result Checked }
{
    assembled_heads(alloc)
}

/// Returns the two squares, put together of heads and triangles.
fn assembled_dag(alloc: Global) -> Result<Dag, Memory>
    ensures dag { IfOk result (λ dag. dag ≡ squares.two_squares) }
{
    let heads = assembled_heads(alloc)?;
    let mut tris = Vec::new(alloc);
    tris.push(coarse_square(alloc, 0, 0)?)?;
    tris.push(coarse_square(alloc, 16, 4)?)?;
    tris.push(fine_square(alloc, 0, 0)?)?;
    tris.push(fine_square(alloc, 16, 4)?)?;
    Ok(Dag {
        heads,
        tris: ClusterTris::of(tris),
    })
}

/// Returns the heads of the two squares, put together of groups and clusters.
fn assembled_heads(alloc: Global) -> Result<Heads, Memory>
    ensures heads { IfOk result (λ heads. heads ≡ squares.two_squares_heads) }
{
    let groups = vec![in alloc; whole(), left(), right()]?;
    let leaf = ClusterHead {
        made: None,
        tris: 4,
    };
    let clusters = vec![in alloc; made_of_two(1), made_of_two(2), leaf, leaf]?;
    Ok(Heads {
        groups: Groups::of(groups),
        clusters: ClusterHeads::of(clusters),
        pages: 3,
        roots: 1,
        sources: 8,
    })
}

/// Returns the group of both coarse squares, which nothing replaces.
fn whole() -> Group
    ensures group { result ≡ squares.whole }
{
    Group {
        error: 0,
        terminal: true,
        cube: Cube {
            lo: flat_point(0, 0),
            hi: flat_point(24, 8),
        },
        page: 0,
        first: 0,
        count: 2,
    }
}

/// Returns the group of the fine square 1.
fn left() -> Group
    ensures group { result ≡ squares.left }
{
    Group {
        error: 4,
        terminal: false,
        cube: Cube {
            lo: flat_point(0, 0),
            hi: flat_point(8, 8),
        },
        page: 1,
        first: 2,
        count: 1,
    }
}

/// Returns the group of the fine square 2.
fn right() -> Group
    ensures group { result ≡ squares.right }
{
    Group {
        error: 4,
        terminal: false,
        cube: Cube {
            lo: flat_point(16, 0),
            hi: flat_point(24, 8),
        },
        page: 2,
        first: 3,
        count: 1,
    }
}

/// Returns the head of a cluster of two triangles that this group made.
fn made_of_two(maker: u32) -> ClusterHead
    ensures cluster { result ≡ squares.made_of_two maker }
{
    ClusterHead {
        made: Some(maker),
        tris: 2,
    }
}

/// Returns the point of the plane z = 0.
fn flat_point(x: u16, y: u16) -> Pt
    ensures point { result ≡ squares.flat_point x y }
{
    Pt {
        x: i32::from(x),
        y: i32::from(y),
        z: 0,
    }
}

/// Returns the triangle with its source.
fn sourced(a: Pt, b: Pt, c: Pt, source: u32) -> Tagged
    ensures triangle { result ≡ squares.sourced a b c source }
{
    Tagged {
        tri: Tri { a, b, c },
        source,
    }
}

/// Returns the two triangles of the coarse square whose low corner has this x; the fine one's first has this source.
fn coarse_square(alloc: Global, x: u16, source: u32) -> Result<TaggedTris, Memory>
    requires x_limit { x ≤ 16 }
    requires source_limit { source ≤ 4 }
    ensures triangles { IfOk result (λ tris. tris ≡ squares.coarse_square x source) }
{
    let a = flat_point(x, 0);
    let b = flat_point(x + 8, 0);
    let c = flat_point(x + 8, 8);
    let d = flat_point(x, 8);
    let tris = vec![in alloc; sourced(b, c, a, source + 1), sourced(c, d, a, source + 2)]?;
    Ok(TaggedTris::of(tris))
}

/// Returns the four triangles round the middle of the square whose low corner has this x, from this source on.
fn fine_square(alloc: Global, x: u16, source: u32) -> Result<TaggedTris, Memory>
    requires x_limit { x ≤ 16 }
    requires source_limit { source ≤ 4 }
    ensures triangles { IfOk result (λ tris. tris ≡ squares.fine_square x source) }
{
    let a = flat_point(x, 0);
    let b = flat_point(x + 8, 0);
    let c = flat_point(x + 8, 8);
    let d = flat_point(x, 8);
    let m = flat_point(x + 4, 4);
    let tris = vec![in alloc;
        sourced(a, b, m, source),
        sourced(b, c, m, source + 1),
        sourced(c, d, m, source + 2),
        sourced(d, a, m, source + 3),
    ]?;
    Ok(TaggedTris::of(tris))
}
