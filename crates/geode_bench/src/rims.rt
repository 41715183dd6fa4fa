ghost use Rattle.std.specs.Prelude.{◌≤◌, IfOk, length};
ghost use Rattle.geom_core.specs.declared.limits.TheConstants.{MAX_SUMMED_TRIANGLES};
ghost use Rattle.geom_core.specs.Limits.{AreGridTriangles};
ghost use Rattle.half_mesh.specs.Rim.{IsRimOf};

use geom_core::limits::{CLUSTERS_PER_GROUP, TRIANGLES_PER_CLUSTER};
use geom_core::{Memory, Tri};
use half_mesh::Rim;
use std::alloc::Global;

/// Triangles in a piece of the list: as many as a cluster has.
const PIECE: usize = TRIANGLES_PER_CLUSTER as usize;

/// Triangles in pieces that are joined at once.
const GROUP: usize = CLUSTERS_PER_GROUP as usize * PIECE;

/// How many edges the rims of groups of eight pieces have, each joined from the pieces' rims.
pub fn count_joined_rims(alloc: Global, tris: &[Tri]) -> Result<usize, Memory>
    requires mesh { AreGridTriangles tris.now }
{
    let mut count = 0usize;
    let mut rest = tris;
    while !rest.is_empty() {
        let (group, later) = rest.split_at(rest.len().min(GROUP));
        let rim = rim_of_pieces(alloc, group)?;
        count = count.saturating_add(rim.edges().len());
        rest = later;
    }
    Ok(count)
}

/// Returns the rim of the triangles, joined from the rims of the list's pieces.
fn rim_of_pieces(alloc: Global, tris: &[Tri]) -> Result<Rim, Memory>
    requires triangle_limit { length tris.now ≤ MAX_SUMMED_TRIANGLES }
    ensures { IfOk result (λ rim. IsRimOf tris.now rim.edges rim.sums) }
{
    let mut rims = Vec::new(alloc);
    let mut rest = tris;
    while !rest.is_empty() {
        let (piece, later) = rest.split_at(rest.len().min(PIECE));
        rims.push(Rim::of(alloc, piece)?)?;
        rest = later;
    }
    let mut parts = Vec::new(alloc);
    for rim in &rims {
        parts.push(rim)?;
    }
    let joined = Rim::joined(alloc, &parts)?;
    Ok(joined)
}
