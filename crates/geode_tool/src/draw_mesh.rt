ghost use Rattle.std.specs.Prelude.{◌≡◌, ◌≤◌, ◌*◌, ℕ, List, ◌++◌, All, IfOk, length, flat_map};
ghost use Rattle.geom_core.specs.declared.limits.TheConstants.{MAX_TRIANGLES};
ghost use Rattle.geom_core.specs.Picture.{drawn, items_of, picture};
ghost use Rattle.geom_core.specs.Limits.{IsGridTriangle, IsPicture};

use crate::commands::DrawRequest;
use geom_core::limits::TRIANGLES_PER_CLUSTER;
use geom_core::{Memory, Tri};
use raster64::PixelSink;
use std::alloc::Global;
use visibility_buffer::{VertexCache, VisibilityBuffer, draw_triangle};

/// Returns the picture of a mesh without clusters, row by row: the triangle with the number k is drawn as
/// triangle `k mod TRIANGLES_PER_CLUSTER` of cluster `k div TRIANGLES_PER_CLUSTER`.
pub(crate) fn picture_of(
    alloc: Global,
    request: &DrawRequest,
    tris: &[Tri],
) -> Result<Vec<u64>, Memory>
    requires picture { IsPicture request.now.size }
    requires triangle_limit { length tris.now ≤ MAX_TRIANGLES }
    requires mesh { All IsGridTriangle tris.now }
    ensures picture { IfOk result
        (λ words. words.items ≡ picture request.now.camera request.now.size (items_of tris.now)) }
    ensures picture_size { IfOk result
        (λ words. length words.items ≡ request.now.size.width * request.now.size.height) }
{
    let mut buffer = VisibilityBuffer::new(alloc, request.size)?;
    draw_all(request, tris, &mut buffer);
    Ok(buffer.into_words())
}

/// Draws each triangle under its number in the list.
fn draw_all<T: PixelSink>(request: &DrawRequest, tris: &[Tri], to: &mut T)
    requires picture { IsPicture request.now.size }
    requires triangle_limit { length tris.now ≤ MAX_TRIANGLES }
    requires mesh { All IsGridTriangle tris.now }
    requires sink_size { request.now.size.width * request.now.size.height ≤ T.pixels to.old }
    ensures { (rest : T.Rest) (before : List (ℕ × ℕ)) → T.shows to.old rest before
        → T.shows to.new rest
        (before ++ flat_map (drawn request.now.camera request.now.size) (items_of tris.now)) }
{
    let mut cache = VertexCache::new(&request.camera);
    for (number, tri) in tris.iter().enumerate() {
        let number = number as u32;
        draw_triangle(
            &mut cache,
            request.size,
            number / TRIANGLES_PER_CLUSTER,
            number % TRIANGLES_PER_CLUSTER,
            *tri,
            to,
        );
    }
}
