ghost use Rattle.std.specs.Prelude.{◌≡◌, ◌≤◌, ◌*◌, ◌<◌, ℕ, List, ◌++◌};
ghost use Rattle.geom_core.specs.declared.limits.TheConstants.{TRIANGLES_PER_CLUSTER};
ghost use Rattle.geom_core.specs.Picture.{drawn};
ghost use Rattle.geom_core.specs.Limits.{HasGridCorners, IsClusterNumber, IsPicture};

use crate::vertex_caches::VertexCache;
use geom_core::{Size, Tri};
use raster64::{PixelSink, for_each_word};

/// Draws the triangle `tri` as the cache's camera sees it, with the words of triangle `number` of cluster
/// `cluster`.
///
/// A triangle with a corner nearer than the near plane is not drawn. A triangle that is off screen is not
/// projected.
pub fn draw_triangle<T: PixelSink>(
    cache: &mut VertexCache,
    size: Size,
    cluster: u32,
    number: u32,
    tri: Tri,
    to: &mut T,
)
    requires picture { IsPicture size }
    requires grid_corners { HasGridCorners tri }
    requires cluster_limit { IsClusterNumber cluster }
    requires triangle_limit { number < TRIANGLES_PER_CLUSTER }
    requires sink_size { size.width * size.height ≤ T.pixels to.old }
    ensures same_camera { cache.new.camera ≡ cache.old.camera }
    ensures same_size { T.pixels to.new ≡ T.pixels to.old }
    ensures shown { (rest : T.Rest) (before : List (ℕ × ℕ)) → T.shows to.old rest before
        → T.shows to.new rest (before ++ drawn cache.old.camera size
        (record { cluster = cluster; place = number; tri = tri })) }
{
    let Some(a) = cache.to_view(tri.a) else {
        return;
    };
    let Some(b) = cache.to_view(tri.b) else {
        return;
    };
    let Some(c) = cache.to_view(tri.c) else {
        return;
    };
    if cache.camera.is_off_screen(size, a, b, c) {
        return;
    }
    let (a, b, c) = (
        cache.camera.project(size, a),
        cache.camera.project(size, b),
        cache.camera.project(size, c),
    );
    for_each_word(a, b, c, cluster, number, size, to);
}
