ghost use Rattle.std.specs.Prelude.{◌≡◌, ◌<◌, ◌≤◌, ◌*◌, ◌^◌, ℕ, List, ◌++◌};
ghost use Rattle.geom_core.specs.Coverage.{word_of, words_of};
ghost use Rattle.geom_core.specs.Limits.{IsSpot, IsClusterNumber, IsPicture};
ghost use Rattle.geom_core.specs.declared.limits.TheConstants.{MAX_DEPTH, TRIANGLES_PER_CLUSTER};

use crate::raster::{ScreenTriangle, draw};
use crate::sinks::PixelSink;
use geom_core::limits::{CLUSTER_BITS, TRIANGLE_BITS};
use geom_core::{Size, Spot};

/// The word of one pixel. Of the words drawn at a pixel, the greatest is the one that is seen.
///
/// `depth` falls from `MAX_DEPTH` at the near plane towards 0 (reversed depth), so the nearer wins; at
/// equal depth the greater `cluster` wins, then the greater `tri`, the triangle's place in its cluster.
pub fn pack(depth: u32, cluster: u32, tri: u32) -> u64
    requires depth_limit { depth ≤ MAX_DEPTH }
    requires cluster_limit { IsClusterNumber cluster }
    requires triangle_limit { tri < TRIANGLES_PER_CLUSTER }
    ensures word { result ≡ word_of depth cluster tri }
{
    (u64::from(depth) << (CLUSTER_BITS + TRIANGLE_BITS))
        + (u64::from(cluster) << TRIANGLE_BITS)
        + u64::from(tri)
}

/// Draws a triangle: puts its word at each pixel whose centre it covers, ascending, each pixel once.
///
/// `cluster` is the number of the triangle's cluster, and `tri` its number there. A row costs two divisions for its
/// span and one for its first depth; a pixel costs none.
pub fn for_each_word<T: PixelSink>(
    a: Spot,
    b: Spot,
    c: Spot,
    cluster: u32,
    tri: u32,
    size: Size,
    to: &mut T,
)
    requires spots { IsSpot a × IsSpot b × IsSpot c }
    requires cluster_limit { IsClusterNumber cluster }
    requires triangle_limit { tri < TRIANGLES_PER_CLUSTER }
    requires picture { IsPicture size }
    requires sink_size { size.width * size.height ≤ T.pixels to.old }
    ensures same_size { T.pixels to.new ≡ T.pixels to.old }
    ensures shown { (rest : T.Rest) (before : List (ℕ × ℕ)) → T.shows to.old rest before
        → T.shows to.new rest (before ++ words_of a b c cluster tri size) }
{
    let triangle = ScreenTriangle {
        a,
        b,
        c,
        cluster,
        tri,
        size,
    };
    draw(triangle, to);
}
