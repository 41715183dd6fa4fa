ghost use Rattle.std.specs.Prelude.{◌≡◌, ◌<◌, All, IfSome, option_map};
ghost use Rattle.std.proofs.Props.{props};
ghost use Rattle.geom_core.specs.declared.screens.Size.{Size};
ghost use Rattle.geom_core.specs.Camera.{spot_of};
ghost use Rattle.geom_core.specs.Limits.{IsGridPoint};
ghost use Rattle.view_camera.specs.ViewPoints.{spot_at, IsBeyondNear};

use geom_core::Pt;
use view_camera::{Camera, ViewPoint};

/// Bits of an entry's index.
const INDEX_BITS: u32 = 8;

/// The number of entries, at 48 bytes each.
const ENTRIES: usize = 1 << INDEX_BITS;

/// What each coordinate of a point is multiplied with to find its entry: odd numbers with no pattern of bits.
const MULTIPLIERS: [u32; 3] = [0x9e37_79b1, 0x85eb_ca77, 0xc2b2_ae3d];

/// A mesh point and its view-space point, if the point is no nearer than the near plane.
#[derive(Clone, Copy)]
struct CachedPoint {
    point: Pt,
    at: Option<ViewPoint>,
}

/// A post-transform vertex cache (Hoppe 1999) of one camera, so that a corner that neighbouring triangles share
/// is mostly transformed once. It is direct-mapped: each mesh point has one entry, found by a hash, and takes
/// it from the point that was there.
///
/// It takes no memory besides itself, about 12 KiB: make one for a drawing and lend it to each triangle.
#[derive(Drop)]
pub struct VertexCache {
    /// The camera whose view-space points the cache has.
    pub camera: Camera,
    entries: [CachedPoint; ENTRIES],
    ghost right: { All (λ entry. IfSome entry.at (IsBeyondNear camera)
        × ((size : Size) → spot_of camera size entry.point
        ≡ option_map (spot_at camera size) entry.at)) entries } by { Prim.hlevel props },
}

impl VertexCache {
    /// Returns a cache for this camera. No entry of a cache is empty: here each has the mesh's origin.
    pub fn new(camera: &Camera) -> VertexCache
        ensures { result.camera ≡ camera.now }
    {
        let point = Pt { x: 0, y: 0, z: 0 };
        let origin = CachedPoint {
            point,
            at: camera.to_view(point),
        };
        VertexCache {
            camera: *camera,
            entries: [origin; ENTRIES],
        }
    }

    /// Returns the view-space point of a mesh point, if the point is no nearer than the near plane.
    pub(crate) fn to_view(&mut self, p: Pt) -> Option<ViewPoint>
        requires grid_point { IsGridPoint p }
        ensures same_camera { self.new.camera ≡ self.old.camera }
        ensures beyond_near { IfSome result (IsBeyondNear self.old.camera) }
        ensures spot { (size : Size) → spot_of self.old.camera size p
            ≡ option_map (spot_at self.old.camera size) result }
    {
        let index = index_of(p);
        let entry = self.entries[index];
        if entry.point == p {
            return entry.at;
        }
        let at = self.camera.to_view(p);
        self.entries[index] = CachedPoint { point: p, at };
        at
    }
}

/// Returns the index of a point's entry: the uppermost bits of a sum of multiples of its coordinates
/// (multiplicative hashing, Knuth 1973).
fn index_of(p: Pt) -> usize
    ensures { result < ENTRIES }
{
    let [by_x, by_y, by_z] = MULTIPLIERS;
    let x = p.x.cast_unsigned().wrapping_mul(by_x);
    let y = p.y.cast_unsigned().wrapping_mul(by_y);
    let z = p.z.cast_unsigned().wrapping_mul(by_z);
    (x.wrapping_add(y).wrapping_add(z) >> (u32::BITS - INDEX_BITS)) as usize
}

#[cfg(test)]
mod tests {
    use super::*;
    use crate::buffers::VisibilityBuffer;
    use crate::triangles::draw_triangle;
    use geom_core::{Size, Tri};
    use std::test::Fail;

    /// A camera 4,096 grid steps above the plane, looking down.
    const FROM_ABOVE: [i64; 15] = [
        4, 33_554_432, 0, 0, 4_096, 0, 16_384, 0, 0, 0, 0, 16_384, 0, -16_384, 0,
    ];

    const FOUR_BY_FOUR: Size = Size {
        width: 4,
        height: 4,
    };

    fn point(x: i16, y: i16, z: i16) -> Pt
        ensures { IsGridPoint result }
    {
        Pt {
            x: x.into(),
            y: y.into(),
            z: z.into(),
        }
    }

    fn triangle(a: Pt, b: Pt, c: Pt) -> Tri
        ensures { result ≡ record { a = a; b = b; c = c } }
    {
        Tri { a, b, c }
    }

    // The corners p and q differ in z alone and have one entry. The words are those of a rasteriser in C++
    // that projects each vertex once.
    #[test]
    fn corners_with_one_entry_are_drawn_apart(rt: HostRuntime) -> Result<(), Fail> {
        let camera = Camera::new(FROM_ABOVE).expect(&rt, "a camera");
        let (p, q) = (point(1024, 0, -1408), point(1024, 0, 1344));
        assert_eq!(rt; index_of(p), index_of(q));
        let (left, right, near) = (point(-1536, 0, 0), point(1792, 512, 0), point(0, 3000, 0));
        let mut cache = VertexCache::new(&camera);
        let mut buffer = VisibilityBuffer::new(rt.alloc(), FOUR_BY_FOUR)?;
        let tri = triangle(p, q, left);
        draw_triangle(&mut cache, FOUR_BY_FOUR, 0, 0, tri, &mut buffer);
        let tri = triangle(q, p, right);
        draw_triangle(&mut cache, FOUR_BY_FOUR, 0, 1, tri, &mut buffer);
        let tri = triangle(q, p, near);
        draw_triangle(&mut cache, FOUR_BY_FOUR, 0, 2, tri, &mut buffer);
        let tri = triangle(p, near, left);
        draw_triangle(&mut cache, FOUR_BY_FOUR, 0, 3, tri, &mut buffer);
        let first = 0x7fff_fffc_0000_0000;
        let second = 0x8924_9244_0000_0001;
        let want = [
            0, 0, 0, 0, 0, first, first, second, 0, first, first, second, 0, 0, 0, 0,
        ];
        assert_eq!(rt; buffer.into_words().as_slice(), want.as_slice());
        Ok(())
    }
}
