ghost use Rattle.std.specs.Prelude.{◌≡◌};
ghost use Rattle.geom_core.specs.Distance.{distance};

use crate::points::Pt;

/// Returns the Chebyshev distance of two points, in grid steps: the greatest of the three axes' distances.
///
/// The result fits a `u32` for all points, not only for those of a mesh.
#[tactic(auto, unfolding(crate::specs::Distance::distance))]
pub fn cheb(p: Pt, q: Pt) -> u32
    ensures distance { result ≡ distance p q }
{
    let beside = p.y.abs_diff(q.y).max(p.z.abs_diff(q.z));
    p.x.abs_diff(q.x).max(beside)
}
