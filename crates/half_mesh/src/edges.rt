ghost use Rattle.std.specs.Prelude.{◌≡◌};
ghost use Rattle.half_mesh.specs.declared.edges.Edge.{Edge};
ghost use Rattle.half_mesh.specs.Order.{edge_cmp};

use geom_core::Pt;

/// An edge without a direction: two points, `u` before `v`. Edges are ordered by u, then v.
#[derive(Clone, Copy, Debug, PartialEq, Eq, PartialOrd, Ord)]
pub struct Edge {
    /// The point that comes first in the order of points.
    pub u: Pt,
    /// The point that comes after `u`.
    pub v: Pt,
}

/// A law: two edges compare by u, then v.
pub fn edges_are_ordered()
    ensures { (e f : Edge) → ⟦<Edge as Ord>⟧.cmp e f ≡ edge_cmp e f }
{}

#[cfg(test)]
mod tests {
    use super::*;

    fn is_shared<T: Send + Sync>(_value: &T) -> bool {
        true
    }

    #[test]
    fn edges_are_ordered_by_u_then_v(rt: HostRuntime) {
        let origin = Pt { x: 0, y: 0, z: 0 };
        let right = Pt { x: 8, y: 0, z: 0 };
        let up = Pt { x: 0, y: 8, z: 0 };
        let edge = |u: Pt, v: Pt| Edge { u, v };
        assert!(rt; edge(origin, up) < edge(origin, right));
        assert!(rt; edge(origin, right) < edge(up, right));
        assert_eq!(rt; edge(origin, up), edge(origin, up));
        assert!(rt; is_shared(&edge(origin, up)));
        edges_are_ordered();
    }
}
