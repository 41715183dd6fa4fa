ghost use Rattle.std.specs.Prelude.{◌≡◌, List};
ghost use Rattle.half_mesh.specs.declared.edges.Edge.{Edge};

use geom_core::Pt;
use half_mesh::Edge;
use std::marker::Model;

/// A list of edges. A contract sees the list itself.
#[derive(Debug, Drop)]
pub struct Edges {
    items: Vec<Edge>,
}

impl Model for Edges {
    ghost Value = { List Edge };

    ghost view = { λ edges. edges.items.items };
}

impl Edges {
    /// The list of these edges. Takes no memory.
    pub fn of(items: Vec<Edge>) -> Edges
        ensures { result ≡ items.items }
    {
        Edges { items }
    }

    /// The edges, in order.
    pub fn as_slice(&self) -> &[Edge]
        ensures { result.now ≡ self.now }
    {
        self.items.as_slice()
    }

    /// The vector that holds the edges. Takes no memory.
    pub fn into_vec(self) -> Vec<Edge>
        ensures { result.items ≡ self }
    {
        let Edges { items } = self;
        items
    }
}

/// What decides a cluster's group: its position and the edges of its rim.
#[derive(Debug, Drop)]
pub struct ClusterShape {
    /// The corner of least x, y and z of the cluster's box.
    pub low: Pt,
    /// The edges of the cluster's rim, each once: those whose edge sum isn't 0.
    pub rim: Edges,
}
