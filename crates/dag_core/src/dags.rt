ghost use Rattle.std.specs.Prelude.{◌≡◌, List};
ghost use Rattle.geom_core.specs.declared.triangles.Tagged.{Tagged};

use crate::heads::Heads;
use geom_core::TaggedTris;
use std::marker::Model;

/// The triangles of each cluster, by the cluster's number. Contracts see the list of lists itself.
#[derive(Debug, Drop)]
pub struct ClusterTris {
    items: Vec<TaggedTris>,
}

impl Model for ClusterTris {
    ghost Value = { List (List Tagged) };

    ghost view = { λ tris. tris.items.items };
}

impl ClusterTris {
    /// Returns the list of the vector's clusters, without allocating.
    pub fn of(items: Vec<TaggedTris>) -> ClusterTris
        ensures { result ≡ items.items }
    {
        ClusterTris { items }
    }

    /// The clusters' triangles, in order.
    pub fn as_slice(&self) -> &[TaggedTris]
        ensures { result.now ≡ self.now }
    {
        self.items.as_slice()
    }

    /// Returns the vector that holds the clusters' triangles, without allocating.
    pub fn into_vec(self) -> Vec<TaggedTris>
        ensures { result.items ≡ self }
    {
        let ClusterTris { items } = self;
        items
    }
}

/// A DAG of levels of detail, with its triangles.
#[derive(Debug, Drop)]
pub struct Dag {
    /// The DAG without its triangles.
    pub heads: Heads,
    /// The triangles of each cluster, by the cluster's number: as many as the cluster's head states.
    pub tris: ClusterTris,
}
