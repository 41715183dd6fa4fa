ghost use Rattle.std.specs.Prelude.{◌≡◌, List};
ghost use Rattle.std.specs.Cmp.{partial_equiv_from_equiv};
ghost use Rattle.std.specs.Cmp.Lexicographic.{lists_equiv, pointwise};
ghost use Rattle.dag_core.specs.contracts.cluster_heads.ClusterHeadEq.TheImpl.Laws.{laws-law};
ghost use Rattle.dag_core.specs.declared.cluster_heads.ClusterHead.{ClusterHead};

use std::marker::Model;

/// What is known of a cluster without its triangles.
#[derive(Clone, Copy, Debug, PartialEq, Eq)]
pub struct ClusterHead {
    /// The number of the group that made the cluster by simplification: below the number of groups. `None` for a
    /// leaf, a cluster of source triangles.
    pub made: Option<u32>,
    /// The number of the cluster's triangles: 1 to `TRIANGLES_PER_CLUSTER`.
    pub tris: u32,
}

/// A list of cluster heads; a cluster's number is its place. Contracts see the list itself.
#[derive(Debug, Drop)]
pub struct ClusterHeads {
    items: Vec<ClusterHead>,
}

impl Model for ClusterHeads {
    ghost Value = { List ClusterHead };

    ghost view = { λ clusters. clusters.items.items };
}

impl PartialEq for ClusterHeads {
    ghost eq = { pointwise ⟦<ClusterHead as PartialEq>⟧.eq };

    ghost laws = { partial_equiv_from_equiv (lists_equiv laws-law) };

    fn eq(&self, other: &ClusterHeads) -> bool {
        self.items == other.items
    }
}

impl Eq for ClusterHeads {
    ghost laws = { lists_equiv laws-law };
}

impl ClusterHeads {
    /// Returns the list of the vector's cluster heads, without allocating.
    pub fn of(items: Vec<ClusterHead>) -> ClusterHeads
        ensures { result ≡ items.items }
    {
        ClusterHeads { items }
    }

    /// The cluster heads, in order.
    pub fn as_slice(&self) -> &[ClusterHead]
        ensures { result.now ≡ self.now }
    {
        self.items.as_slice()
    }

    /// Returns the vector that holds the cluster heads, without allocating.
    pub fn into_vec(self) -> Vec<ClusterHead>
        ensures { result.items ≡ self }
    {
        let ClusterHeads { items } = self;
        items
    }
}
