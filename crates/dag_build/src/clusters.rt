ghost use Rattle.std.specs.Prelude.{◌≡◌, ◌≤◌, IfOk, All, length};
ghost use Rattle.geom_core.specs.declared.limits.TheConstants.{TRIANGLES_PER_CLUSTER};
ghost use Rattle.geom_core.specs.Limits.{IsGridTriangle};
ghost use Rattle.geom_core.specs.TaggedLists.{tris_of};
ghost use Rattle.half_mesh.specs.Rim.{IsRimOf};
ghost use Rattle.partition.specs.Groups.{IsGridShape};
ghost use Rattle.dag_build.specs.Grouping.{IsShapeOf, no_cluster};
ghost use Rattle.dag_build.specs.Internal.Clusters.{made_cluster};

use crate::corners::{low_corner, plain_tris};
use crate::level_clusters::{LevelCluster, Maker};
use geom_core::{Memory, Pt, Tagged, TaggedTris};
use half_mesh::Rim;
use partition::{ClusterShape, Edges};
use std::alloc::Global;
use std::marker::Model;

/// A cluster of the present level, with what decides its group. A contract sees the cluster alone.
#[derive(Drop)]
pub(crate) struct Cluster {
    /// The triangles and their maker.
    cluster: LevelCluster,
    /// The rim of the triangles.
    rim: Rim,
    /// The low corner of the box round the triangles.
    low: Pt,
}

impl Model for Cluster {
    ghost use Rattle.dag_build.specs.declared.level_clusters.LevelCluster.{LevelCluster};
    ghost use Rattle.dag_build.specs.Internal.Clusters.{IsDescribed};

    ghost Value = { LevelCluster };

    ghost view = { λ c. c.cluster };

    ghost invariant = { λ c. IsDescribed c.cluster c.rim c.low };
}

impl Cluster {
    /// Returns the cluster of these triangles.
    pub(crate) fn new(
        alloc: Global,
        tris: Vec<Tagged>,
        maker: Option<Maker>,
    ) -> Result<Cluster, Memory>
        requires triangle_limit { length tris.items ≤ TRIANGLES_PER_CLUSTER }
        requires triangles { All IsGridTriangle (tris_of tris.items) }
        ensures cluster { IfOk result (λ cluster. cluster ≡ made_cluster maker tris.items) }
    {
        let plain = plain_tris(alloc, &tris)?;
        let rim = Rim::of(alloc, &plain)?;
        let low = low_corner(alloc, &tris)?;
        let cluster = LevelCluster {
            tris: TaggedTris::of(tris),
            maker,
        };
        Ok(Cluster { cluster, rim, low })
    }

    /// Returns a cluster with no triangle, which takes the place of one that is moved out.
    pub(crate) fn empty(alloc: Global) -> Result<Cluster, Memory>
        ensures cluster { IfOk result (λ cluster. cluster ≡ no_cluster) }
    {
        Cluster::new(alloc, Vec::new(alloc), None)
    }

    /// The triangles, in order.
    pub(crate) fn tris(&self) -> &[Tagged]
        ensures triangles { result.now ≡ self.now.tris }
        ensures triangle_limit { length result.now ≤ TRIANGLES_PER_CLUSTER }
        ensures triangle_range { All IsGridTriangle (tris_of result.now) }
    {
        self.cluster.tris.as_slice()
    }

    /// What bounds the group that made the cluster.
    pub(crate) fn maker(&self) -> Option<Maker>
        ensures maker { result ≡ self.now.maker }
    {
        self.cluster.maker
    }

    /// The rim of the triangles.
    pub(crate) fn rim(&self) -> &Rim
        ensures rim { IsRimOf (tris_of self.now.tris) result.now.edges result.now.sums }
        ensures triangle_limit { length self.now.tris ≤ TRIANGLES_PER_CLUSTER }
    {
        &self.rim
    }

    /// Returns what decides the cluster's group.
    pub(crate) fn shape(&self, alloc: Global) -> Result<ClusterShape, Memory>
        ensures shape { IfOk result (IsShapeOf (tris_of self.now.tris)) }
        ensures shape_range { IfOk result IsGridShape }
    {
        let edges = self.rim.edges().to_vec(alloc)?;
        Ok(ClusterShape {
            low: self.low,
            rim: Edges::of(edges),
        })
    }

    /// Returns the cluster, without what decides its group.
    pub(crate) fn into_level_cluster(self) -> LevelCluster
        ensures cluster { result ≡ self }
    {
        let Cluster { cluster, rim, low } = self;
        cluster
    }
}
