use geom_core::{Cube, TaggedTris};

/// What a cluster keeps of the group that made it.
#[derive(Clone, Copy, Debug, PartialEq, Eq)]
pub struct Maker {
    /// The group's place among the groups of its level, from 0.
    pub group: u32,
    /// The group's error, in grid steps.
    pub error: u32,
    /// The group's box.
    pub cube: Cube,
}

/// A cluster of a level of detail.
#[derive(Debug, Drop)]
pub struct LevelCluster {
    /// The triangles, each with the index of its source triangle.
    pub tris: TaggedTris,
    /// What bounds the group that made the cluster; `None` for a cluster of source triangles.
    pub maker: Option<Maker>,
}
