use crate::level_clusters::LevelCluster;
use geom_core::Cube;
use std::marker::Model;

/// A group whose members have been simplified. A contract sees a group that made nothing: the clusters that
/// it made are members of the next level's groups.
#[derive(Drop)]
pub(crate) struct DoneGroup {
    /// The members, in order.
    pub(crate) members: Vec<LevelCluster>,
    /// The error, in grid steps: 0 if the group is terminal.
    pub(crate) error: u32,
    /// Whether the group made no cluster.
    pub(crate) terminal: bool,
    /// A box round the members and the boxes of their makers.
    pub(crate) cube: Cube,
}

impl Model for DoneGroup {
    ghost use Rattle.std.specs.Prelude.{[]};
    ghost use Rattle.dag_build.specs.Levels.{LevelGroup};
    ghost use Rattle.dag_build.specs.Internal.Groups.{group_of};

    ghost Value = { LevelGroup };

    ghost view = { λ g. group_of g.members.items g.error g.terminal g.cube [] };
}
