ghost use Rattle.std.specs.Prelude.{◌≡◌, List};
ghost use Rattle.std.specs.Cmp.{partial_equiv_from_equiv};
ghost use Rattle.std.specs.Cmp.Lexicographic.{lists_equiv, pointwise};
ghost use Rattle.dag_core.specs.contracts.groups.GroupEq.TheImpl.Laws.{laws-law};
ghost use Rattle.dag_core.specs.declared.groups.Group.{Group};

use geom_core::Cube;
use std::marker::Model;

/// A group of clusters, which are simplified together: its members, and what bounds them.
///
/// The ranges are those of `specs/Ranges.antt`; the type itself keeps none of them.
#[derive(Clone, Copy, Debug, PartialEq, Eq)]
pub struct Group {
    /// How far a corner of the clusters that the group made may be from the same corner of its source triangle,
    /// as a Chebyshev distance in grid steps: 0 to `MAX_ERROR`.
    pub error: u32,
    /// Whether the group made no cluster, so that nothing coarser replaces its members.
    pub terminal: bool,
    /// A box round the members' corners and the boxes of the groups that made the members; both its corners are
    /// points of a mesh.
    pub cube: Cube,
    /// The page that has the members' triangles: below the number of pages.
    pub page: u32,
    /// The first member's number. The members are the clusters from it on.
    pub first: u32,
    /// The number of members: 1 to `CLUSTERS_PER_GROUP`.
    pub count: u32,
}

/// A list of groups; a group's number is its place. Contracts see the list itself.
#[derive(Debug, Drop)]
pub struct Groups {
    items: Vec<Group>,
}

impl Model for Groups {
    ghost Value = { List Group };

    ghost view = { λ groups. groups.items.items };
}

impl PartialEq for Groups {
    ghost eq = { pointwise ⟦<Group as PartialEq>⟧.eq };

    ghost laws = { partial_equiv_from_equiv (lists_equiv laws-law) };

    fn eq(&self, other: &Groups) -> bool {
        self.items == other.items
    }
}

impl Eq for Groups {
    ghost laws = { lists_equiv laws-law };
}

impl Groups {
    /// Returns the list of the vector's groups, without allocating.
    pub fn of(items: Vec<Group>) -> Groups
        ensures { result ≡ items.items }
    {
        Groups { items }
    }

    /// The groups, in order.
    pub fn as_slice(&self) -> &[Group]
        ensures { result.now ≡ self.now }
    {
        self.items.as_slice()
    }

    /// Returns the vector that holds the groups, without allocating.
    pub fn into_vec(self) -> Vec<Group>
        ensures { result.items ≡ self }
    {
        let Groups { items } = self;
        items
    }
}
