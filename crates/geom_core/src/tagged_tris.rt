ghost use Rattle.std.specs.Prelude.{◌≡◌, List};
ghost use Rattle.std.specs.Cmp.{partial_equiv_from_equiv};
ghost use Rattle.std.specs.Cmp.Lexicographic.{lists_equiv, pointwise};
ghost use Rattle.geom_core.specs.contracts.triangles.TaggedEq.TheImpl.Laws.{laws-law};
ghost use Rattle.geom_core.specs.declared.triangles.Tagged.{Tagged};

use crate::triangles::Tagged;
use std::marker::Model;

/// A list of triangles, each with the index of its source triangle. Contracts see the list itself.
///
/// Simplified lists, the clusters of a DAG and the clusters of a page are this type.
#[derive(Debug, Drop)]
pub struct TaggedTris {
    items: Vec<Tagged>,
}

impl Model for TaggedTris {
    ghost Value = { List Tagged };

    ghost view = { λ tris. tris.items.items };
}

impl PartialEq for TaggedTris {
    ghost eq = { pointwise ⟦<Tagged as PartialEq>⟧.eq };

    ghost laws = { partial_equiv_from_equiv (lists_equiv laws-law) };

    fn eq(&self, other: &TaggedTris) -> bool {
        self.items == other.items
    }
}

impl Eq for TaggedTris {
    ghost laws = { lists_equiv laws-law };
}

impl TaggedTris {
    /// Returns the list of the vector's triangles, without allocating.
    pub fn of(items: Vec<Tagged>) -> TaggedTris
        ensures { result ≡ items.items }
    {
        TaggedTris { items }
    }

    /// The triangles, in order.
    pub fn as_slice(&self) -> &[Tagged]
        ensures { result.now ≡ self.now }
    {
        self.items.as_slice()
    }

    /// Returns the vector that holds the triangles, without allocating.
    pub fn into_vec(self) -> Vec<Tagged>
        ensures { result.items ≡ self }
    {
        let TaggedTris { items } = self;
        items
    }
}

#[cfg(test)]
mod tests {
    use super::*;
    use crate::{Pt, Tri};
    use std::test::Fail;

    fn is_shared<T: Send + Sync>(_value: &T) -> bool {
        true
    }

    /// The origin three times, from this source triangle.
    fn point_from(source: u32) -> Tagged {
        let origin = Pt { x: 0, y: 0, z: 0 };
        let tri = Tri {
            a: origin,
            b: origin,
            c: origin,
        };
        Tagged { tri, source }
    }

    #[test]
    fn triangles_go_in_and_come_out(rt: HostRuntime) -> Result<(), Fail> {
        let tris = TaggedTris::of(vec![in rt.alloc(); point_from(2), point_from(0)]?);
        assert!(rt; is_shared(&tris));
        assert_eq!(rt; tris.as_slice(), [point_from(2), point_from(0)].as_slice());

        let same = TaggedTris::of(vec![in rt.alloc(); point_from(2), point_from(0)]?);
        let other = TaggedTris::of(vec![in rt.alloc(); point_from(2), point_from(1)]?);
        assert_eq!(rt; tris, same);
        assert!(rt; tris != other);
        assert_eq!(rt;
            tris.into_vec().as_slice(),
            [point_from(2), point_from(0)].as_slice()
        );
        Ok(())
    }
}
