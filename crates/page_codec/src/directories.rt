ghost use Rattle.std.specs.Prelude.{◌≡◌, List};
ghost use Rattle.geom_core.specs.declared.digests.Digest32.{Digest32};

use dag_core::Heads;
use geom_core::Digest32;
use std::marker::Model;

/// A list of digests; a digest's number is its place. Contracts see the list itself.
#[derive(Debug, Drop)]
pub struct Digests {
    items: Vec<Digest32>,
}

impl Model for Digests {
    ghost Value = { List Digest32 };

    ghost view = { λ digests. digests.items.items };
}

impl Digests {
    /// Returns the list of the vector's digests, without allocating.
    pub fn of(items: Vec<Digest32>) -> Digests
        ensures { result ≡ items.items }
    {
        Digests { items }
    }

    /// The digests, in order.
    pub fn as_slice(&self) -> &[Digest32]
        ensures { result.now ≡ self.now }
    {
        self.items.as_slice()
    }
}

/// The directory of a page file: all of a DAG but its triangles, and what the pages' bytes have to be.
#[derive(Debug, Drop)]
pub struct Directory {
    /// The DAG without its triangles.
    pub heads: Heads,
    /// The SHA-256 digest of each page's bytes, by the page's number.
    pub digests: Digests,
}
