ghost use Rattle.std.specs.Prelude.{◌≡◌, List, option_map};
ghost use Rattle.page_codec.specs.declared.pages.PageCluster.{PageCluster};
ghost use Rattle.page_codec.specs.Lookups.{tris_with};

use geom_core::{Tagged, TaggedTris};
use std::marker::Model;

/// A cluster on a page.
#[derive(Debug, Drop)]
pub struct PageCluster {
    /// The cluster's number.
    pub number: u32,
    /// The cluster's triangles, in order.
    pub tris: TaggedTris,
}

/// The clusters on a page. Contracts see the list itself.
#[derive(Debug, Drop)]
pub struct PageClusters {
    items: Vec<PageCluster>,
}

impl Model for PageClusters {
    ghost Value = { List PageCluster };

    ghost view = { λ clusters. clusters.items.items };
}

impl PageClusters {
    /// Returns the list of the vector's clusters, without allocating.
    pub fn of(items: Vec<PageCluster>) -> PageClusters
        ensures { result ≡ items.items }
    {
        PageClusters { items }
    }

    /// The clusters, in order.
    pub fn as_slice(&self) -> &[PageCluster]
        ensures { result.now ≡ self.now }
    {
        self.items.as_slice()
    }
}

/// A page of a file: whole clusters, with their triangles.
#[derive(Debug, Drop)]
pub struct Page {
    /// The page's number, from 0.
    pub number: u32,
    /// The clusters on the page; ascending, if the page is of a checked DAG.
    pub clusters: PageClusters,
}

impl Page {
    /// Returns the triangles of the cluster of this number, or `None` if the page has no such cluster.
    ///
    /// Any number may be asked for. The clusters are looked through one after the other.
    pub fn cluster(&self, number: u32) -> Option<&[Tagged]>
        ensures triangles { option_map (λ tris. tris.now) result ≡ tris_with number self.now.clusters }
    {
        for cluster in self.clusters.as_slice() {
            if cluster.number == number {
                return Some(cluster.tris.as_slice());
            }
        }
        None
    }
}
