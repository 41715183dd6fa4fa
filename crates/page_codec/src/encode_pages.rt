ghost use Rattle.std.specs.Prelude.{◌≡◌, ◌≤◌, ◌<◌, ◌+◌, ◌++◌, List, IfSome, drop, length, take};
ghost use Rattle.std.specs.List.{flat_map};
ghost use Rattle.dag_core.specs.TriangleRules.{IsLaidOut};
ghost use Rattle.page_codec.specs.PageLinks.{IsIndexOf};
ghost use Rattle.page_codec.specs.Spelling.{cluster_bytes, clusters_bytes, page_bytes, page_in};

use crate::page_indexes::PageIndex;
use crate::records::triangle_record;
use crate::walk::{first_group, next_group};
use dag_core::Dag;
use geom_core::limits::{PAGE_BYTES, TRIANGLE_BYTES};
use geom_core::{Tagged, TaggedTris};

/// Writes a cluster from byte `at` on. Returns the place after it.
fn write_cluster(tris: &[Tagged], at: usize, into: &mut [u8]) -> usize
    requires room { at + length (cluster_bytes tris.now) ≤ length into.old }
    ensures end { result ≡ at + length (cluster_bytes tris.now) }
    ensures written { take result into.new ≡ take at into.old ++ cluster_bytes tris.now }
{
    let mut end = at;
    'triangles: for t in tris {
        let next = end + TRIANGLE_BYTES as usize;
        into[end..next].copy_from_slice(&triangle_record(*t));
        end = next;
    }
    end
}

/// Writes the clusters from byte `at` on. Returns the place after them.
fn write_clusters(clusters: &[TaggedTris], at: usize, into: &mut [u8]) -> usize
    requires room { at + length (flat_map cluster_bytes clusters.now) ≤ length into.old }
    ensures end { result ≡ at + length (flat_map cluster_bytes clusters.now) }
    ensures written { take result into.new ≡ take at into.old ++ flat_map cluster_bytes clusters.now }
{
    let mut end = at;
    'clusters: for tris in clusters {
        end = write_cluster(tris.as_slice(), end, into);
    }
    end
}

/// Writes `count` clusters, from number `first` on, from byte `at` on. Returns the place after them.
fn write_members(tris: &[TaggedTris], first: u32, count: u32, at: usize, into: &mut [u8]) -> usize
    requires members { first + count ≤ length tris.now }
    requires room { at + length (flat_map cluster_bytes (take count (drop first tris.now)))
        ≤ length into.old }
    ensures end { result ≡ at + length (flat_map cluster_bytes (take count (drop first tris.now))) }
    ensures written { take result into.new
        ≡ take at into.old ++ flat_map cluster_bytes (take count (drop first tris.now)) }
{
    let (_before, rest) = tris.split_at(first as usize);
    let (members, _after) = rest.split_at(count as usize);
    write_clusters(members, at, into)
}

/// Writes the clusters on the page. Returns the place after them.
fn write_page(dag: &Dag, index: Option<&PageIndex>, page: u32, into: &mut [u8]) -> usize
    requires laid_out { IsLaidOut dag.now }
    requires page_range { page < dag.now.heads.pages }
    requires index { IfSome index (λ links. IsIndexOf dag.now.heads links.now) }
    requires room { length into.old ≡ PAGE_BYTES }
    ensures end { result ≡ length (clusters_bytes (page_in dag.now page).clusters) }
    ensures written { take result into.new ≡ clusters_bytes (page_in dag.now page).clusters }
    ensures room { result ≤ PAGE_BYTES }
{
    let groups = dag.heads.groups.as_slice();
    let mut end = 0;
    let mut g = first_group(&dag.heads, index, page);
    'groups: while (g as usize) < groups.len() {
        let group = groups[g as usize];
        end = write_members(dag.tris.as_slice(), group.first, group.count, end, into);
        g = next_group(&dag.heads, index, g);
    }
    end
}

/// Writes the page, with or without an index of the DAG's pages.
fn encode(dag: &Dag, index: Option<&PageIndex>, page: u32, into: &mut [u8])
    requires laid_out { IsLaidOut dag.now }
    requires page_range { page < dag.now.heads.pages }
    requires index { IfSome index (λ links. IsIndexOf dag.now.heads links.now) }
    requires room { length into.old ≡ PAGE_BYTES }
    ensures page { into.new ≡ page_bytes (page_in dag.now page) }
{
    let end = write_page(dag, index, page, into);
    into[end..].fill(0);
}

/// Writes page `page` of a laid-out DAG, whatever was there. It takes no memory. All groups are looked at; for many
/// pages see `encode_page_by`.
pub fn encode_page(dag: &Dag, page: u32, into: &mut [u8; PAGE_BYTES as usize])
    requires laid_out { IsLaidOut dag.now }
    requires page_range { page < dag.now.heads.pages }
    ensures page { into.new ≡ page_bytes (page_in dag.now page) }
{
    encode(dag, None, page, into);
}

/// Writes a page as `encode_page` does. The groups on the page come from the index, in time in proportion to them.
pub fn encode_page_by(dag: &Dag, index: &PageIndex, page: u32, into: &mut [u8; PAGE_BYTES as usize])
    requires laid_out { IsLaidOut dag.now }
    requires page_range { page < dag.now.heads.pages }
    requires index { IsIndexOf dag.now.heads index.now }
    ensures page { into.new ≡ page_bytes (page_in dag.now page) }
{
    encode(dag, Some(index), page, into);
}
