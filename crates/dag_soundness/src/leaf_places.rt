ghost use Rattle.std.specs.Prelude.{◌≡◌, ◌++◌, ◌<◌, ℕ, List, IfOk, false, length};
ghost use Rattle.std.specs.List.{find, list_all, range_with_len};
ghost use Rattle.geom_core.specs.declared.triangles.Tagged.{Tagged};
ghost use Rattle.dag_core.specs.TriangleRules.{IsLaidOut, breaks_corners, breaks_source, error_of};
ghost use Rattle.dag_core.specs.TriangleRules.{is_near, is_near_source};
ghost use Rattle.dag_core.specs.Triangles.{tris_at};
ghost use Rattle.dag_soundness.specs.Internal.LeafPlaces.{ArePlacesFor, ArePlacesIn, from_source};
ghost use Rattle.dag_soundness.specs.Internal.LeafPlaces.{place_with};

use dag_core::Dag;
use geom_core::{Memory, Tagged, Tri, cheb};
use std::alloc::Global;

/// Where the leaf triangles of one source are.
#[derive(Clone, Copy, Debug)]
pub(crate) enum LeafPlace {
    /// No leaf has one.
    Missing,
    /// One leaf has one.
    At {
        /// The cluster's number.
        cluster: u32,
        /// The triangle's place in the cluster, from 0.
        triangle: u32,
    },
    /// There are several.
    Repeated,
}

impl LeafPlace {
    /// Returns the place once another triangle was found, here.
    fn with(self, cluster: u32, triangle: u32) -> LeafPlace
        ensures place { result ≡ place_with self cluster triangle }
    {
        match self {
            LeafPlace::Missing => LeafPlace::At { cluster, triangle },
            LeafPlace::At { .. } | LeafPlace::Repeated => LeafPlace::Repeated,
        }
    }
}

/// Notes the places of a cluster's triangles.
fn note_tris(dag: &Dag, places: &mut [LeafPlace], cluster: u32)
    requires laid_out { IsLaidOut dag.now }
    requires cluster_range { cluster < length dag.now.tris }
    requires places { length places.old ≡ dag.now.heads.sources }
    ensures places { (found : ℕ → List Tagged) → ArePlacesFor dag.now found places.old →
        ArePlacesFor dag.now
        (λ source. found source ++ from_source (tris_at dag.now cluster) source) places.new }
    ensures count { length places.new ≡ dag.now.heads.sources }
{
    let tris = dag.tris.as_slice()[cluster as usize].as_slice();
    'tris: for k in 0..tris.len() {
        let source = tris[k].source as usize;
        places[source] = places[source].with(cluster, k as u32);
    }
}

/// Returns the place of the leaf triangle of each source.
pub(crate) fn leaf_places(alloc: Global, dag: &Dag) -> Result<Vec<LeafPlace>, Memory>
    requires laid_out { IsLaidOut dag.now }
    ensures places { IfOk result (λ places. ArePlacesIn dag.now places.items) }
{
    let clusters = dag.heads.clusters.as_slice();
    let mut places = vec![in alloc; LeafPlace::Missing; dag.heads.sources as usize]?;
    'clusters: for c in 0..clusters.len() as u32 {
        if clusters[c as usize].made.is_none() {
            note_tris(dag, &mut places, c);
        }
    }
    Ok(places)
}

/// Returns the first source that breaks rule 7: not exactly one leaf triangle has it.
pub(crate) fn first_source_break(dag: &Dag, places: &[LeafPlace]) -> Option<u32>
    requires places { ArePlacesIn dag.now places.now }
    ensures source { result
        ≡ find (breaks_source dag.now) (range_with_len 0 dag.now.heads.sources) }
{
    'sources: for source in 0..dag.heads.sources {
        match places[source as usize] {
            LeafPlace::At { .. } => {}
            LeafPlace::Missing | LeafPlace::Repeated => return Some(source),
        }
    }
    None
}

/// Whether each corner of a triangle is at most this far from the same corner of the other.
#[tactic(auto, unfolding(dag_core::specs::TriangleRules::is_near))]
fn is_near(most: u32, tri: Tri, source: Tri) -> bool
    ensures near { result ≡ is_near most tri source }
{
    cheb(tri.a, source.a) <= most && cheb(tri.b, source.b) <= most && cheb(tri.c, source.c) <= most
}

/// Whether the triangle is as near to its source's leaf triangle as this.
fn is_near_source(dag: &Dag, places: &[LeafPlace], most: u32, t: Tagged) -> bool
    requires places { ArePlacesIn dag.now places.now }
    requires sources { (source : ℕ) → breaks_source dag.now source ≡ false }
    requires source_range { t.source < dag.now.heads.sources }
    ensures near { result ≡ is_near_source dag.now most t }
{
    match places[t.source as usize] {
        LeafPlace::At { cluster, triangle } => {
            let leaf = dag.tris.as_slice()[cluster as usize].as_slice()[triangle as usize];
            is_near(most, t.tri, leaf.tri)
        }
        // Rule 7 is kept, so there is exactly one.
        LeafPlace::Missing | LeafPlace::Repeated => true,
    }
}

/// Returns how far the corners of a cluster's triangles may be from those of their source triangles.
fn error_of(dag: &Dag, c: usize) -> u32
    requires laid_out { IsLaidOut dag.now }
    requires cluster_range { c < length dag.now.heads.clusters }
    ensures error { result ≡ error_of dag.now.heads c }
{
    match dag.heads.clusters.as_slice()[c].made {
        Some(maker) => dag.heads.groups.as_slice()[maker as usize].error,
        None => 0,
    }
}

/// Whether all triangles of a cluster are near enough to their source triangles.
fn is_cluster_near(dag: &Dag, places: &[LeafPlace], c: usize) -> bool
    requires laid_out { IsLaidOut dag.now }
    requires places { ArePlacesIn dag.now places.now }
    requires sources { (source : ℕ) → breaks_source dag.now source ≡ false }
    requires cluster_range { c < length dag.now.heads.clusters }
    ensures near { result
        ≡ list_all (is_near_source dag.now (error_of dag.now.heads c)) (tris_at dag.now c) }
{
    let most = error_of(dag, c);
    'tris: for t in dag.tris.as_slice()[c].as_slice() {
        if !is_near_source(dag, places, most, *t) {
            return false;
        }
    }
    true
}

/// Returns the first cluster that breaks rule 8: a corner is further from the same corner of its source triangle than
/// the error of the cluster's maker.
pub(crate) fn first_corner_break(dag: &Dag, places: &[LeafPlace]) -> Option<u32>
    requires laid_out { IsLaidOut dag.now }
    requires places { ArePlacesIn dag.now places.now }
    requires sources { (source : ℕ) → breaks_source dag.now source ≡ false }
    ensures cluster { result ≡ find (breaks_corners dag.now)
        (range_with_len 0 (length dag.now.heads.clusters)) }
{
    'clusters: for c in 0..dag.heads.clusters.as_slice().len() {
        if !is_cluster_near(dag, places, c) {
            return Some(c as u32);
        }
    }
    None
}
