ghost use Rattle.std.specs.Prelude.{◌≡◌, ◌≤◌, ◌<◌, ◌++◌, IfOk, List, length, map, All};
ghost use Rattle.geom_core.specs.declared.limits.TheConstants.{MAX_TRIANGLES, CLUSTERS_PER_GROUP, TRIANGLES_PER_CLUSTER};
ghost use Rattle.geom_core.specs.Limits.{AreGridTriangles};
ghost use Rattle.dag_build.specs.Built.{IsBuilt, IsLevel};
ghost use Rattle.dag_build.specs.Grouping.{full_sizes};
ghost use Rattle.dag_build.specs.Levels.{LevelGroup, clusters_of, next_clusters, tris_in};
ghost use Rattle.dag_build.specs.Outcomes.{IsOutcome};
ghost use Rattle.dag_build.specs.Internal.DoneLevels.{AreLevelsDone, IsProper};
ghost use Rattle.dag_build.specs.Internal.Groups.{unmade};

use crate::clusters::Cluster;
use crate::cutting::{cut_sources, push_made};
use crate::done_groups::DoneGroup;
use crate::level_clusters::Maker;
use crate::members::{into_level_clusters, shapes_of, take_members};
use crate::numbering::number_levels;
use crate::outcomes::outcome_of;
use dag_core::Dag;
use geom_core::{Memory, Tri};
use partition::cut_groups;
use std::alloc::Global;

/// A level that is done.
#[derive(Drop)]
struct DoneLevel {
    /// The groups, in order.
    groups: Vec<DoneGroup>,
    /// The clusters that they made, by group.
    made: Vec<Cluster>,
}

/// Returns the DAG of a mesh's levels of detail, with all groups on one page.
///
/// The rule determines the DAG: groups are numbered from the last level to level 0, within a level in the order in
/// which they grew, and clusters by group. How well a level looks is not promised, nor that it has half of the
/// triangles of the one below it.
pub fn build_dag(alloc: Global, tris: Vec<Tri>) -> Result<Dag, Memory>
    requires triangles { AreGridTriangles tris.items }
    ensures built { IfOk result (λ dag. IsBuilt tris.items dag) }
{
    let sources = tris.len() as u32;
    let leaves = cut_sources(alloc, tris)?;
    let levels = build_levels(alloc, leaves)?;
    number_levels(alloc, sources, levels)
}

/// Builds the levels from the one with these clusters on.
fn build_levels(alloc: Global, leaves: Vec<Cluster>) -> Result<Vec<Vec<DoneGroup>>, Memory>
    requires clusters { All IsProper leaves.items }
    requires triangle_limit { length (tris_in leaves.items) ≤ MAX_TRIANGLES }
    ensures levels { IfOk result (λ levels.
        AreLevelsDone leaves.items (map (λ level. level.items) levels.items)) }
{
    let mut levels = Vec::new(alloc);
    let mut clusters = leaves;
    'levels: while !clusters.is_empty() {
        let level = build_level(alloc, clusters)?;
        levels.push(level.groups)?;
        clusters = level.made;
    }
    Ok(levels)
}

/// Groups a level's clusters, and simplifies each group.
fn build_level(alloc: Global, clusters: Vec<Cluster>) -> Result<DoneLevel, Memory>
    requires clusters { All IsProper clusters.items }
    requires triangle_limit { length (tris_in clusters.items) ≤ MAX_TRIANGLES }
    ensures level { IfOk result (λ level. (groups : List LevelGroup)
        × IsLevel full_sizes clusters.items groups
        × (level.groups.items ≡ map unmade groups)
        × (level.made.items ≡ next_clusters groups)) }
{
    let count = clusters.len();
    let shapes = shapes_of(alloc, &clusters)?;
    let batches = cut_groups(alloc, &shapes)?;
    let mut slots = clusters;
    let mut groups = Vec::with_capacity(alloc, batches.len())?;
    let mut made = Vec::new(alloc);
    for (place, batch) in batches.iter().enumerate() {
        let members = take_members(alloc, &mut slots, batch.as_slice())?;
        let group = simplify_group(alloc, &mut made, members, count, place as u32)?;
        groups.push(group)?;
    }
    Ok(DoneLevel { groups, made })
}

/// Simplifies a group, and appends the clusters that it makes.
fn simplify_group(
    alloc: Global,
    made: &mut Vec<Cluster>,
    members: Vec<Cluster>,
    level_clusters: usize,
    place: u32,
) -> Result<DoneGroup, Memory>
    requires member_limit { length members.items ≤ CLUSTERS_PER_GROUP }
    requires triangles { 1 ≤ length (tris_in members.items) }
    ensures group { IfOk result (λ done. (group : LevelGroup)
        × IsOutcome TRIANGLES_PER_CLUSTER level_clusters group
        × (group.members ≡ members.items)
        × (done ≡ unmade group)
        × (made.new.items ≡ made.old.items ++ clusters_of place group)) }
{
    let outcome = outcome_of(alloc, &members, level_clusters)?;
    let members = into_level_clusters(alloc, members)?;
    if !outcome.terminal {
        let maker = Maker {
            group: place,
            error: outcome.error,
            cube: outcome.cube,
        };
        push_made(alloc, made, outcome.left.as_slice(), maker)?;
    }
    Ok(DoneGroup {
        members,
        error: outcome.error,
        terminal: outcome.terminal,
        cube: outcome.cube,
    })
}
