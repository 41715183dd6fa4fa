ghost use Rattle.std.specs.Prelude.{◌≡◌, ◌≤◌, ◌<◌, ◌*◌, ◌^◌, length};
ghost use Rattle.dag_core.specs.Ranges.{AreCountsInRange};
ghost use Rattle.page_codec.specs.Breaks.{first_directory_break, first_of, page_breaks};
ghost use Rattle.page_codec.specs.Spelling.{directory_length};

use crate::breaks::Break;
use crate::kinds::{GroupRules, HeadRules, TailRule, TriangleRules};
use crate::record_rules::first_break;
use crate::sizes::{CLUSTER_BYTES, GROUP_BYTES};
use dag_core::Counts;
use geom_core::limits::TRIANGLE_BYTES;

/// Returns the first break of a page of `count` triangles, in a file with this number of source triangles.
pub(crate) fn first_page_break(bytes: &[u8], sources: u32, count: u32) -> Option<Break>
    requires length { TRIANGLE_BYTES * count ≤ length bytes.now }
    requires page { length bytes.now < 2 ^ 32 }
    ensures first { result ≡ first_of (page_breaks sources count bytes.now) }
{
    if let Some(found) = first_break(&TriangleRules { sources }, bytes, 0, count) {
        return Some(found);
    }
    let end = TRIANGLE_BYTES * count;
    let tail = &bytes[end as usize..];
    first_break(&TailRule {}, tail, end, tail.len() as u32)
}

/// Returns the first break of a directory with these counts.
pub(crate) fn first_directory_break(bytes: &[u8], counts: &Counts) -> Option<Break>
    requires counts { AreCountsInRange counts.now }
    requires length { length bytes.now ≡ directory_length counts.now }
    ensures first { result ≡ first_directory_break counts.now bytes.now }
{
    let groups = GroupRules { counts: *counts };
    if let Some(found) = first_break(&groups, bytes, 0, counts.groups) {
        return Some(found);
    }
    let end = GROUP_BYTES * counts.groups;
    let heads = HeadRules { counts: *counts };
    first_break(&heads, &bytes[end as usize..], end, counts.clusters)
}
