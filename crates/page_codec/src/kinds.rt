ghost use Rattle.std.specs.Prelude.{◌==◌, slice_index};
ghost use Rattle.geom_core.specs.declared.limits.TheConstants.{TRIANGLE_BYTES};
ghost use Rattle.page_codec.specs.declared.sizes.TheConstants.{CLUSTER_BYTES, DIGEST_BYTES, GROUP_BYTES};
ghost use Rattle.page_codec.specs.Breaks.{group_rules, head_rules, triangle_rules, unless};
ghost use Rattle.page_codec.specs.Numbers.{numbers_of};
ghost use Rattle.page_codec.specs.Reading.{digest_of};
ghost use Rattle.page_codec.specs.Records.{group_bytes, group_of, head_bytes, head_of, triangle_bytes, triangle_of};
ghost use Rattle.page_codec.specs.Spelling.{digest_bytes};

use crate::numbers::read_numbers;
use crate::record_rules::RecordRules;
use crate::records::{
    group_from, group_record, head_of, head_record, triangle_of, triangle_record,
};
use crate::rules::{group_rule, head_rule, triangle_rule};
use crate::sizes::{CLUSTER_BYTES, DIGEST_BYTES, GROUP_BYTES};
use crate::tables::Record;
use dag_core::{ClusterHead, Counts, Group};
use geom_core::limits::TRIANGLE_BYTES;
use geom_core::{Digest32, Memory, Tagged};

impl Record for Tagged {
    ghost size = { TRIANGLE_BYTES };

    ghost reads = { triangle_of };

    ghost spells = { triangle_bytes };

    fn size() -> usize {
        TRIANGLE_BYTES as usize
    }

    fn read(bytes: &[u8]) -> Tagged {
        triangle_of(bytes)
    }

    fn append(self, out: &mut Vec<u8>) -> Result<(), Memory> {
        out.extend_from_slice(&triangle_record(self))?;
        Ok(())
    }
}

impl Record for Group {
    ghost size = { GROUP_BYTES };

    ghost reads = { group_of };

    ghost spells = { group_bytes };

    fn size() -> usize {
        GROUP_BYTES as usize
    }

    fn read(bytes: &[u8]) -> Group {
        let mut numbers = [0; 11];
        read_numbers(bytes, &mut numbers);
        group_from(&numbers)
    }

    fn append(self, out: &mut Vec<u8>) -> Result<(), Memory> {
        out.extend_from_slice(&group_record(&self))?;
        Ok(())
    }
}

impl Record for ClusterHead {
    ghost size = { CLUSTER_BYTES };

    ghost reads = { head_of };

    ghost spells = { head_bytes };

    fn size() -> usize {
        CLUSTER_BYTES as usize
    }

    fn read(bytes: &[u8]) -> ClusterHead {
        head_of(bytes)
    }

    fn append(self, out: &mut Vec<u8>) -> Result<(), Memory> {
        out.extend_from_slice(&head_record(self))?;
        Ok(())
    }
}

impl Record for Digest32 {
    ghost size = { DIGEST_BYTES };

    ghost reads = { digest_of };

    ghost spells = { digest_bytes };

    fn size() -> usize {
        DIGEST_BYTES as usize
    }

    fn read(bytes: &[u8]) -> Digest32 {
        let mut digest = Digest32 { bytes: [0; 32] };
        digest.bytes.copy_from_slice(bytes);
        digest
    }

    fn append(self, out: &mut Vec<u8>) -> Result<(), Memory> {
        out.extend_from_slice(&self.bytes)?;
        Ok(())
    }
}

/// The rules of a page's triangles, in a file with this number of source triangles.
#[derive(Clone, Copy)]
pub(crate) struct TriangleRules {
    /// The number of source triangles.
    pub(crate) sources: u32,
}

impl RecordRules for TriangleRules {
    ghost size = { TRIANGLE_BYTES };

    ghost broken = { λ rules bytes. triangle_rules rules.sources (triangle_of bytes) };

    fn size() -> usize {
        TRIANGLE_BYTES as usize
    }

    fn first_rule(&self, bytes: &[u8]) -> Option<u8> {
        triangle_rule(self.sources, triangle_of(bytes))
    }
}

/// The rule of a page's tail: each of its bytes is 0.
#[derive(Clone, Copy)]
pub(crate) struct TailRule {}

impl RecordRules for TailRule {
    ghost size = { 1 };

    ghost broken = { λ rules byte. unless (slice_index byte 0 == 0) 4 };

    fn size() -> usize {
        1
    }

    fn first_rule(&self, bytes: &[u8]) -> Option<u8> {
        (bytes[0] != 0).then_some(4)
    }
}

/// The rules of a directory's groups, in a file with these counts.
#[derive(Clone, Copy)]
pub(crate) struct GroupRules {
    /// The counts that the header states.
    pub(crate) counts: Counts,
}

impl RecordRules for GroupRules {
    ghost size = { GROUP_BYTES };

    ghost broken = { λ rules bytes. group_rules rules.counts (numbers_of 11 bytes) };

    fn size() -> usize {
        GROUP_BYTES as usize
    }

    fn first_rule(&self, bytes: &[u8]) -> Option<u8> {
        let mut numbers = [0; 11];
        read_numbers(bytes, &mut numbers);
        group_rule(&self.counts, &numbers)
    }
}

/// The rules of a directory's clusters, in a file with these counts.
#[derive(Clone, Copy)]
pub(crate) struct HeadRules {
    /// The counts that the header states.
    pub(crate) counts: Counts,
}

impl RecordRules for HeadRules {
    ghost size = { CLUSTER_BYTES };

    ghost broken = { λ rules bytes. head_rules rules.counts (head_of bytes) };

    fn size() -> usize {
        CLUSTER_BYTES as usize
    }

    fn first_rule(&self, bytes: &[u8]) -> Option<u8> {
        head_rule(&self.counts, head_of(bytes))
    }
}
