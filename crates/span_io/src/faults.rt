ghost use Rattle.std.specs.Prelude.{◌≡◌};
ghost use Rattle.span_io.specs.Faults.{Rose, raised};

/// Counts one failure; a count of 2^64 - 1 stays as it is.
///
/// Every source and sink counts its failures by this function, so that `Rose` says the same of each.
pub fn count_failure(faults: &mut u64)
    ensures raised { faults.new ≡ raised faults.old }
    ensures rose { Rose faults.old faults.new }
{
    *faults = faults.saturating_add(1);
}
