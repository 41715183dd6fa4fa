ghost use Rattle.std.specs.Prelude.{◌≡◌};
ghost use Rattle.journal.specs.Layout.{ascends, all_below};

/// Whether the numbers ascend strictly.
pub fn ascends(numbers: &[u32]) -> bool
    ensures { result ≡ ascends numbers.now }
{
    let mut low = 0u64;
    for number in numbers {
        if u64::from(*number) < low {
            return false;
        }
        low = u64::from(*number) + 1;
    }
    true
}

/// Whether each of the numbers is below the limit.
pub fn all_below(limit: u32, numbers: &[u32]) -> bool
    ensures { result ≡ all_below limit numbers.now }
{
    numbers.iter().all(|number| *number < limit)
}
