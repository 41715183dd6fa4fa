ghost use Rattle.std.specs.Prelude.{◌≡◌, ◌<◌, IfSome, None, true, false, length, slice_index};
ghost use Rattle.journal.specs.Layout.{ascends};
ghost use Rattle.pool_rules.specs.Numbers.{is_among};

/// Whether the number is one of these, which ascend.
pub fn is_among_ascending(numbers: &[u32], number: u32) -> bool
    requires { ascends numbers.now ≡ true }
    ensures { result ≡ is_among numbers.now number }
{
    numbers.binary_search(&number).is_ok()
}

/// Returns the index of the number among these, which ascend; None if it is none of them.
pub fn place_among(numbers: &[u32], number: u32) -> Option<usize>
    requires { ascends numbers.now ≡ true }
    ensures place_range { IfSome result (λ place. place < length numbers.now) }
    ensures place { IfSome result (λ place. slice_index numbers.now place ≡ number) }
    ensures absent { result ≡ None → is_among numbers.now number ≡ false }
{
    numbers.binary_search(&number).ok()
}
