ghost use Rattle.std.specs.Prelude.{◌≡◌, ◌≢◌, ◌<◌, All, IfNone, IfSome, length};
ghost use Rattle.std.specs.List.{HoldsAt};
ghost use Rattle.std.specs.List.Sorted.{IsSorted};
ghost use Rattle.std.specs.declared.cmp.Ordering.TheVariants.{Equal};

/// The place of an item of a sorted list that compares as equal, if there is one.
pub(crate) fn position_of<T: Ord>(items: &[T], item: &T) -> Option<usize>
    requires sorted { IsSorted T.cmp items.now }
    ensures place { IfSome result (λ place. place < length items.now) }
    ensures found { IfSome result (λ place. HoldsAt (λ x. T.cmp x item.now ≡ Equal) items.now place) }
    ensures absent { IfNone result (All (λ x. T.cmp x item.now ≢ Equal) items.now) }
{
    items.binary_search(item).ok()
}
