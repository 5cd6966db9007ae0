ghost use Rattle.std.specs.Prelude.{◌≡◌, filter};
ghost use Rattle.std.specs.List.Sorted.{IsNonDecreasingBy};
ghost use Rattle.std.specs.Ordering.{is_eq, ordering_index};
ghost use Rattle.std.specs.declared.cmp.Ordering.{Ordering};

use std::cmp::Ordering;

/// The items that compare equal, which stand side by side where what `compare` answers rises along
/// the items.
pub fn equal_range<T, F: Fn(&T) -> Ordering>(items: &[T], compare: F) -> &[T]
    requires { F.IsAlwaysCallable compare }
    ensures { (at : T → Ordering)
        → ((item : _) (o : Ordering) → F.post compare item o → o ≡ at item.now)
        → IsNonDecreasingBy (λ x. ordering_index (at x)) items.now
        → result.now ≡ filter (λ x. is_eq (at x)) items.now }
{
    let end = items.partition_point(|item| compare(item).is_le());
    let start = items[..end].partition_point(|item| compare(item).is_lt());
    &items[start..end]
}
