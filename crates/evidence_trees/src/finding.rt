ghost use Rattle.std.specs.Prelude.{◌≡◌, ◌≤◌, ◌<◌, [], length, take, slice_index_or, IfSome, IfNone, Contains};
ghost use Rattle.evidence_trees.specs.HashTrees.{IsRising};

use crate::values::HashValues;
use der_core::octets::{is_less, is_same};

/// The place of a value among the first of others, which stand in ascending order.
pub fn place_of(values: &HashValues, count: usize, wanted: &[u8]) -> Option<usize>
    requires within { count ≤ length values.now.values }
    requires rising { IsRising (take count values.now.values) }
    ensures within { IfSome result (λ k. k < count) }
    ensures found { IfSome result (λ k. slice_index_or (take count values.now.values) k [] ≡ wanted.now) }
    ensures none { IfNone result (Contains (take count values.now.values) wanted.now → ⊥) }
{
    let mut low = 0;
    let mut high = count;
    while low < high {
        let middle = low + (high - low) / 2;
        if is_less(values.get(middle), wanted) {
            low = middle + 1;
        } else {
            high = middle;
        }
    }
    if low == count {
        None
    } else if is_same(values.get(low), wanted) {
        Some(low)
    } else {
        None
    }
}
