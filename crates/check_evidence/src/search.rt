//! Hash values looked for in a list by bisection, if they stand in ascending order and have one length: then each is
//! at a place of its octets that is known.
ghost use Rattle.std.specs.Prelude.{◌≡◌, ◌<◌, [], length, slice_index_or, is_some, All, IfSome};
ghost use Rattle.check_evidence.specs.ListTests.{is_among};
ghost use Rattle.check_evidence.specs.Roots.{IsAscending};

use der_core::octets::{is_less, is_same};
use evidence_types::HashList;

// How many octets an element has before its contents, if these are fewer than 128: identifier and length.
const HEADING: usize = 2;

// The value at this place of values with this many octets.
fn value_at<'a>(values: &HashList<'a>, size: usize, place: usize) -> &'a [u8]
    requires short { size < 128 }
    requires lengths { All (λ v. length v ≡ size) values.now }
    requires within { place < length values.now }
    ensures { result.now ≡ slice_index_or values.now place [] }
{
    let octets = values.bytes();
    let start = place * (size + HEADING) + HEADING;
    &octets[start..start + size]
}

// The place of the value among these, which have this many octets and stand in ascending order: the first, if it
// stands there more than once.
pub(crate) fn find(values: &HashList, size: usize, wanted: &[u8]) -> Option<usize>
    requires short { size < 128 }
    requires lengths { All (λ v. length v ≡ size) values.now }
    requires ascending { IsAscending values.now }
    ensures place { IfSome result (λ place. (place < length values.now)
        × (slice_index_or values.now place [] ≡ wanted.now)) }
    ensures found { is_some result ≡ is_among values.now wanted.now }
{
    let count = values.len();
    let mut low = 0;
    let mut high = count;
    while low < high {
        let middle = low + (high - low) / 2;
        if is_less(value_at(values, size, middle), wanted) {
            low = middle + 1;
        } else {
            high = middle;
        }
    }
    if low == count {
        return None;
    }
    if is_same(value_at(values, size, low), wanted) {
        Some(low)
    } else {
        None
    }
}
