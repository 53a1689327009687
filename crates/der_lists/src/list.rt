ghost use Rattle.std.specs.Prelude.{◌≡◌, ◌∷◌, [], Ok, IsErr, MatchOption, IfSome};
ghost use Rattle.der_lists.specs.Items.{all_in, IsList};

use crate::item::Item;
use der_core::Cursor;

/// The first item of a body and a cursor behind it, or `None` if the body is empty or has no item at its front.
///
/// In a list, which a scan has tested, `None` is the end of the list, and the cursor is at the other items.
pub fn next_item<'a, I: Item<'a>>(list: &Cursor<'a>) -> Option<(I, Cursor<'a>)>
    // Item and cursor are those of the reading. `None` exactly if it gives a fault, as it does at the end of a body.
    ensures front { MatchOption result (IsErr (I.reading list.now)) (λ x. I.reading list.now ≡ Ok x) }
    // Of a list: its first item and the others.
    ensures values { IsList I.reading list.now → MatchOption result (all_in I.reading list.now ≡ [])
        (λ x. all_in I.reading list.now ≡ x.0 ∷ all_in I.reading x.1) }
    // The others are a list.
    ensures list { IsList I.reading list.now → IfSome result (λ x. IsList I.reading x.1) }
{
    // Named for the proof.
    let _rest = list.rest();
    if list.is_empty() {
        return None;
    }
    let mut ahead = list.again();
    let Ok(first) = I::take(&mut ahead) else {
        return None;
    };
    Some((first, ahead))
}
