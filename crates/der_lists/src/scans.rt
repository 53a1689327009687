ghost use Rattle.std.specs.Prelude.{◌&&◌, []};
ghost use Rattle.der_core.specs.Element.{is_tag};
ghost use Rattle.der_core.specs.Lists.{is_less};
ghost use Rattle.der_core.specs.Reading.{Gives, many_in};
ghost use Rattle.der_lists.specs.Items.{ScansList, opaque_item};
ghost use Rattle.der_lists.specs.Checked.{ordered_in, tagged_in, tag_at};

use crate::item::{Item, RankedItem};
use crate::opaque::Opaque;
use der_core::octets::{is_less, is_one_of, is_tag};
use der_core::{Cursor, Fault, Kind};

/// Reads each item once, to the end of the body, and answers how many there are.
///
/// Faults: the first that is found, which is one of an item.
pub fn scan_items<'a, I: Item<'a>>(list: &Cursor<'a>) -> Result<usize, Fault>
    // Returns how many items the reading of the list gives, which are those of the list; otherwise its fault.
    ensures { ScansList I.reading list.now result (many_in I.reading list.now) }
{
    // There are no more items than octets, so the count fits its type.
    let most = list.rest().len();
    let mut left = list.again();
    let mut count = 0;
    while !left.is_empty() {
        let _item: I = I::take(&mut left)?;
        prove!(count < most);
        count += 1;
    }
    Ok(count)
}

/// Reads each item once, to the end of the body, and answers how many there are. The items must be in ascending order
/// (X.690 11.6).
///
/// Faults: the first that is found: one of an item, or `Order` at an element that is less than the one before it, even
/// if the element itself has faults.
pub fn scan_ordered<'a, I: RankedItem<'a>>(list: &Cursor<'a>) -> Result<usize, Fault>
    // Returns how many items the reading of the list gives, which are those of the list; otherwise its fault.
    ensures { ScansList I.reading list.now result (ordered_in I.front I.reading list.now) }
{
    let most = list.rest().len();
    let mut last: &[u8] = &[];
    let mut left = list.again();
    let mut count = 0;
    while !left.is_empty() {
        let element = I::element(&left)?;
        if is_less(element, last) {
            return Err(Fault::new(Kind::Order, left.position()));
        }
        let _item = I::take(&mut left)?;
        last = element;
        prove!(count < most);
        count += 1;
    }
    Ok(count)
}

// The identifier at the cursor must be one of these.
#[tactic(auto, unfolding(crate::specs::Checked::tag_at))]
fn check_tag(list: &Cursor, tags: &[u8]) -> Result<(), Fault>
    ensures { Gives (λ u. []) result (tag_at tags.now list.now) }
{
    match list.rest() {
        [first, ..] if is_tag(*first) && !is_one_of(*first, tags) => Err(Fault::new(
            Kind::Tag,
            list.position(),
        )),
        _ => Ok(()),
    }
}

/// Reads each element once, to the end of the body, and answers how many there are. Each must have one of the
/// identifiers `tags` and may have any contents.
///
/// Faults: the first that is found: one of `Cursor::next`, or `Tag` at an element with another identifier.
pub fn scan_tagged<'a>(list: &Cursor<'a>, tags: &[u8]) -> Result<usize, Fault>
    // Returns how many items the reading of the list gives, which are those of the list; otherwise its fault.
    ensures { ScansList opaque_item list.now result (tagged_in tags.now list.now) }
{
    let most = list.rest().len();
    let mut left = list.again();
    let mut count = 0;
    while !left.is_empty() {
        check_tag(&left, tags)?;
        let _item = Opaque::take(&mut left)?;
        prove!(count < most);
        count += 1;
    }
    Ok(count)
}
