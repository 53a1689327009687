ghost use Rattle.std.specs.Prelude.{◌≡◌, ◌==◌, ◌∷◌, [], length, Ok, MatchOption};
ghost use Rattle.std.specs.List.{flat_map, AllByRecursion};
ghost use Rattle.der_core.specs.Reading.{Gives, many_in};
ghost use Rattle.der_core.specs.Values.{IsOpaque};
ghost use Rattle.der_lists.specs.Items.{opaque_item, opaque_front};
ghost use Rattle.der_lists.specs.Checked.{ordered_in, tagged_in};

use crate::iter::{ListIter, ListView};
use crate::list::next_item;
use crate::opaque::Opaque;
use crate::scans::{scan_items, scan_ordered, scan_tagged};
use der_core::{Cursor, Fault};
use std::marker::Model;

/// Elements of any kind, one after the other.
///
/// Contracts see the list of their octets.
#[derive(Debug, Drop)]
pub struct Opaques<'a> {
    list: Cursor<'a>,
    // How many there are.
    count: usize,
}

impl<'a> Model for Opaques<'a> {
    ghost use Rattle.std.specs.Prelude.{List, ℕ};
    ghost use Rattle.der_lists.specs.Items.{all_in, IsCounted, opaque_item};

    ghost Value = { List (List ℕ) };

    ghost view = { λ o. all_in opaque_item o.list };

    ghost invariant = { λ o. IsCounted opaque_item o.list o.count };
}

impl<'a> Opaques<'a> {
    /// The elements from the cursor to the end of its body.
    ///
    /// Faults: at each element those of `Cursor::next`.
    pub fn read(list: Cursor<'a>) -> Result<Opaques<'a>, Fault>
        // Returns the list or the fault that its reading gives.
        ensures { Gives (λ o. o) result (many_in opaque_item list.entry) }
    {
        let count = scan_items::<Opaque>(&list)?;
        Ok(Opaques { list, count })
    }

    /// As `read`, but the elements must also be in ascending order (X.690 11.6).
    ///
    /// Faults: those of `read`, and `Order` at an element that is less than the one before it.
    pub fn read_ordered(list: Cursor<'a>) -> Result<Opaques<'a>, Fault>
        // Returns the list or the fault that its reading gives.
        ensures { Gives (λ o. o) result (ordered_in opaque_front opaque_item list.entry) }
    {
        let count = scan_ordered::<Opaque>(&list)?;
        Ok(Opaques { list, count })
    }

    /// As `read`, but each element must also have one of the identifiers `tags`.
    ///
    /// Faults: those of `read`, and `Tag` at an element with another identifier.
    pub fn read_tagged(list: Cursor<'a>, tags: &[u8]) -> Result<Opaques<'a>, Fault>
        // Returns the list or the fault that its reading gives.
        ensures { Gives (λ o. o) result (tagged_in tags.now list.entry) }
    {
        let count = scan_tagged(&list, tags)?;
        Ok(Opaques { list, count })
    }

    /// The empty list.
    #[tactic(auto, unfolding(der_core::specs::Reading::many_in))]
    pub fn empty() -> Opaques<'a>
        ensures { result ≡ [] }
    {
        Opaques {
            list: Cursor::new(&[], 0),
            count: 0,
        }
    }

    /// The octets of the elements, one after the other.
    pub fn bytes(&self) -> &'a [u8]
        // Returns the elements one after the other.
        ensures joined { result.now ≡ flat_map (λ x. x) self.now }
        // Each of them is an element.
        ensures each { AllByRecursion IsOpaque self.now }
    {
        self.list.rest()
    }

    /// The first element and the others, or `None` if there is none.
    pub fn next(&self) -> Option<(Opaque<'a>, Opaques<'a>)>
        ensures { MatchOption result (self.now ≡ []) (λ x. self.now ≡ x.0 ∷ x.1) }
    {
        let (first, list) = next_item::<Opaque>(&self.list)?;
        Some((
            first,
            Opaques {
                list,
                count: self.count - 1,
            },
        ))
    }

    /// The same elements again.
    pub fn again(&self) -> Opaques<'a>
        ensures { result ≡ self.now }
    {
        Opaques {
            list: self.list.again(),
            count: self.count,
        }
    }

    /// Whether there is none.
    pub fn is_empty(&self) -> bool
        ensures { result ≡ (length self.now == 0) }
    {
        self.len() == 0
    }

    /// How many there are.
    pub fn len(&self) -> usize
        ensures { result ≡ length self.now }
    {
        self.count
    }

    /// The elements, one after another.
    pub fn iter(&self) -> ListIter<Opaques<'a>>
        ensures { result.left ≡ self.now }
    {
        ListIter { left: self.again() }
    }
}

impl<'a> ListView for Opaques<'a> {
    type Item = Opaque<'a>;

    ghost items = { λ o. o };

    fn first(&self) -> Option<(Opaque<'a>, Opaques<'a>)> {
        self.next()
    }
}
