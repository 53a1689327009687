ghost use Rattle.std.specs.Prelude.{◌≡◌, ◌==◌, ◌∷◌, [], length, IsOk, IsTrue, MatchOption};
ghost use Rattle.der_core.specs.Reading.{Gives};
ghost use Rattle.std.specs.List.{AllByRecursion};
ghost use Rattle.cms_types.specs.AttributeValue.{attributes_parts, GoodAttribute};
ghost use Rattle.cms_types.specs.AttributeReading.{attributes_in, signed_attributes_in};
ghost use Rattle.cms_types.specs.OfType.{EntersFirst};

use crate::attribute::{Attribute, count_of, enter_first};
use crate::signed_attribute::SignedAttribute;
use der_core::{Cursor, Fault};
use der_lists::{ListIter, ListView, next_item, scan_items, scan_ordered};
use std::marker::Model;

/// Attributes (RFC 5652 5.3), as a view of the octets of a list of them.
///
/// Contracts see the list of their `AttributeValue`s in the order in which they occur.
#[derive(Debug, Drop)]
pub struct Attributes<'a> {
    list: Cursor<'a>,
    // How many there are.
    count: usize,
}

impl<'a> Model for Attributes<'a> {
    ghost use Rattle.std.specs.Prelude.{List};
    ghost use Rattle.der_core.specs.Reading.{within};
    ghost use Rattle.der_lists.specs.Items.{all_in, IsCounted};
    ghost use Rattle.cms_types.specs.AttributeValue.{AttributeValue};
    ghost use Rattle.cms_types.specs.AttributeReading.{attribute_in};

    ghost Value = { List AttributeValue };

    ghost view = { λ a. all_in (within 0x30 attribute_in) a.list };

    ghost invariant = { λ a. IsCounted (within 0x30 attribute_in) a.list a.count };
}

impl<'a> Attributes<'a> {
    // The attributes from the cursor to the end of its body, in any order. AGAIN: they were read before, and are only
    // counted.
    pub(crate) fn read<const AGAIN: bool>(list: Cursor<'a>) -> Result<Attributes<'a>, Fault>
        requires { IsTrue AGAIN → IsOk (attributes_in list) }
        ensures { Gives (λ a. a) result (attributes_in list.entry) }
    {
        let count = if AGAIN {
            count_of(&list)
        } else {
            scan_items::<Attribute>(&list)?
        };
        Ok(Attributes { list, count })
    }

    // As `read`, but the attributes, and the values of each, must also be in ascending order (X.690 11.6).
    pub(crate) fn read_signed<const AGAIN: bool>(list: Cursor<'a>) -> Result<Attributes<'a>, Fault>
        requires { IsTrue AGAIN → IsOk (signed_attributes_in list) }
        ensures { Gives (λ a. a) result (signed_attributes_in list.entry) }
    {
        // Named for the proof.
        let _rest = list.rest();
        let count = if AGAIN {
            count_of(&list)
        } else {
            scan_ordered::<SignedAttribute>(&list)?
        };
        Ok(Attributes { list, count })
    }

    /// The attributes from the cursor to the end of its body, in any order. Each of them is read.
    ///
    /// Faults: at each element those of `Cursor::expect` for a SEQUENCE, and in it those of its parts.
    pub fn read_list(list: Cursor<'a>) -> Result<Attributes<'a>, Fault>
        // Returns the attributes or the fault that the reading of attributes in any order gives.
        ensures { Gives (λ a. a) result (attributes_in list.entry) }
    {
        Attributes::read::<false>(list)
    }

    /// As `read_list`, but the attributes, and the values of each, must also be in ascending order (X.690 11.6).
    ///
    /// Faults: also `Order` at an element that is less than the one before it.
    pub fn read_set(list: Cursor<'a>) -> Result<Attributes<'a>, Fault>
        // Returns the attributes or the fault that the reading of attributes in ascending order gives.
        ensures { Gives (λ a. a) result (signed_attributes_in list.entry) }
    {
        Attributes::read_signed::<false>(list)
    }

    // The empty list.
    pub(crate) fn empty() -> Attributes<'a>
        ensures { result ≡ [] }
    {
        Attributes {
            list: Cursor::new(&[], 0),
            count: 0,
        }
    }

    /// The octets of the attributes, one after the other, as in the contents of a list of them (RFC 5652 5.3).
    pub fn bytes(&self) -> &'a [u8]
        // Returns the encodings of the attributes, one after the other.
        ensures joined { result.now ≡ attributes_parts self.now }
        // Each of the attributes is good.
        ensures each { AllByRecursion GoodAttribute self.now }
    {
        self.list.rest()
    }

    /// The first attribute and the others, or `None` if there is none.
    pub fn next(&self) -> Option<(Attribute<'a>, Attributes<'a>)>
        ensures { MatchOption result (self.now ≡ []) (λ x. self.now ≡ x.0 ∷ x.1) }
    {
        let (first, list) = next_item::<Attribute>(&self.list)?;
        Some((
            first,
            Attributes {
                list,
                count: self.count - 1,
            },
        ))
    }

    // The contents of the first attribute, which are not read again, and the other attributes.
    #[inline]
    pub(crate) fn enter(&self) -> Option<(Cursor<'a>, Attributes<'a>)>
        ensures { MatchOption result (self.now ≡ []) (λ x. EntersFirst self.now x.0 x.1) }
    {
        let (parts, list) = enter_first(&self.list)?;
        Some((
            parts,
            Attributes {
                list,
                count: self.count - 1,
            },
        ))
    }

    /// The same attributes again.
    pub fn again(&self) -> Attributes<'a>
        ensures { result ≡ self.now }
    {
        Attributes {
            list: self.list.again(),
            count: self.count,
        }
    }

    /// Whether there is none.
    pub fn is_empty(&self) -> bool
        ensures { result ≡ (length self.now == 0) }
    {
        self.len() == 0
    }

    /// How many there are.
    pub fn len(&self) -> usize
        ensures { result ≡ length self.now }
    {
        self.count
    }

    /// The attributes, one after another.
    pub fn iter(&self) -> ListIter<Attributes<'a>>
        ensures { result.left ≡ self.now }
    {
        ListIter { left: self.again() }
    }
}

impl<'a> ListView for Attributes<'a> {
    type Item = Attribute<'a>;

    ghost items = { λ a. a };

    fn first(&self) -> Option<(Attribute<'a>, Attributes<'a>)> {
        self.next()
    }
}
