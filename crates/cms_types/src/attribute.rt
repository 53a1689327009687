ghost use Rattle.std.specs.Prelude.{◌≡◌, ◌<◌, [], true, false, length, Ok, MatchOption, IfSome};
ghost use Rattle.der_core.specs.Lists.{is_same, only};
ghost use Rattle.der_core.specs.Reading.{Gives, within};
ghost use Rattle.der_lists.specs.Items.{all_in, IsList};
ghost use Rattle.cms_types.specs.AttributeReading.{attribute_in};
ghost use Rattle.cms_types.specs.AttributeValue.{AttributeValue};
ghost use Rattle.cms_types.specs.OfType.{EntersFirst, IsAtValues};

use crate::front::enter_front;
use der_core::octets::is_same;
use der_core::tags::{OBJECT_IDENTIFIER, SEQUENCE, SET};
use der_core::{Cursor, Fault, Oid};
use der_lists::{Item, Opaque, Opaques};
use std::marker::Model;

/// An attribute (RFC 5652 5.3): its type and its values, as a view.
///
/// Contracts see an `AttributeValue` (`specs/AttributeValue.antt`).
#[derive(Debug, Drop)]
pub struct Attribute<'a> {
    pub(crate) id: Oid<'a>,
    pub(crate) values: Opaques<'a>,
}

impl<'a> Model for Attribute<'a> {
    ghost use Rattle.cms_types.specs.AttributeValue.{AttributeValue};

    ghost Value = { AttributeValue };

    ghost view = { λ a. record { id = a.id; values = a.values } };
}

// The contents of the first attribute of a list, which are not read again, and a cursor at the other attributes.
#[inline]
pub(crate) fn enter_first<'a>(list: &Cursor<'a>) -> Option<(Cursor<'a>, Cursor<'a>)>
    ensures front { IsList (within 0x30 attribute_in) list.now
        → MatchOption result (all_in (within 0x30 attribute_in) list.now ≡ [])
        (λ x. EntersFirst (all_in (within 0x30 attribute_in) list.now) x.0 (all_in (within 0x30 attribute_in) x.1)) }
    ensures list { IsList (within 0x30 attribute_in) list.now
        → IfSome result (λ x. IsList (within 0x30 attribute_in) x.1) }
    ensures shorter { IfSome result (λ x. length x.1.rest < length list.now.rest) }
{
    enter_front(list)
}

// How many attributes a list has that was tested before. They are counted by their headings.
pub(crate) fn count_of(list: &Cursor) -> usize
    requires { IsList (within 0x30 attribute_in) list.now }
    ensures { result ≡ length (all_in (within 0x30 attribute_in) list.now) }
{
    // There are no more attributes than octets, so the count fits its type.
    let most = list.rest().len();
    let mut left = list.again();
    let mut count = 0;
    while let Some((_parts, others)) = enter_first(&left) {
        prove!(count < most);
        count += 1;
        left = others;
    }
    count
}

// A cursor behind the type of the attribute whose contents these are, at its values, if it has this type.
#[inline]
pub(crate) fn behind_type<'a>(parts: &Cursor<'a>, id: &[u8]) -> Option<Cursor<'a>>
    ensures { (a : AttributeValue) → attribute_in parts.now ≡ Ok a
        → MatchOption result (is_same a.id id.now ≡ false) (λ s. (is_same a.id id.now ≡ true) × IsAtValues a s) }
{
    let mut ahead = parts.again();
    let Ok((found, _)) = ahead.contents(OBJECT_IDENTIFIER) else {
        return None;
    };
    if is_same(found, id) {
        Some(ahead)
    } else {
        None
    }
}

// The only value of the attribute at whose values the cursor is, if it has exactly one.
pub(crate) fn only_value<'a>(mut values: Cursor<'a>) -> Option<Opaque<'a>>
    ensures { (a : AttributeValue) → IsAtValues a values.entry → result ≡ only a.values }
{
    let Ok(inside) = values.enter(SET) else {
        return None;
    };
    match Opaque::read(inside) {
        Ok(value) => Some(value),
        Err(_) => None,
    }
}

impl<'a> Attribute<'a> {
    // Attribute ::= SEQUENCE { attrType OBJECT IDENTIFIER, attrValues SET OF AttributeValue }
    #[tactic(auto, unfolding(crate::specs::AttributeReading::attribute_in))]
    fn fields_of(mut parts: Cursor<'a>) -> Result<Attribute<'a>, Fault>
        ensures { Gives (λ a. a) result (attribute_in parts.entry) }
    {
        let id = parts.oid()?;
        let values = Opaques::read(parts.enter(SET)?)?;
        parts.end()?;
        Ok(Attribute { id, values })
    }

    /// Its type (`attrType`).
    pub fn id(&self) -> &Oid<'a>
        ensures { result.now ≡ self.now.id }
    {
        &self.id
    }

    /// Its values (`attrValues`), as whole elements in the order in which they occur.
    pub fn values(&self) -> &Opaques<'a>
        ensures { result.now ≡ self.now.values }
    {
        &self.values
    }
}

impl<'a> Item<'a> for Attribute<'a> {
    ghost use Rattle.der_core.specs.Reading.{within};
    ghost use Rattle.der_lists.specs.Shorter.{within_shorter};
    ghost use Rattle.cms_types.specs.AttributeReading.{attribute_in};

    ghost reading = { within 0x30 attribute_in };

    ghost shorter = { within_shorter 0x30 attribute_in };

    fn take(list: &mut Cursor<'a>) -> Result<Attribute<'a>, Fault> {
        Attribute::fields_of(list.enter(SEQUENCE)?)
    }
}
