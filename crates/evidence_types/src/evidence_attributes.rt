//! The attributes of an evidence record or of an archive time-stamp (RFC 4998 3.1, 4.1), which may be absent.
ghost use Rattle.std.specs.Prelude.{option_map};
ghost use Rattle.der_core.specs.Reading.{Moves, maybe_filled};
ghost use Rattle.cms_types.specs.AttributeReading.{attributes_in, signed_attributes_in};

use cms_types::Attributes;
use der_core::{Cursor, Fault, Kind};

// The attributes in the element whose identifier is `tag`, if it is present: at least one, in any order.
pub(crate) fn optional_list<'a>(
    parts: &mut Cursor<'a>,
    tag: u8,
) -> Result<Option<Attributes<'a>>, Fault>
    ensures { Moves (option_map (λ a. a)) result parts.old parts.new (maybe_filled tag attributes_in parts.old) }
{
    if !parts.has(tag) {
        return Ok(None);
    }
    let mut ahead = parts.again();
    let inside = ahead.enter(tag)?;
    if inside.is_empty() {
        return Err(Fault::new(Kind::Empty, parts.position()));
    }
    let list = Attributes::read_list(inside)?;
    *parts = ahead;
    Ok(Some(list))
}

// As `optional_list`, but the attributes, and the values of each, must also be in ascending order (X.690 11.6).
pub(crate) fn optional_set<'a>(
    parts: &mut Cursor<'a>,
    tag: u8,
) -> Result<Option<Attributes<'a>>, Fault>
    ensures { Moves (option_map (λ a. a)) result parts.old parts.new
        (maybe_filled tag signed_attributes_in parts.old) }
{
    if !parts.has(tag) {
        return Ok(None);
    }
    let mut ahead = parts.again();
    let inside = ahead.enter(tag)?;
    if inside.is_empty() {
        return Err(Fault::new(Kind::Empty, parts.position()));
    }
    let list = Attributes::read_set(inside)?;
    *parts = ahead;
    Ok(Some(list))
}
