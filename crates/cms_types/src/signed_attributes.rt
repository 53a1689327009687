ghost use Rattle.std.specs.Prelude.{◌≡◌, IsOk, IsTrue, option_map};
ghost use Rattle.der_core.specs.Reading.{Moves, maybe_filled};
ghost use Rattle.cms_types.specs.AttributeReading.{signed_attributes_in};
ghost use Rattle.cms_types.specs.AttributeValue.{tail_of};

use crate::attributes::Attributes;
use der_core::{Cursor, Fault, Kind};
use std::marker::Model;

/// The identifier octet of signed attributes, `[0] IMPLICIT` (RFC 5652 5.3).
const SIGNED_ATTRIBUTES: u8 = 0xa0;

// The signed attributes of a signer, and their octets from the length octets on.
#[derive(Debug, Drop)]
pub(crate) struct SignedAttributes<'a> {
    tail: &'a [u8],
    list: Attributes<'a>,
}

impl<'a> Model for SignedAttributes<'a> {
    ghost use Rattle.std.specs.Prelude.{◌≡◌, List};
    ghost use Rattle.cms_types.specs.AttributeValue.{AttributeValue, tail_of};

    ghost Value = { List AttributeValue };

    ghost view = { λ a. a.list };

    ghost invariant = { λ a. a.tail.now ≡ tail_of a.list };
}

impl<'a> SignedAttributes<'a> {
    // The signed attributes at the cursor, if there are any. AGAIN: they were read before.
    pub(crate) fn read<const AGAIN: bool>(
        parts: &mut Cursor<'a>,
    ) -> Result<Option<SignedAttributes<'a>>, Fault>
        requires { IsTrue AGAIN → IsOk (maybe_filled 0xa0 signed_attributes_in parts.old) }
        ensures { Moves (option_map (λ a. a)) result parts.old parts.new
            (maybe_filled 0xa0 signed_attributes_in parts.old) }
    {
        if !parts.has(SIGNED_ATTRIBUTES) {
            return Ok(None);
        }
        let mut ahead = parts.again();
        let (element, inside) = ahead.open(SIGNED_ATTRIBUTES)?;
        if inside.is_empty() {
            return Err(Fault::new(Kind::Empty, parts.position()));
        }
        let (_, tail) = element.whole.split_at(1);
        let list = Attributes::read_signed::<AGAIN>(inside)?;
        *parts = ahead;
        Ok(Some(SignedAttributes { tail, list }))
    }

    // The attributes.
    pub(crate) fn list(&self) -> &Attributes<'a>
        ensures { result.now ≡ self.now }
    {
        &self.list
    }

    // The octets that are signed, except the first of them (RFC 5652 5.4).
    pub(crate) fn tail(&self) -> &'a [u8]
        ensures { result.now ≡ tail_of self.now }
    {
        self.tail
    }
}
