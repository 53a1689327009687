ghost use Rattle.std.specs.Prelude.{◌≡◌};
ghost use Rattle.der_core.specs.Reading.{Gives, within};
ghost use Rattle.cert_types.specs.ExtensionReading.{extension_in};

use der_core::tags::SEQUENCE;
use der_core::{Cursor, Fault, Flag, Oid};
use der_lists::Item;
use std::marker::Model;

/// An extension (RFC 5280 4.2): its kind, whether it is critical, and its value, as a view.
///
/// Contracts see an `ExtensionValue` (`specs/ExtensionValue.antt`).
#[derive(Debug, Drop)]
pub struct Extension<'a> {
    id: Oid<'a>,
    critical: Flag,
    value: &'a [u8],
}

impl<'a> Model for Extension<'a> {
    ghost use Rattle.cert_types.specs.ExtensionValue.{ExtensionValue};

    ghost Value = { ExtensionValue };

    ghost view = { λ e. record { id = e.id; critical = e.critical; value = e.value.now } };
}

impl<'a> Extension<'a> {
    // Extension ::= SEQUENCE { extnID OBJECT IDENTIFIER, critical BOOLEAN DEFAULT FALSE, extnValue OCTET STRING }
    #[tactic(auto, unfolding(crate::specs::ExtensionReading::extension_in))]
    pub(crate) fn fields_of(mut parts: Cursor<'a>) -> Result<Extension<'a>, Fault>
        ensures { Gives (λ e. e) result (extension_in parts.entry) }
    {
        let id = parts.oid()?;
        let critical = parts.flag()?;
        let value = parts.octet_string()?;
        parts.end()?;
        Ok(Extension {
            id,
            critical,
            value,
        })
    }

    /// Which kind of extension it is (`extnID`).
    pub fn id(&self) -> &Oid<'a>
        ensures { result.now ≡ self.now.id }
    {
        &self.id
    }

    /// Whether it is critical, as the file spells it.
    pub fn critical(&self) -> Flag
        ensures { result ≡ self.now.critical }
    {
        self.critical
    }

    /// The contents of the OCTET STRING that holds its value (`extnValue`).
    pub fn value(&self) -> &'a [u8]
        ensures { result.now ≡ self.now.value }
    {
        self.value
    }
}

impl<'a> Item<'a> for Extension<'a> {
    ghost use Rattle.der_core.specs.Reading.{within};
    ghost use Rattle.der_lists.specs.Shorter.{within_shorter};
    ghost use Rattle.cert_types.specs.ExtensionReading.{extension_in};

    ghost reading = { within 0x30 extension_in };

    ghost shorter = { within_shorter 0x30 extension_in };

    fn take(list: &mut Cursor<'a>) -> Result<Extension<'a>, Fault> {
        Extension::fields_of(list.enter(SEQUENCE)?)
    }
}
