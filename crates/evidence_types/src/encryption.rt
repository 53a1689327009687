ghost use Rattle.std.specs.Prelude.{◌≡◌, option_map};
ghost use Rattle.der_core.specs.Reading.{Gives};
ghost use Rattle.evidence_types.specs.EvidenceReading.{encryption_in};

use der_core::{Cursor, Fault, Oid};
use std::marker::Model;

/// How the data of an evidence record are encrypted (EncryptionInfo, RFC 4998 3.1), as a view.
///
/// Contracts see an `EncryptionValue` (`specs/EvidenceValue.antt`).
#[derive(Debug, Drop)]
pub struct Encryption<'a> {
    id: Oid<'a>,
    value: Option<&'a [u8]>,
}

impl<'a> Model for Encryption<'a> {
    ghost use Rattle.std.specs.Prelude.{option_map};
    ghost use Rattle.evidence_types.specs.EvidenceValue.{EncryptionValue};

    ghost Value = { EncryptionValue };

    ghost view = { λ e. record { id = e.id; value = option_map (λ x. x.now) e.value } };
}

impl<'a> Encryption<'a> {
    // EncryptionInfo ::= SEQUENCE { encryptionInfoType OBJECT IDENTIFIER,
    //   encryptionInfoValue ANY DEFINED BY encryptionInfoType }
    #[tactic(auto, unfolding(crate::specs::EvidenceReading::encryption_in))]
    pub(crate) fn fields_of(mut parts: Cursor<'a>) -> Result<Encryption<'a>, Fault>
        ensures { Gives (λ e. e) result (encryption_in parts.entry) }
    {
        let id = parts.oid()?;
        let value = parts.opaque()?;
        parts.end()?;
        Ok(Encryption { id, value })
    }

    /// Its type (`encryptionInfoType`).
    pub fn id(&self) -> &Oid<'a>
        ensures { result.now ≡ self.now.id }
    {
        &self.id
    }

    /// Its value (`encryptionInfoValue`), a whole element.
    pub fn value(&self) -> Option<&'a [u8]>
        ensures { option_map (λ x. x.now) result ≡ self.now.value }
    {
        self.value
    }
}
