ghost use Rattle.der_core.specs.Reading.{Gives, Moves};
ghost use Rattle.cms_types.specs.Fields.{sid_value};
ghost use Rattle.cms_types.specs.SignerReading.{issuer_and_serial_in, sid_at};

use der_core::tags::SEQUENCE;
use der_core::{Cursor, Fault, Int};

/// The identifier octet of a key identifier, `[0] IMPLICIT OCTET STRING` (RFC 5652 5.3).
const KEY_IDENTIFIER: u8 = 0x80;

/// How a signer names its certificate (RFC 5652 5.3).
///
/// Contracts see a `SidValue` by `sid_value` (`specs/SignerValue.antt`, `specs/Fields.antt`).
#[derive(Debug, Drop)]
pub enum SignerId<'a> {
    /// The issuer's name, a whole element, and the certificate's serial number.
    IssuerAndSerial(&'a [u8], Int<'a>),
    /// The contents of the certificate's subjectKeyIdentifier.
    KeyId(&'a [u8]),
}

// IssuerAndSerialNumber ::= SEQUENCE { issuer Name, serialNumber CertificateSerialNumber }
#[tactic(auto, unfolding(crate::specs::SignerReading::issuer_and_serial_in))]
fn issuer_and_serial<'a>(mut parts: Cursor<'a>) -> Result<(&'a [u8], Int<'a>), Fault>
    ensures { Gives (λ x. (x.0.now, x.1)) result (issuer_and_serial_in parts.entry) }
{
    let issuer = parts.element(SEQUENCE)?;
    let serial = parts.integer()?;
    parts.end()?;
    Ok((issuer, serial))
}

impl<'a> SignerId<'a> {
    // SignerIdentifier ::= CHOICE { issuerAndSerialNumber IssuerAndSerialNumber,
    //   subjectKeyIdentifier [0] SubjectKeyIdentifier }
    #[tactic(auto, unfolding(crate::specs::SignerReading::sid_at))]
    pub(crate) fn read(parts: &mut Cursor<'a>) -> Result<SignerId<'a>, Fault>
        ensures { Moves sid_value result parts.old parts.new (sid_at parts.old) }
    {
        let mut ahead = parts.again();
        let id = if ahead.has(SEQUENCE) {
            let (issuer, serial) = issuer_and_serial(ahead.enter(SEQUENCE)?)?;
            SignerId::IssuerAndSerial(issuer, serial)
        } else {
            let (id, _) = ahead.contents(KEY_IDENTIFIER)?;
            SignerId::KeyId(id)
        };
        *parts = ahead;
        Ok(id)
    }
}
