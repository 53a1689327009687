//! ECDSA-Sig-Value.
ghost use Rattle.std.specs.Prelude.{◌≡◌, IfOk, IfErr, Ok};
ghost use Rattle.der_core.specs.Reading.{Gives};
ghost use Rattle.ecdsa_octets.specs.SignatureValue.{SignatureValue, EncodesSignature};
ghost use Rattle.ecdsa_octets.specs.SignatureReading.{signature_in, signature_at};
ghost use Rattle.ecdsa_octets.specs.Fields.{fields_value};

use der_core::tags::SEQUENCE;
use der_core::{Cursor, Fault, Int};

/// An ECDSA-Sig-Value (RFC 3279 2.2.3), as views of its INTEGERs.
#[derive(Debug, Drop)]
pub struct SignatureFields<'a> {
    /// r.
    pub r: Int<'a>,
    /// s.
    pub s: Int<'a>,
}

// ECDSA-Sig-Value ::= SEQUENCE { r INTEGER, s INTEGER }
#[tactic(auto, unfolding(crate::specs::SignatureReading::signature_in))]
fn fields_of<'a>(mut parts: Cursor<'a>) -> Result<SignatureFields<'a>, Fault>
    ensures { Gives fields_value result (signature_in parts.entry) }
{
    let r = parts.integer()?;
    let s = parts.integer()?;
    parts.end()?;
    Ok(SignatureFields { r, s })
}

#[tactic(auto, unfolding(crate::specs::SignatureReading::signature_at))]
fn whole_of<'a>(bytes: &'a [u8]) -> Result<SignatureFields<'a>, Fault>
    ensures { Gives fields_value result (signature_at bytes.now) }
{
    let mut input = Cursor::new(bytes, 0);
    let fields = fields_of(input.enter(SEQUENCE)?)?;
    input.end()?;
    Ok(fields)
}

impl<'a> SignatureFields<'a> {
    /// The value that all of `bytes` encode.
    ///
    /// Errors: a fault that the octets have, if they don't encode one.
    pub fn read(bytes: &'a [u8]) -> Result<SignatureFields<'a>, Fault>
        // A value that is read is encoded by the octets.
        ensures found { IfOk result (λ v. EncodesSignature bytes.now (fields_value v)) }
        // A value that the octets encode is read.
        ensures only { (v : SignatureValue) → EncodesSignature bytes.now v → IfOk result (λ w. fields_value w ≡ v) }
        // If no value is read, the octets encode none.
        ensures none { IfErr result (λ f. (v : SignatureValue) → EncodesSignature bytes.now v → ⊥) }
        // It gives what the reading of this type gives.
        ensures exact { Gives fields_value result (signature_at bytes.now) }
    {
        whole_of(bytes)
    }
}
