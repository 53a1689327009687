ghost use Rattle.std.specs.Prelude.{◌≡◌, ◌≢◌, IfOk, IfErr, Ok, Err};
ghost use Rattle.devices.specs.Device.{Wrote};
ghost use Rattle.der_core.specs.Reading.{Gives};
ghost use Rattle.der_core.specs.ReadFaults.{IsReadFault};
ghost use Rattle.der_core.specs.Grammar.{file};
ghost use Rattle.der_grammar.specs.Table.{signing_certificate, signing_certificate_v2};
ghost use Rattle.ess_types.specs.SigningCertificateValue.{SigningCertificateValue, EncodesSigningCertificate};
ghost use Rattle.ess_types.specs.SigningCertificateValue.{EncodesSigningCertificateV2, encoding, first_id};
ghost use Rattle.ess_types.specs.SigningCertificateReading.{plain_ids_in, ids_in, signing_in, signing_certificate_at};
ghost use Rattle.ess_types.specs.SigningCertificateReading.{signing_certificate_v2_at};
ghost use Rattle.ess_types.specs.SigningFields.{signing_value};

use crate::cert_id::CertId;
use crate::cert_ids::CertIds;
use der_core::tags::SEQUENCE;
use der_core::{Cursor, Fault, ReadFault};
use devices::{Sink, SinkFault, put_all};
use std::marker::Model;

// The parts of a signing certificate; the policies are the contents of their SEQUENCE.
#[derive(Debug, Drop)]
struct SigningFields<'a> {
    ids: CertIds<'a>,
    policies: Option<&'a [u8]>,
}

/// The value of a signing-certificate attribute, of version 1 (RFC 2634 5.4) or 2 (RFC 5035 3), as a view of its
/// octets. It says under which certificate a signature is to be judged.
///
/// Contracts see a `SigningCertificateValue` (`specs/SigningCertificateValue.antt`).
#[derive(Debug, Drop)]
pub struct SigningCert<'a> {
    whole: &'a [u8],
    fields: SigningFields<'a>,
}

impl<'a> Model for SigningCert<'a> {
    ghost use Rattle.ess_types.specs.SigningCertificateValue.{SigningCertificateValue, EncodesSigningCertificateV2};
    ghost use Rattle.ess_types.specs.SigningFields.{signing_value};

    ghost Value = { SigningCertificateValue };

    ghost view = { λ r. signing_value r.fields };

    ghost invariant = { λ r. EncodesSigningCertificateV2 r.whole.now (signing_value r.fields) };
}

// SigningCertificate ::= SEQUENCE { certs SEQUENCE OF ESSCertID, policies SEQUENCE OF PolicyInformation OPTIONAL }
fn fields_of_v1<'a>(mut parts: Cursor<'a>) -> Result<SigningFields<'a>, Fault>
    ensures { Gives signing_value result (signing_in plain_ids_in parts.entry) }
{
    let ids = CertIds::read_v1(parts.enter(SEQUENCE)?)?;
    let policies = parts.last_contents(SEQUENCE)?;
    parts.end()?;
    Ok(SigningFields { ids, policies })
}

// SigningCertificateV2 ::= SEQUENCE { certs SEQUENCE OF ESSCertIDv2, policies SEQUENCE OF PolicyInformation OPTIONAL }
fn fields_of_v2<'a>(mut parts: Cursor<'a>) -> Result<SigningFields<'a>, Fault>
    ensures { Gives signing_value result (signing_in ids_in parts.entry) }
{
    let ids = CertIds::read_v2(parts.enter(SEQUENCE)?)?;
    let policies = parts.last_contents(SEQUENCE)?;
    parts.end()?;
    Ok(SigningFields { ids, policies })
}

#[tactic(auto, unfolding(crate::specs::SigningCertificateReading::signing_certificate_at))]
fn whole_of_v1<'a>(bytes: &'a [u8]) -> Result<SigningFields<'a>, Fault>
    ensures { Gives signing_value result (signing_certificate_at bytes.now) }
{
    let mut input = Cursor::new(bytes, 0);
    let fields = fields_of_v1(input.enter(SEQUENCE)?)?;
    input.end()?;
    Ok(fields)
}

#[tactic(auto, unfolding(crate::specs::SigningCertificateReading::signing_certificate_v2_at))]
fn whole_of_v2<'a>(bytes: &'a [u8]) -> Result<SigningFields<'a>, Fault>
    ensures { Gives signing_value result (signing_certificate_v2_at bytes.now) }
{
    let mut input = Cursor::new(bytes, 0);
    let fields = fields_of_v2(input.enter(SEQUENCE)?)?;
    input.end()?;
    Ok(fields)
}

impl<'a> SigningCert<'a> {
    /// The signing certificate of version 1 that all of `bytes` encode. It allocates nothing.
    ///
    /// Errors: `Malformed`, with a fault that the octets have, if they don't encode one.
    pub fn read_v1(bytes: &'a [u8]) -> Result<SigningCert<'a>, ReadFault>
        // A value that is read is encoded by the octets.
        ensures found { IfOk result (λ v. EncodesSigningCertificate bytes.now v) }
        // A value that the octets encode is read.
        ensures only { (v : SigningCertificateValue) → EncodesSigningCertificate bytes.now v → result ≡ Ok v }
        // A fault that is reported is one that the octets have.
        ensures fault { IfErr result (IsReadFault (file signing_certificate) bytes.now) }
        // It never reports a lack of memory.
        ensures no_memory { result ≢ Err ReadFault.OutOfMemory }
    {
        let fields = whole_of_v1(bytes)?;
        Ok(SigningCert {
            whole: bytes,
            fields,
        })
    }

    /// The signing certificate of version 2 that all of `bytes` encode. It allocates nothing.
    ///
    /// Errors: `Malformed`, with a fault that the octets have, if they don't encode one.
    pub fn read_v2(bytes: &'a [u8]) -> Result<SigningCert<'a>, ReadFault>
        // A value that is read is encoded by the octets.
        ensures found { IfOk result (λ v. EncodesSigningCertificateV2 bytes.now v) }
        // A value that the octets encode is read.
        ensures only { (v : SigningCertificateValue) → EncodesSigningCertificateV2 bytes.now v → result ≡ Ok v }
        // A fault that is reported is one that the octets have.
        ensures fault { IfErr result (IsReadFault (file signing_certificate_v2) bytes.now) }
        // It never reports a lack of memory.
        ensures no_memory { result ≢ Err ReadFault.OutOfMemory }
    {
        let fields = whole_of_v2(bytes)?;
        Ok(SigningCert {
            whole: bytes,
            fields,
        })
    }

    /// The first identifier, which is that of the signer's certificate. `None` if there is no identifier, which the
    /// encoding allows and RFC 5035 3 doesn't.
    pub fn first(&self) -> Option<CertId<'a>>
        ensures { result ≡ first_id self.now.ids }
    {
        self.fields.ids.first()
    }

    /// Writes the octets that encode the signing certificate.
    ///
    /// Errors: `SinkFault` if the sink fails; then only a beginning of the octets was written.
    pub fn write<S: Sink>(&self, out: &mut S) -> Result<(), SinkFault>
        // The whole encoding, or after a fault a beginning of it; the count of failures rose exactly if there was a
        // fault.
        ensures wrote { Wrote result (S.tells out.old) (S.taken out.old) (S.taken out.new) (S.failures out.old)
            (S.failures out.new) (encoding self.now) }
        // If it was known what the sink took, it still is.
        ensures telling { S.tells out.old → S.tells out.new }
    {
        put_all(out, self.whole)
    }
}
