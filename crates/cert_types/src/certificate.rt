ghost use Rattle.std.specs.Prelude.{◌≡◌, ◌≢◌, ◌∷◌, [], IfOk, IfErr, Ok, Err, option_map};
ghost use Rattle.std.specs.Option.{option_copied};
ghost use Rattle.der_core.specs.Reading.{Gives, Moves, last};
ghost use Rattle.der_core.specs.ReadFaults.{IsReadFault};
ghost use Rattle.der_core.specs.Grammar.{file};
ghost use Rattle.der_grammar.specs.Table.{certificate};
ghost use Rattle.der_time.specs.TimeValue.{moment_of};
ghost use Rattle.cert_types.specs.CertificateValue.{CertificateValue, EncodesCertificate};
ghost use Rattle.cert_types.specs.CertificateReading.{explicit_version_in, explicit_extensions_in, validity_in, tbs_in};
ghost use Rattle.cert_types.specs.CertificateReading.{certificate_in, certificate_at};
ghost use Rattle.cert_types.specs.CertificateFields.{validity_value, tbs_value, certificate_value};

use crate::extensions::Extensions;
use der_core::tags::{BIT_STRING, SEQUENCE};
use der_core::{AlgorithmIdentifier, Bits, Cursor, Fault, Int, ReadFault};
use der_time::{Moment, Time};
use std::marker::Model;

/// The identifier octets of the parts that have one of their own (RFC 5280 4.1): the version, the unique identifiers of
/// the issuer and of the subject, the extensions.
const VERSION_PART: u8 = 0xa0;

const ISSUER_ID: u8 = 0x81;

const SUBJECT_ID: u8 = 0x82;

const EXTENSIONS_PART: u8 = 0xa3;

/// The versions of certificates: v1, v2 and v3 (RFC 5280 4.1.2.1).
const VERSIONS: [u8; 3] = [0, 1, 2];

// The period in which a certificate is valid.
#[derive(Debug, Drop)]
struct Validity<'a> {
    from: Time<'a>,
    until: Time<'a>,
}

// The part of a certificate that is signed.
#[derive(Debug, Drop)]
struct TbsCertificate<'a> {
    version: Option<u8>,
    serial: Int<'a>,
    algorithm: AlgorithmIdentifier<'a>,
    issuer: &'a [u8],
    validity: Validity<'a>,
    subject: &'a [u8],
    key: &'a [u8],
    issuer_id: Option<Bits<'a>>,
    subject_id: Option<Bits<'a>>,
    extensions: Option<Extensions<'a>>,
}

// The parts of a certificate.
#[derive(Debug, Drop)]
struct CertificateFields<'a> {
    tbs: TbsCertificate<'a>,
    algorithm: AlgorithmIdentifier<'a>,
    signature: Bits<'a>,
}

/// A certificate (RFC 5280 4.1), as a view of its octets. No signature is checked here.
///
/// Contracts see a `CertificateValue` (`specs/CertificateValue.antt`).
#[derive(Debug, Drop)]
pub struct Certificate<'a> {
    whole: &'a [u8],
    fields: CertificateFields<'a>,
}

impl<'a> Model for Certificate<'a> {
    ghost use Rattle.cert_types.specs.CertificateValue.{CertificateValue, EncodesCertificate};
    ghost use Rattle.cert_types.specs.CertificateFields.{certificate_value};

    ghost Value = { CertificateValue };

    ghost view = { λ c. certificate_value c.fields };

    ghost invariant = { λ c. EncodesCertificate c.whole.now (certificate_value c.fields) };
}

// Version ::= INTEGER { v1(0), v2(1), v3(2) }
#[tactic(auto, unfolding(crate::specs::CertificateReading::explicit_version_in))]
fn version_of<'a>(mut inside: Cursor<'a>) -> Result<u8, Fault>
    ensures { Gives (λ v. v ∷ []) result (explicit_version_in inside.entry) }
{
    let version = inside.version(&VERSIONS)?;
    inside.end()?;
    Ok(version)
}

// Validity ::= SEQUENCE { notBefore Time, notAfter Time }
#[tactic(auto, unfolding(crate::specs::CertificateReading::validity_in))]
fn validity_of<'a>(mut parts: Cursor<'a>) -> Result<Validity<'a>, Fault>
    ensures { Gives validity_value result (validity_in parts.entry) }
{
    let from = Time::read(&mut parts)?;
    let until = Time::read(&mut parts)?;
    parts.end()?;
    Ok(Validity { from, until })
}

// Extensions ::= SEQUENCE SIZE (1..MAX) OF Extension
#[tactic(auto, unfolding(crate::specs::CertificateReading::explicit_extensions_in))]
fn extensions_of<'a>(mut inside: Cursor<'a>) -> Result<Extensions<'a>, Fault>
    ensures { Gives (λ e. e) result (explicit_extensions_in inside.entry) }
{
    let extensions = Extensions::read_distinct(inside.enter(SEQUENCE)?)?;
    inside.end()?;
    Ok(extensions)
}

// extensions [3] EXPLICIT Extensions OPTIONAL, the last part: if there are none, the body must end
fn optional_extensions<'a>(parts: &mut Cursor<'a>) -> Result<Option<Extensions<'a>>, Fault>
    ensures { Moves (option_map (λ e. e)) result parts.old parts.new (last 0xa3 explicit_extensions_in parts.old) }
{
    if !parts.has(EXTENSIONS_PART) {
        parts.none()?;
        return Ok(None);
    }
    let mut ahead = parts.again();
    let extensions = extensions_of(ahead.enter(EXTENSIONS_PART)?)?;
    *parts = ahead;
    Ok(Some(extensions))
}

// TBSCertificate ::= SEQUENCE { version [0] EXPLICIT Version DEFAULT v1, serialNumber CertificateSerialNumber,
//   signature AlgorithmIdentifier, issuer Name, validity Validity, subject Name,
//   subjectPublicKeyInfo SubjectPublicKeyInfo,
//   issuerUniqueID [1] IMPLICIT UniqueIdentifier OPTIONAL, subjectUniqueID [2] IMPLICIT UniqueIdentifier OPTIONAL,
//   extensions [3] EXPLICIT Extensions OPTIONAL }
#[tactic(auto, unfolding(crate::specs::CertificateReading::tbs_in))]
fn signed_of<'a>(mut parts: Cursor<'a>) -> Result<TbsCertificate<'a>, Fault>
    ensures { Gives tbs_value result (tbs_in parts.entry) }
{
    let version = if parts.has(VERSION_PART) {
        Some(version_of(parts.enter(VERSION_PART)?)?)
    } else {
        None
    };
    let serial = parts.integer()?;
    let algorithm = parts.algorithm()?;
    let issuer = parts.element(SEQUENCE)?;
    let validity = validity_of(parts.enter(SEQUENCE)?)?;
    let subject = parts.element(SEQUENCE)?;
    let key = parts.element(SEQUENCE)?;
    let issuer_id = parts.optional_bits(ISSUER_ID)?;
    let subject_id = parts.optional_bits(SUBJECT_ID)?;
    let extensions = optional_extensions(&mut parts)?;
    parts.end()?;
    Ok(TbsCertificate {
        version,
        serial,
        algorithm,
        issuer,
        validity,
        subject,
        key,
        issuer_id,
        subject_id,
        extensions,
    })
}

// Certificate ::= SEQUENCE { tbsCertificate TBSCertificate, signatureAlgorithm AlgorithmIdentifier,
//   signatureValue BIT STRING }
#[tactic(auto, unfolding(crate::specs::CertificateReading::certificate_in))]
fn fields_of<'a>(mut parts: Cursor<'a>) -> Result<CertificateFields<'a>, Fault>
    ensures { Gives certificate_value result (certificate_in parts.entry) }
{
    let tbs = signed_of(parts.enter(SEQUENCE)?)?;
    let algorithm = parts.algorithm()?;
    let signature = parts.bits(BIT_STRING)?;
    parts.end()?;
    Ok(CertificateFields {
        tbs,
        algorithm,
        signature,
    })
}

#[tactic(auto, unfolding(crate::specs::CertificateReading::certificate_at))]
fn whole_of<'a>(bytes: &'a [u8]) -> Result<CertificateFields<'a>, Fault>
    ensures { Gives certificate_value result (certificate_at bytes.now) }
{
    let mut input = Cursor::new(bytes, 0);
    let fields = fields_of(input.enter(SEQUENCE)?)?;
    input.end()?;
    Ok(fields)
}

impl<'a> Certificate<'a> {
    /// The certificate that all of `bytes` encode. It allocates nothing.
    ///
    /// Errors: `Malformed`, with a fault that the octets have, if they don't encode one.
    pub fn read(bytes: &'a [u8]) -> Result<Certificate<'a>, ReadFault>
        // A value that is read is encoded by the octets.
        ensures found { IfOk result (λ v. EncodesCertificate bytes.now v) }
        // A value that the octets encode is read.
        ensures only { (v : CertificateValue) → EncodesCertificate bytes.now v → result ≡ Ok v }
        // A fault that is reported is one that the octets have.
        ensures fault { IfErr result (IsReadFault (file certificate) bytes.now) }
        // It never reports a lack of memory.
        ensures no_memory { result ≢ Err ReadFault.OutOfMemory }
    {
        let fields = whole_of(bytes)?;
        Ok(Certificate {
            whole: bytes,
            fields,
        })
    }

    /// The whole certificate.
    pub fn whole(&self) -> &'a [u8]
        ensures { EncodesCertificate result.now self.now }
    {
        self.whole
    }

    /// The serial number (RFC 5280 4.1.2.2).
    pub fn serial(&self) -> &Int<'a>
        ensures { result.now ≡ self.now.tbs.serial }
    {
        &self.fields.tbs.serial
    }

    /// The issuer's name, the whole element (RFC 5280 4.1.2.4).
    pub fn issuer(&self) -> &'a [u8]
        ensures { result.now ≡ self.now.tbs.issuer }
    {
        self.fields.tbs.issuer
    }

    /// The subject's name, the whole element (RFC 5280 4.1.2.6).
    pub fn subject(&self) -> &'a [u8]
        ensures { result.now ≡ self.now.tbs.subject }
    {
        self.fields.tbs.subject
    }

    /// The subject's public key with its algorithm, the whole SubjectPublicKeyInfo (RFC 5280 4.1.2.7).
    pub fn key(&self) -> &'a [u8]
        ensures { result.now ≡ self.now.tbs.key }
    {
        self.fields.tbs.key
    }

    /// The first moment at which the certificate is valid (`notBefore`, RFC 5280 4.1.2.5).
    pub fn from(&self) -> Moment
        ensures { result ≡ moment_of self.now.tbs.validity.from }
    {
        self.fields.tbs.validity.from.moment()
    }

    /// The last moment at which the certificate is valid (`notAfter`, RFC 5280 4.1.2.5).
    pub fn until(&self) -> Moment
        ensures { result ≡ moment_of self.now.tbs.validity.until }
    {
        self.fields.tbs.validity.until.moment()
    }

    /// The extensions (RFC 5280 4.1.2.9). `None` if the field is absent.
    pub fn extensions(&self) -> Option<&Extensions<'a>>
        ensures { option_copied result ≡ self.now.tbs.extensions }
    {
        self.fields.tbs.extensions.as_ref()
    }
}
