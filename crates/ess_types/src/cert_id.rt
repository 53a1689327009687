ghost use Rattle.std.specs.Prelude.{◌≡◌};
ghost use Rattle.std.specs.Option.{option_copied};
ghost use Rattle.der_core.specs.Reading.{Gives, Moves, last};
ghost use Rattle.ess_types.specs.HashAlgorithms.{is_default, IsHashAlgorithm};
ghost use Rattle.ess_types.specs.SigningCertificateReading.{issuer_serial_in, plain_id_in, cert_id_in};

use crate::issuer_serial::IssuerSerial;
use der_core::octets::is_same;
use der_core::tags::SEQUENCE;
use der_core::{AlgorithmIdentifier, Cursor, Fault};
use digests::Alg;
use std::marker::Model;

/// How a signing certificate names a certificate (RFC 2634 5.4, RFC 5035 4): its hash and, if present, the issuer and
/// the serial number, as a view.
///
/// Contracts see a `CertIdValue` (`specs/SigningCertificateValue.antt`).
#[derive(Debug, Drop)]
pub struct CertId<'a> {
    algorithm: Option<AlgorithmIdentifier<'a>>,
    hash: &'a [u8],
    issuer_serial: Option<IssuerSerial<'a>>,
}

impl<'a> Model for CertId<'a> {
    ghost use Rattle.ess_types.specs.SigningCertificateValue.{CertIdValue};

    ghost Value = { CertIdValue };

    ghost view = { λ i. record { algorithm = i.algorithm; hash = i.hash.now; issuer_serial = i.issuer_serial } };
}

/// The hash algorithm of an identifier, a part with the default SHA-256 (RFC 5035 4). This profile keeps three states
/// apart, so that each value has one encoding (DER would forbid the middle one, X.690 11.5).
#[derive(Debug, Drop)]
pub enum HashAlgorithm<'b, 'a> {
    /// No element: the default. It is always absent in version 1, whose hash is by SHA-1 (RFC 2634 5.4).
    Absent,
    /// The default spelled out: SHA-256 with absent parameters.
    SpelledDefault,
    /// Any other algorithm; SHA-256 with NULL parameters is one of them.
    Other(&'b AlgorithmIdentifier<'a>),
}

// Whether it is the default of the hash algorithm.
fn is_default(algorithm: &AlgorithmIdentifier) -> bool
    ensures { result ≡ is_default algorithm.now }
{
    match algorithm.parameters() {
        None => is_same(algorithm.oid().bytes(), Alg::Sha256.oid_contents()),
        Some(_) => false,
    }
}

// issuerSerial IssuerSerial OPTIONAL, the last part
fn issuer_serial_of<'a>(parts: &mut Cursor<'a>) -> Result<Option<IssuerSerial<'a>>, Fault>
    ensures { Moves (λ o. o) result parts.old parts.new (last 0x30 issuer_serial_in parts.old) }
{
    if !parts.has(SEQUENCE) {
        parts.none()?;
        return Ok(None);
    }
    let mut ahead = parts.again();
    let issuer_serial = IssuerSerial::fields_of(ahead.enter(SEQUENCE)?)?;
    *parts = ahead;
    Ok(Some(issuer_serial))
}

impl<'a> CertId<'a> {
    // ESSCertID ::= SEQUENCE { certHash Hash, issuerSerial IssuerSerial OPTIONAL }
    #[tactic(auto, unfolding(crate::specs::SigningCertificateReading::plain_id_in))]
    pub(crate) fn fields_of_v1(mut parts: Cursor<'a>) -> Result<CertId<'a>, Fault>
        ensures { Gives (λ i. i) result (plain_id_in parts.entry) }
    {
        let hash = parts.octet_string()?;
        let issuer_serial = issuer_serial_of(&mut parts)?;
        parts.end()?;
        Ok(CertId {
            algorithm: None,
            hash,
            issuer_serial,
        })
    }

    // ESSCertIDv2 ::= SEQUENCE { hashAlgorithm AlgorithmIdentifier DEFAULT {algorithm id-sha256}, certHash Hash,
    //   issuerSerial IssuerSerial OPTIONAL }
    #[tactic(auto, unfolding(crate::specs::SigningCertificateReading::cert_id_in))]
    pub(crate) fn fields_of_v2(mut parts: Cursor<'a>) -> Result<CertId<'a>, Fault>
        ensures { Gives (λ i. i) result (cert_id_in parts.entry) }
    {
        let algorithm = parts.optional_algorithm()?;
        let hash = parts.octet_string()?;
        let issuer_serial = issuer_serial_of(&mut parts)?;
        parts.end()?;
        Ok(CertId {
            algorithm,
            hash,
            issuer_serial,
        })
    }

    /// The algorithm of the hash, as it is encoded.
    pub fn hash_algorithm(&self) -> HashAlgorithm<'_, 'a>
        ensures { IsHashAlgorithm self.now.algorithm result }
    {
        match &self.algorithm {
            None => HashAlgorithm::Absent,
            Some(algorithm) if is_default(algorithm) => HashAlgorithm::SpelledDefault,
            Some(algorithm) => HashAlgorithm::Other(algorithm),
        }
    }

    /// The hash of the whole certificate.
    pub fn hash(&self) -> &'a [u8]
        ensures { result.now ≡ self.now.hash }
    {
        self.hash
    }

    /// The issuer and serial number of the certificate.
    pub fn issuer_serial(&self) -> Option<&IssuerSerial<'a>>
        ensures { option_copied result ≡ self.now.issuer_serial }
    {
        self.issuer_serial.as_ref()
    }
}
