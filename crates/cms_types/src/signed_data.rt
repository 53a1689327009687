ghost use Rattle.std.specs.Prelude.{◌≡◌, ◌≢◌, ◌↔◌, ◌∷◌, [], IfOk, IfErr, Ok, Err, option_map};
ghost use Rattle.std.specs.Option.{option_copied};
ghost use Rattle.devices.specs.Device.{Wrote};
ghost use Rattle.der_core.specs.Reading.{Gives};
ghost use Rattle.cms_types.specs.CmsFaults.{IsCmsFault};
ghost use Rattle.cms_types.specs.Fields.{encapsulated_value, signed_data_value};
ghost use Rattle.cms_types.specs.SignedDataReading.{explicit_octets_in, encapsulated_in, signed_data_in};
ghost use Rattle.cms_types.specs.SignedDataValue.{SignedDataValue, SignedContent, encoding, EncodesSignedData};
ghost use Rattle.cms_types.specs.SignedDataValue.{EncodesAnotherType};

use crate::content_info::{Content, content_of};
use crate::fault::CmsFault;
use crate::signers::Signers;
use der_core::tags::{SEQUENCE, SET};
use der_core::{Cursor, Fault, Oid};
use der_lists::{AlgorithmIdentifiers, Opaques};
use devices::{Sink, SinkFault, put_all};
use std::marker::Model;

/// The identifier octet of the content, `[0] EXPLICIT` (RFC 5652 5.2).
const CONTENT: u8 = 0xa0;

/// The identifier octets of certificates, `[0] IMPLICIT`, and of revocation information, `[1] IMPLICIT` (RFC 5652 5.1).
const CERTIFICATES: u8 = 0xa0;

const CRLS: u8 = 0xa1;

/// The identifier octets of the choices of a certificate (RFC 5652 10.2.2).
const CERTIFICATE_TAGS: [u8; 5] = [0x30, 0xa0, 0xa1, 0xa2, 0xa3];

/// The identifier octets of the choices of revocation information (RFC 5652 10.2.1).
const CRL_TAGS: [u8; 2] = [0x30, 0xa1];

/// The versions of a SignedData (RFC 5652 5.1).
const VERSIONS: [u8; 4] = [1, 3, 4, 5];

// The content that is signed, and its type.
#[derive(Debug, Drop)]
pub(crate) struct Encapsulated<'a> {
    pub(crate) content_type: Oid<'a>,
    pub(crate) content: Option<&'a [u8]>,
}

// The parts of a SignedData.
#[derive(Debug, Drop)]
pub(crate) struct SignedDataFields<'a> {
    pub(crate) version: u8,
    pub(crate) digest_algorithms: AlgorithmIdentifiers<'a>,
    pub(crate) encapsulated: Encapsulated<'a>,
    pub(crate) certificates: Option<Opaques<'a>>,
    pub(crate) crls: Option<Opaques<'a>>,
    pub(crate) signers: Signers<'a>,
}

/// A ContentInfo that holds a SignedData (RFC 5652 3, 5.1), as a view of its octets.
///
/// Contracts see a `SignedDataValue` (`specs/SignedDataValue.antt`).
#[derive(Debug, Drop)]
pub struct SignedData<'a> {
    whole: &'a [u8],
    fields: SignedDataFields<'a>,
}

impl<'a> Model for SignedData<'a> {
    ghost use Rattle.cms_types.specs.SignedDataValue.{SignedDataValue, EncodesSignedData};
    ghost use Rattle.cms_types.specs.Fields.{signed_data_value};

    ghost Value = { SignedDataValue };

    ghost view = { λ d. signed_data_value d.fields };

    ghost invariant = { λ d. EncodesSignedData d.whole.now (signed_data_value d.fields) };
}

// eContent [0] EXPLICIT OCTET STRING
#[tactic(auto, unfolding(crate::specs::SignedDataReading::explicit_octets_in))]
fn explicit_octets<'a>(mut inside: Cursor<'a>) -> Result<&'a [u8], Fault>
    ensures { Gives (λ b. b.now) result (explicit_octets_in inside.entry) }
{
    let octets = inside.octet_string()?;
    inside.end()?;
    Ok(octets)
}

// EncapsulatedContentInfo ::= SEQUENCE { eContentType ContentType, eContent [0] EXPLICIT OCTET STRING OPTIONAL }
#[tactic(auto, unfolding(crate::specs::SignedDataReading::encapsulated_in))]
fn encapsulated_of<'a>(mut parts: Cursor<'a>) -> Result<Encapsulated<'a>, Fault>
    ensures { Gives encapsulated_value result (encapsulated_in parts.entry) }
{
    let content_type = parts.oid()?;
    let content = if parts.has(CONTENT) {
        Some(explicit_octets(parts.enter(CONTENT)?)?)
    } else {
        parts.none()?;
        None
    };
    parts.end()?;
    Ok(Encapsulated {
        content_type,
        content,
    })
}

// SignedData ::= SEQUENCE { version CMSVersion, digestAlgorithms DigestAlgorithmIdentifiers,
//   encapContentInfo EncapsulatedContentInfo, certificates [0] IMPLICIT CertificateSet OPTIONAL,
//   crls [1] IMPLICIT RevocationInfoChoices OPTIONAL, signerInfos SignerInfos }
#[tactic(auto, unfolding(crate::specs::SignedDataReading::signed_data_in))]
pub(crate) fn fields_of<'a>(mut parts: Cursor<'a>) -> Result<SignedDataFields<'a>, Fault>
    ensures { Gives signed_data_value result (signed_data_in parts.entry) }
{
    let version = parts.version(&VERSIONS)?;
    let digest_algorithms = AlgorithmIdentifiers::read(parts.enter(SET)?)?;
    let encapsulated = encapsulated_of(parts.enter(SEQUENCE)?)?;
    let certificates = if parts.has(CERTIFICATES) {
        let list = parts.enter(CERTIFICATES)?;
        Some(Opaques::read_tagged(list, &CERTIFICATE_TAGS)?)
    } else {
        None
    };
    let crls = if parts.has(CRLS) {
        let list = parts.enter(CRLS)?;
        Some(Opaques::read_tagged(list, &CRL_TAGS)?)
    } else {
        None
    };
    let signers = Signers::read_list(parts.enter(SET)?)?;
    parts.end()?;
    Ok(SignedDataFields {
        version,
        digest_algorithms,
        encapsulated,
        certificates,
        crls,
        signers,
    })
}

impl<'a> SignedData<'a> {
    /// The SignedData that all of `bytes` encode, within a ContentInfo. It allocates nothing.
    ///
    /// Errors: `NotSignedData` if they encode a ContentInfo of another type; `Malformed`, with a fault that the octets
    /// have, if they don't encode a ContentInfo.
    pub fn read(bytes: &'a [u8]) -> Result<SignedData<'a>, CmsFault>
        // A value that is read is encoded by the octets.
        ensures found { IfOk result (λ v. EncodesSignedData bytes.now v) }
        // A value that the octets encode is read.
        ensures only { (v : SignedDataValue) → EncodesSignedData bytes.now v → result ≡ Ok v }
        // A fault that is reported is one that the octets have.
        ensures fault { IfErr result (IsCmsFault bytes.now) }
        // `NotSignedData` is returned exactly when the octets encode a ContentInfo of another type.
        ensures another { (result ≡ Err CmsFault.NotSignedData) ↔ EncodesAnotherType bytes.now }
        // It never reports a lack of memory.
        ensures no_memory { result ≢ Err CmsFault.OutOfMemory }
    {
        match content_of(bytes)? {
            Content::Signed(fields) => Ok(SignedData {
                whole: bytes,
                fields,
            }),
            Content::Other(_, _) => Err(CmsFault::NotSignedData),
        }
    }

    /// Writes the octets that encode the ContentInfo.
    ///
    /// Errors: `SinkFault` if the sink fails; then only a beginning of the octets was written.
    pub fn write<S: Sink>(&self, out: &mut S) -> Result<(), SinkFault>
        // The whole encoding, or after a fault a beginning of it; the count of failures rose exactly if there was a
        // fault.
        ensures wrote { Wrote result (S.tells out.old) (S.taken out.old) (S.taken out.new) (S.failures out.old)
            (S.failures out.new) (encoding (SignedContent self.now)) }
        // If it was known what the sink took, it still is.
        ensures telling { S.tells out.old → S.tells out.new }
    {
        put_all(out, self.whole)
    }

    /// The version of the syntax: 1, 3, 4 or 5.
    pub fn version(&self) -> u8
        ensures { result ∷ [] ≡ self.now.version }
    {
        self.fields.version
    }

    /// The digest algorithms, in the order in which they occur.
    pub fn digest_algorithms(&self) -> &AlgorithmIdentifiers<'a>
        ensures { result.now ≡ self.now.digest_algorithms }
    {
        &self.fields.digest_algorithms
    }

    /// The type of the content (`eContentType`).
    pub fn content_type(&self) -> &Oid<'a>
        ensures { result.now ≡ self.now.encapsulated.content_type }
    {
        &self.fields.encapsulated.content_type
    }

    /// The content, the octets of `eContent` without their identifier and length. `None` if the content is not in the
    /// file.
    pub fn content(&self) -> Option<&'a [u8]>
        ensures { option_map (λ b. b.now) result ≡ self.now.encapsulated.content }
    {
        self.fields.encapsulated.content
    }

    /// The certificates that it carries, as whole elements in the order in which they occur. Nothing shows that they
    /// are genuine.
    pub fn certificates(&self) -> Option<&Opaques<'a>>
        ensures { option_copied result ≡ self.now.certificates }
    {
        self.fields.certificates.as_ref()
    }

    /// The revocation information that it carries, as whole elements in the order in which they occur.
    pub fn crls(&self) -> Option<&Opaques<'a>>
        ensures { option_copied result ≡ self.now.crls }
    {
        self.fields.crls.as_ref()
    }

    /// The signers, in the order in which they occur.
    pub fn signers(&self) -> &Signers<'a>
        ensures { result.now ≡ self.now.signers }
    {
        &self.fields.signers
    }
}
