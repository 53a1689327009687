ghost use Rattle.std.specs.Prelude.{◌≡◌, ◌∷◌, [], Ok, IsOk, IsTrue, option_map};
ghost use Rattle.std.specs.Option.{option_copied};
ghost use Rattle.der_core.specs.Reading.{Gives, Moves, within, last_filled};
ghost use Rattle.cms_types.specs.AttributeReading.{attributes_in};
ghost use Rattle.cms_types.specs.AttributeValue.{tail_of};
ghost use Rattle.cms_types.specs.Fields.{sid_value, signer_value};
ghost use Rattle.cms_types.specs.SignerReading.{signer_in};
ghost use Rattle.cms_types.specs.SignerValue.{SignerValue};
ghost use Rattle.cms_types.specs.Tokens.{tokens_of};

use crate::attributes::Attributes;
use crate::signed_attributes::SignedAttributes;
use crate::signer_id::SignerId;
use crate::tokens::Tokens;
use der_core::tags::{INTEGER, SEQUENCE};
use der_core::{AlgorithmIdentifier, Cursor, Fault, Kind};
use der_lists::Item;
use std::marker::Model;

/// The versions of a SignerInfo (RFC 5652 5.3).
const VERSIONS: [u8; 2] = [1, 3];

/// The identifier octet of unsigned attributes, `[1] IMPLICIT` (RFC 5652 5.3).
const UNSIGNED_ATTRIBUTES: u8 = 0xa1;

// The parts of a signer.
#[derive(Debug, Drop)]
struct SignerFields<'a> {
    version: u8,
    sid: SignerId<'a>,
    digest_algorithm: AlgorithmIdentifier<'a>,
    signed_attributes: Option<SignedAttributes<'a>>,
    signature_algorithm: AlgorithmIdentifier<'a>,
    signature: &'a [u8],
    unsigned_attributes: Option<Attributes<'a>>,
}

/// A signer (SignerInfo, RFC 5652 5.3), as a view.
///
/// Contracts see a `SignerValue` (`specs/SignerValue.antt`).
#[derive(Debug, Drop)]
pub struct Signer<'a> {
    fields: SignerFields<'a>,
}

impl<'a> Model for Signer<'a> {
    ghost use Rattle.cms_types.specs.SignerValue.{SignerValue};
    ghost use Rattle.cms_types.specs.Fields.{signer_value};

    ghost Value = { SignerValue };

    ghost view = { λ s. signer_value s.fields };
}

// The unsigned attributes at the cursor, if there are any; if there are none, the body must end. AGAIN: they were read
// before.
fn unsigned_attributes<'a, const AGAIN: bool>(
    parts: &mut Cursor<'a>,
) -> Result<Option<Attributes<'a>>, Fault>
    requires { IsTrue AGAIN → IsOk (last_filled 0xa1 attributes_in parts.old) }
    ensures { Moves (option_map (λ a. a)) result parts.old parts.new (last_filled 0xa1 attributes_in parts.old) }
{
    if !parts.has(UNSIGNED_ATTRIBUTES) {
        parts.none()?;
        return Ok(None);
    }
    let mut ahead = parts.again();
    let inside = ahead.enter(UNSIGNED_ATTRIBUTES)?;
    if inside.is_empty() {
        return Err(Fault::new(Kind::Empty, parts.position()));
    }
    let list = Attributes::read::<AGAIN>(inside)?;
    *parts = ahead;
    Ok(Some(list))
}

// SignerInfo ::= SEQUENCE { version CMSVersion, sid SignerIdentifier, digestAlgorithm DigestAlgorithmIdentifier,
//   signedAttrs [0] IMPLICIT SignedAttributes OPTIONAL, signatureAlgorithm SignatureAlgorithmIdentifier,
//   signature SignatureValue, unsignedAttrs [1] IMPLICIT UnsignedAttributes OPTIONAL }
//
// AGAIN: it was read before. The order of its signed attributes, and what is in each attribute, were tested then and
// are not tested again.
#[tactic(auto, unfolding(crate::specs::SignerReading::signer_in))]
fn fields_of<'a, const AGAIN: bool>(mut parts: Cursor<'a>) -> Result<SignerFields<'a>, Fault>
    requires { IsTrue AGAIN → IsOk (signer_in parts) }
    ensures { Gives signer_value result (signer_in parts.entry) }
{
    let version = parts.version(&VERSIONS)?;
    let sid = SignerId::read(&mut parts)?;
    let digest_algorithm = parts.algorithm()?;
    let signed_attributes = SignedAttributes::read::<AGAIN>(&mut parts)?;
    let signature_algorithm = parts.algorithm()?;
    let signature = parts.octet_string()?;
    let unsigned_attributes = unsigned_attributes::<AGAIN>(&mut parts)?;
    parts.end()?;
    Ok(SignerFields {
        version,
        sid,
        digest_algorithm,
        signed_attributes,
        signature_algorithm,
        signature,
        unsigned_attributes,
    })
}

// The digest algorithm of the signer whose contents these are. Its version and identifier are passed over by their
// headings.
pub(crate) fn digest_algorithm_of<'a>(
    mut parts: Cursor<'a>,
) -> Result<AlgorithmIdentifier<'a>, Fault>
    ensures { (s : SignerValue) → signer_in parts.entry ≡ Ok s → result ≡ Ok s.digest_algorithm }
{
    let _version = parts.expect(INTEGER)?;
    let _sid = parts.next()?;
    let algorithm = parts.algorithm()?;
    Ok(algorithm)
}

impl<'a> Item<'a> for Signer<'a> {
    ghost use Rattle.der_core.specs.Reading.{within};
    ghost use Rattle.der_lists.specs.Shorter.{within_shorter};
    ghost use Rattle.cms_types.specs.SignerReading.{signer_in};

    ghost reading = { within 0x30 signer_in };

    ghost shorter = { within_shorter 0x30 signer_in };

    fn take(list: &mut Cursor<'a>) -> Result<Signer<'a>, Fault> {
        let fields = fields_of::<false>(list.enter(SEQUENCE)?)?;
        Ok(Signer { fields })
    }
}

impl<'a> Signer<'a> {
    // The signer whose contents these are, which was read before.
    pub(crate) fn read_again(parts: Cursor<'a>) -> Result<Signer<'a>, Fault>
        requires { IsOk (signer_in parts) }
        ensures { Gives (λ s. s) result (signer_in parts.entry) }
    {
        let fields = fields_of::<true>(parts)?;
        Ok(Signer { fields })
    }

    /// The version of the syntax: 1 or 3.
    pub fn version(&self) -> u8
        ensures { result ∷ [] ≡ self.now.version }
    {
        self.fields.version
    }

    /// How it names its certificate.
    pub fn sid(&self) -> &SignerId<'a>
        ensures { sid_value result.now ≡ self.now.sid }
    {
        &self.fields.sid
    }

    /// The digest algorithm for the content and for the signed attributes.
    pub fn digest_algorithm(&self) -> &AlgorithmIdentifier<'a>
        ensures { result.now ≡ self.now.digest_algorithm }
    {
        &self.fields.digest_algorithm
    }

    /// The signed attributes, in the order in which they occur, which is that of DER.
    pub fn attributes(&self) -> Option<&Attributes<'a>>
        ensures { option_copied result ≡ self.now.signed_attributes }
    {
        match &self.fields.signed_attributes {
            Some(signed) => Some(signed.list()),
            None => None,
        }
    }

    /// The octets that are signed, except the first of them, which is 31: the DER encoding of the signed attributes as
    /// a SET OF (RFC 5652 5.4). `None` if there are no signed attributes.
    pub fn tail(&self) -> Option<&'a [u8]>
        ensures { option_map (λ t. t.now) result ≡ option_map tail_of self.now.signed_attributes }
    {
        match &self.fields.signed_attributes {
            Some(signed) => Some(signed.tail()),
            None => None,
        }
    }

    /// The algorithm of the signature.
    pub fn signature_algorithm(&self) -> &AlgorithmIdentifier<'a>
        ensures { result.now ≡ self.now.signature_algorithm }
    {
        &self.fields.signature_algorithm
    }

    /// The signature, the contents of its OCTET STRING.
    pub fn signature(&self) -> &'a [u8]
        ensures { result.now ≡ self.now.signature }
    {
        self.fields.signature
    }

    /// The unsigned attributes, in the order in which they occur.
    pub fn unsigned_attributes(&self) -> Option<&Attributes<'a>>
        ensures { option_copied result ≡ self.now.unsigned_attributes }
    {
        self.fields.unsigned_attributes.as_ref()
    }

    /// The time-stamp tokens: all values of all unsigned attributes of the type id-aa-timeStampToken, in the order in
    /// which they occur (RFC 3161 appendix A).
    pub fn tokens(&self) -> Tokens<'a>
        ensures { result ≡ tokens_of self.now.unsigned_attributes }
    {
        Tokens::of(self.unsigned_attributes())
    }
}
