ghost use Rattle.std.specs.Prelude.{◌≡◌, Option, Result, Ok, Err, MatchResult, IsOk, ◌↔◌, List, ℕ, true, false};
ghost use Rattle.digests.specs.declared.algorithm.Alg.{Alg};
ghost use Rattle.digests.specs.Sets.{is_in};
ghost use Rattle.digests.specs.Selection.{AreOfWanted, set_given};
ghost use Rattle.digests.specs.Named.{alg_named};
ghost use Rattle.check_fit.specs.Fitting.{Fits, FailsFirst, Wants, content_type_fits, stated_digest, digest_fits};
ghost use Rattle.check_fit.specs.Fitting.{signer_claim, signer_answer, unhashed_answer};

use crate::attribute_values::single_value;
use crate::element_octets::is_element_of;
use crate::policy::Policy;
use crate::rules::SignerRule;
use cms_types::{Attributes, Signer};
use der_core::AlgorithmIdentifier;
use der_core::octets::has_tag;
use der_core::tags::{OBJECT_IDENTIFIER, OCTET_STRING};
use digests::{Alg, WantedDigests, digest};

/// content-type, 1.2.840.113549.1.9.3 (RFC 5652 11.1).
const CONTENT_TYPE: [u8; 9] = [0x2a, 0x86, 0x48, 0x86, 0xf7, 0x0d, 0x01, 0x09, 0x03];

/// message-digest, 1.2.840.113549.1.9.4 (RFC 5652 11.2).
const MESSAGE_DIGEST: [u8; 9] = [0x2a, 0x86, 0x48, 0x86, 0xf7, 0x0d, 0x01, 0x09, 0x04];

// S2 and S3: the content-type attribute occurs once with one value, an OBJECT IDENTIFIER, which is the type.
#[tactic(auto, unfolding(crate::specs::Fitting::content_type_fits))]
fn content_type_fits(attributes: &Attributes, econtent_type: &[u8]) -> Result<(), SignerRule>
    ensures { result ≡ content_type_fits attributes.now econtent_type.now }
{
    let Some(value) = single_value(attributes, &CONTENT_TYPE) else {
        return Err(SignerRule::ContentTypeAttr);
    };
    if !has_tag(value.whole(), OBJECT_IDENTIFIER) {
        return Err(SignerRule::ContentTypeAttr);
    }
    if !is_element_of(OBJECT_IDENTIFIER, econtent_type, value.whole()) {
        return Err(SignerRule::ContentTypeDiffers);
    }
    Ok(())
}

// S4: the message-digest attribute occurs once with one value, an OCTET STRING.
#[tactic(auto, unfolding(crate::specs::Fitting::stated_digest))]
fn stated_digest<'a>(attributes: &Attributes<'a>) -> Result<&'a [u8], SignerRule>
    ensures { MatchResult result (λ y. stated_digest attributes.now ≡ Ok y.now)
        (λ e. stated_digest attributes.now ≡ Err e) }
{
    let Some(value) = single_value(attributes, &MESSAGE_DIGEST) else {
        return Err(SignerRule::DigestAttr);
    };
    if !has_tag(value.whole(), OCTET_STRING) {
        return Err(SignerRule::DigestAttr);
    }
    Ok(value.whole())
}

/// The algorithm that the signer's digest algorithm names, if it names one that is known here (RFC 5652 5.3).
pub fn digest_alg(signer: &Signer) -> Option<Alg>
    ensures { result ≡ alg_named signer.now.digest_algorithm }
{
    alg_of(signer.digest_algorithm())
}

// The algorithm that an AlgorithmIdentifier names, if it names one that is known here.
pub(crate) fn alg_of(algorithm: &AlgorithmIdentifier) -> Option<Alg>
    ensures { result ≡ alg_named algorithm.now }
{
    Alg::of(algorithm.oid(), algorithm.parameters())
}

// What the signer's attributes claim about the content, or the first of S1 to S5 that fails.
#[tactic(auto, unfolding(crate::specs::Fitting::signer_claim))]
fn signer_claim<'a>(
    policy: Policy,
    econtent_type: &[u8],
    signer: &Signer<'a>,
) -> Result<(&'a [u8], Alg), SignerRule>
    ensures { MatchResult result (λ c. signer_claim policy econtent_type.now signer.now ≡ Ok (c.0.now, c.1))
        (λ e. signer_claim policy econtent_type.now signer.now ≡ Err e) }
{
    let Some(attributes) = signer.attributes() else {
        return Err(SignerRule::NoSignedAttrs);
    };
    content_type_fits(attributes, econtent_type)?;
    let stated = stated_digest(attributes)?;
    let Some(alg) = policy.allowed(digest_alg(signer)) else {
        return Err(SignerRule::DigestAlgorithm);
    };
    Ok((stated, alg))
}

// S6: the message-digest attribute states this digest.
fn digest_fits(digest: &[u8], stated: &[u8]) -> Result<(), SignerRule>
    ensures { result ≡ digest_fits digest.now stated.now }
{
    if is_element_of(OCTET_STRING, digest, stated) {
        Ok(())
    } else {
        Err(SignerRule::DigestDiffers)
    }
}

/// Whether a content of this type, given as the contents of an OBJECT IDENTIFIER, and the signer's signed attributes
/// belong together (RFC 5652 5.4, 11.1, 11.2).
///
/// Errors: the first of S1 to S6 that fails, in this order. `S1` if there are no signed attributes. `S2` if not exactly
/// one of them is a content-type with exactly one value, an OBJECT IDENTIFIER; `S3` if that is another type. `S4` if
/// not exactly one is a message-digest with exactly one value, an OCTET STRING. `S5` if the digest algorithm is not one
/// that is known here, or has parameters other than NULL, or is SHA-1 and the policy doesn't allow it. `S6` if the
/// digest of the content by this algorithm is another one.
pub fn signer_fits(
    policy: Policy,
    content: &[u8],
    econtent_type: &[u8],
    signer: &Signer,
) -> Result<(), SignerRule>
    // Succeeds exactly if both attributes fit the content, and the algorithm is known and allowed (RFC 5652 5.4, 11).
    ensures fits { IsOk result ↔ Fits policy content.now econtent_type.now signer.now }
    // Returns the result of the definition: success, or the first of S1 to S6 that fails.
    ensures rule { result ≡ signer_answer policy content.now econtent_type.now signer.now }
{
    let (stated, alg) = signer_claim(policy, econtent_type, signer)?;
    digest_fits(digest(alg, content).bytes(), stated)
}

/// Whether a content of this type, with these digests, and the signer's signed attributes belong together. If the
/// digest by the signer's algorithm is among the digests, the result is that of `signer_fits`.
///
/// Errors: those of `signer_fits`; `S5` too if the digest by the signer's algorithm is not among the digests.
pub fn fits_by_digests(
    policy: Policy,
    digests: &WantedDigests,
    econtent_type: &[u8],
    signer: &Signer,
) -> Result<(), SignerRule>
    // If the digest by the signer's algorithm is among them, they belong together exactly if they do by `signer_fits`.
    ensures judged { (content : List ℕ) → AreOfWanted digests.now content
        → ((alg : Alg) → Wants policy signer.now alg → is_in alg (set_given digests.now) ≡ true)
        → MatchResult result (λ u. Fits policy content econtent_type.now signer.now)
        (FailsFirst policy content econtent_type.now signer.now) }
    // If it is not, the first of S1 to S4 that fails, or S5.
    ensures lacking { (alg : Alg) → Wants policy signer.now alg → is_in alg (set_given digests.now) ≡ false
        → result ≡ unhashed_answer policy econtent_type.now signer.now }
{
    let (stated, alg) = signer_claim(policy, econtent_type, signer)?;
    let Some(digest) = digests.of(alg) else {
        return Err(SignerRule::DigestAlgorithm);
    };
    digest_fits(digest.bytes(), stated)
}
