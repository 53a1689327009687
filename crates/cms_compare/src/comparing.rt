ghost use Rattle.std.specs.Prelude.{◌≡◌, ◌↔◌, true, Result, Ok, Err, MatchResult, IfErr};
ghost use Rattle.cms_types.specs.declared.fault.CmsFault.{CmsFault};
ghost use Rattle.cms_types.specs.SignedDataValue.{SignedDataValue};
ghost use Rattle.check_fit.specs.FileFitting.{IsReading};
ghost use Rattle.cms_compare.specs.declared.compared.Compared.{Compared};
ghost use Rattle.cms_compare.specs.Comparing.{SignAlike, signed_by, Compares, RefusesToCompare};

use crate::compared::Compared;
use crate::fault::{CompareFault, CompareRule, Which};
use check_fit::{Policy, digest_alg, signer_fits};
use cms_types::{SignedData, Signer};
use der_core::octets::is_same;

// The content of a file and its signer of this number, or the first of E1 to E4 that fails.
fn signed_by<'a>(file: &'a [u8], number: u64) -> Result<(&'a [u8], Signer<'a>), CompareRule>
    ensures { (reading : Result SignedDataValue CmsFault) × IsReading file.now reading
        × MatchResult result (λ x. signed_by number reading ≡ Ok (x.0.now, x.1))
        (λ e. signed_by number reading ≡ Err e) }
{
    let signed = match SignedData::read(file) {
        Ok(signed) => signed,
        Err(fault) => return Err(CompareRule::Malformed(fault)),
    };
    let Some(signer) = signed.signers().get(number) else {
        return Err(CompareRule::NoSuchSigner);
    };
    let Some(content) = signed.content() else {
        return Err(CompareRule::NoContent);
    };
    match signer_fits(
        Policy::with_sha1(true),
        content,
        signed.content_type().bytes(),
        &signer,
    ) {
        Ok(()) => Ok((content, signer)),
        Err(rule) => Err(CompareRule::Rule(rule)),
    }
}

// Whether two signers name one digest algorithm and sign the same octets.
fn sign_alike(signer: &Signer, other: &Signer) -> bool
    ensures { (result ≡ true) ↔ SignAlike signer.now other.now }
{
    match (signer.tail(), other.tail()) {
        (Some(tail), Some(others)) => digest_alg(signer) == digest_alg(other)
            && is_same(tail, others),
        (None, None) => digest_alg(signer) == digest_alg(other),
        _ => false,
    }
}

/// Whether signer `i` of the file `a` and signer `j` of the file `b`, numbered from 1, sign the same: whether they name
/// one digest algorithm and sign the same octets (RFC 5652 5.4), and then whether the contents are the same. Neither
/// signature is verified, and SHA-1 is allowed. Nothing is allocated.
///
/// Errors: the first of E1 to E4 that fails, of the first file before the second: E1 if a file does not encode a
/// SignedData, E2 if it has no signer of this number, E3 if the content is not in it, E4 with the first of S1 to S6
/// that the signer fails.
pub fn compare(a: &[u8], i: u64, b: &[u8], j: u64) -> Result<Compared, CompareFault>
    // An answer is returned exactly if it is the one of the definition.
    ensures compared { (answer : Compared) → (result ≡ Ok answer) ↔ Compares a.now i b.now j answer }
    // And otherwise the refusal of the definition.
    ensures refused { IfErr result (RefusesToCompare a.now i b.now j) }
{
    let (content, signer) = match signed_by(a, i) {
        Ok(signed) => signed,
        Err(rule) => return Err(CompareFault {
            which: Which::First,
            rule,
        }),
    };
    let (others, other) = match signed_by(b, j) {
        Ok(signed) => signed,
        Err(rule) => return Err(CompareFault {
            which: Which::Second,
            rule,
        }),
    };
    if !sign_alike(&signer, &other) {
        return Ok(Compared::Different);
    }
    if is_same(content, others) {
        Ok(Compared::Same)
    } else {
        Ok(Compared::Collision)
    }
}
