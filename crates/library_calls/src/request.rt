ghost use Rattle.std.specs.Prelude.{◌≡◌, ◌⊎◌, IfOk, IfErr, IfSome, true, option_map};
ghost use Rattle.der_core.specs.Contents.{is_integer, is_oid};
ghost use Rattle.digests.specs.declared.algorithm.Alg.{Alg};
ghost use Rattle.digests.specs.Algorithms.{name_of};
ghost use Rattle.digests.specs.Digests.{alg_of};
ghost use Rattle.library_calls.specs.Requests.{IsGiven, IsHashed, IsPolicy, IsNonce, RefusesAlg, RefusesDigest};
ghost use Rattle.library_calls.specs.Requests.{RefusesPolicy, RefusesNonce, IsRequestOf, RefusesValues, IsRequested};
ghost use Rattle.library_calls.specs.Requests.{IsRequestOfSignature, RefusesSignature, IsSignatureRequested};

use cli_failures::Failure;
use cli_failures::request::{policy_in, policy_of, request_of};
use cli_failures::signature::digest_of;
use der_core::Int;
use digests::{Alg, Digest, digest};
use library_answers::{Told, tell_result};
use std::alloc::Global;
use std::str;

/// The algorithm of this name.
pub fn alg_of(name: &[u8]) -> Result<Alg, Failure<'static>>
    // The algorithm has this name.
    ensures found { IfOk result (λ alg. name.now ≡ name_of alg) }
    // None is refused but a name that no algorithm has.
    ensures refused { IfErr result (RefusesAlg name.now) }
{
    let Ok(name) = str::from_utf8(name) else {
        return Err(Failure::Usage("alg"));
    };
    match Alg::named(name) {
        Some(alg) => Ok(alg),
        None => Err(Failure::Usage("alg")),
    }
}

/// The digest by the algorithm of this name that has these octets.
pub fn given(name: &[u8], octets: &[u8]) -> Result<Digest, Failure<'static>>
    // It is by that algorithm, and has these octets.
    ensures found { IfOk result (IsGiven name.now octets.now) }
    // The name is no algorithm's, or a digest by it has another length.
    ensures refused { IfErr result
        (λ f. RefusesAlg name.now f ⊎ RefusesDigest name.now (IsGiven name.now octets.now) f) }
{
    let alg = alg_of(name)?;
    match Digest::given(alg, octets) {
        Some(digest) => Ok(digest),
        None => Err(Failure::Usage("digest")),
    }
}

/// The digest by the algorithm of this name of these octets.
fn hashed(name: &[u8], octets: &[u8]) -> Result<Digest, Failure<'static>>
    ensures found { IfOk result (IsHashed name.now octets.now) }
    ensures refused { IfErr result (RefusesAlg name.now) }
{
    let alg = alg_of(name)?;
    Ok(digest(alg, octets))
}

/// The contents of the object identifier that a text spells.
fn policy_contents(alloc: Global, text: &[u8]) -> Result<Option<Vec<u8>>, Failure<'static>>
    ensures found { IfOk result (λ found. IsPolicy text.now (option_map (λ v. v.items) found)) }
    ensures refused { IfErr result (λ f. (f ≡ Failure.Memory) ⊎ RefusesPolicy text.now f) }
    ensures formed { IfOk result (λ found. IfSome found (λ v. is_oid v.items ≡ true)) }
{
    if text.is_empty() {
        return Ok(None);
    }
    let Ok(text) = str::from_utf8(text) else {
        return Err(Failure::Usage("policy"));
    };
    Ok(Some(policy_of(alloc, text)?))
}

/// The INTEGER of these contents.
fn nonce_in<'c>(contents: &'c [u8]) -> Result<Option<Int<'c>>, Failure<'static>>
    ensures found { IfOk result (IsNonce contents.now) }
    ensures formed { IfOk result (λ found. IfSome found (λ b. is_integer b ≡ true)) }
    ensures refused { IfErr result (RefusesNonce contents.now) }
{
    if contents.is_empty() {
        return Ok(None);
    }
    match Int::read(contents, 0) {
        Ok(nonce) => Ok(Some(nonce)),
        Err(_) => Err(Failure::Usage("nonce")),
    }
}

/// The octets of a request of a digest, if there is one, and these values.
fn octets_of(
    alloc: Global,
    digest: Result<Digest, Failure<'static>>,
    policy: &[u8],
    nonce: &[u8],
    certificate: bool,
) -> Result<Vec<u8>, Failure<'static>>
    ensures made { IfOk result (λ octets. (d : Digest) × (digest.entry ≡ Ok d)
        × IsRequestOf d policy.now nonce.now certificate octets.items) }
    ensures refused { IfErr result (λ f. (digest.entry ≡ Err f)
        ⊎ ((d : Digest) × (digest.entry ≡ Ok d) × RefusesValues d policy.now nonce.now certificate f)) }
{
    let digest = digest?;
    let contents = policy_contents(alloc, policy)?;
    let number = nonce_in(nonce)?;
    request_of(alloc, &digest, policy_in(&contents), number, certificate)
}

/// The octets of a request of these values and of the digest of a signature: that of the signer of this number in the
/// file. The values are judged in this order: algorithm, policy, nonce; then the file.
fn octets_of_signature(
    alloc: Global,
    algorithm: &[u8],
    file: &[u8],
    signer: u64,
    policy: &[u8],
    nonce: &[u8],
    certificate: bool,
) -> Result<Vec<u8>, Failure<'static>>
    ensures made { IfOk result (λ octets. IsRequestOfSignature algorithm.now file.now signer policy.now nonce.now
        certificate octets.items) }
    ensures refused { IfErr result (RefusesSignature algorithm.now file.now signer policy.now nonce.now certificate) }
{
    let alg = alg_of(algorithm)?;
    let contents = policy_contents(alloc, policy)?;
    let number = nonce_in(nonce)?;
    let digest = digest_of(file, signer, alg)?;
    request_of(alloc, &digest, policy_in(&contents), number, certificate)
}

/// A time-stamp request of a digest.
pub fn tell_request(
    alloc: Global,
    name: &[u8],
    digest: &[u8],
    policy: &[u8],
    nonce: &[u8],
    certificate: bool,
    room: &mut [u8],
) -> Told
    // The octets that encode the request of this digest, or the first value that is not as it must be.
    ensures { IsRequested (IsGiven name.now digest.now) name.now policy.now nonce.now certificate result.said
        result.status room.old result.size room.new }
{
    let made = octets_of(alloc, given(name, digest), policy, nonce, certificate);
    tell_result(alloc, made, room)
}

/// A time-stamp request of octets.
pub fn tell_request_of(
    alloc: Global,
    name: &[u8],
    octets: &[u8],
    policy: &[u8],
    nonce: &[u8],
    certificate: bool,
    room: &mut [u8],
) -> Told
    // The octets that encode the request of the digest of these, or the first value that is not as it must be.
    ensures { IsRequested (IsHashed name.now octets.now) name.now policy.now nonce.now certificate result.said
        result.status room.old result.size room.new }
{
    let made = octets_of(alloc, hashed(name, octets), policy, nonce, certificate);
    tell_result(alloc, made, room)
}

/// A time-stamp request of the signature of the signer of this number, from 1, in a file.
pub fn tell_request_of_signature(
    alloc: Global,
    name: &[u8],
    file: &[u8],
    signer: u64,
    policy: &[u8],
    nonce: &[u8],
    certificate: bool,
    room: &mut [u8],
) -> Told
    // The octets that encode the request of this signature's digest, or the first value that is not as it must be, or
    // why the file has no such signature.
    ensures { IsSignatureRequested name.now file.now signer policy.now nonce.now certificate result.said result.status
        room.old result.size room.new }
{
    let made = octets_of_signature(alloc, name, file, signer, policy, nonce, certificate);
    tell_result(alloc, made, room)
}
