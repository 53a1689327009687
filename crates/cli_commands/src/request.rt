ghost use Rattle.std.specs.Prelude.{◌≡◌, ◌≤◌, ◌^◌, ◌⊎◌, ℕ, List, IfOk, IfErr, codes, [], IfSome, OnOk};
ghost use Rattle.std.specs.Prelude.{true, length, option_map};
ghost use Rattle.der_core.specs.Contents.{is_integer, is_oid};
ghost use Rattle.digests.specs.Algorithms.{name_of};
ghost use Rattle.tsp_types.specs.Asked.{asked};
ghost use Rattle.tsp_types.specs.RequestValue.{EncodesRequest, request_parts};
ghost use Rattle.cli_failures.specs.Causes.{Names};
ghost use Rattle.cli_failures.specs.Files.{IsHeld};
ghost use Rattle.cli_failures.specs.Signatures.{IsSignatureDigest};
ghost use Rattle.cli_values.specs.Values.{IsDigest};
ghost use Rattle.cli_commands.specs.Refusals.{MakesNone, Refuses, RefusesGiven, RefusesOut, RefusesSignature};
ghost use Rattle.cli_commands.specs.Refusals.{RefusesValues};
ghost use Rattle.cli_commands.specs.Requests.{AreValues, IsRequestFor, IsOutApart, IsRequestOf, IsRequestWritten};

use cli_failures::{Failure, files, request, signature};
use cli_tasks::{RequestWords, Stamped};
use cli_values::{alg_of, digest_of, nonce_contents, nonce_in, policy_contents};
use digests::{Alg, Digest};
use std::alloc::Global;
use std::rt::Files;

/// Makes a request of these values, and then the file that it goes into, which is refused if it is the one of the
/// signature.
#[inline(never)]
pub fn make_file<'a, R: Files + AllocGlobal>(
    rt: &R,
    words: &RequestWords<'a>,
) -> Result<Vec<u8>, Failure<'a>>
    ensures failed { IfErr result (MakesNone R.File.remaining words.now) }
    ensures quiet { IfOk result (λ text. text.items ≡ []) }
    // A file that was opened took the octets of the request, if it is known what such a file holds.
    ensures made { OnOk result (IsRequestWritten R.File.remaining R.File.contents words.now) }
    ensures apart { OnOk result (IsOutApart words.now.stamped words.now.out.now) }
{
    apart(rt, words)?;
    let octets = octets_of(rt, words)?;
    files::write_whole(rt, words.out, octets.as_slice())?;
    Ok(Vec::new(rt.alloc()))
}

/// Refuses a file that should take the request and is the one of the signature.
fn apart<'a, R: Files + AllocGlobal>(rt: &R, words: &RequestWords<'a>) -> Result<(), Failure<'a>>
    ensures apart { OnOk result (IsOutApart words.now.stamped words.now.out.now) }
    ensures refused { IfErr result (λ f. (f ≡ Failure.Memory) ⊎ RefusesOut words.now.stamped f) }
{
    match words.stamped {
        Stamped::Digest(_) => Ok(()),
        Stamped::Signature(path, _) => files::apart(rt, "OUT", words.out, path),
    }
}

/// The octets of a request of these values, which are judged in this order: digest, policy, nonce; then the file of a
/// signature.
#[tactic(auto, using(crate::proofs::Stampings::of_digest, crate::proofs::Stampings::of_signature))]
fn octets_of<'a, R: Files + AllocGlobal>(
    rt: &R,
    words: &RequestWords<'a>,
) -> Result<Vec<u8>, Failure<'a>>
    ensures made { IfOk result (λ octets. IsRequestOf R.File.remaining words.now octets.items) }
    ensures refused { IfErr result (Refuses R.File.remaining words.now) }
{
    match words.stamped {
        Stamped::Digest(digits) => octets_of_digest(rt.alloc(), words, digits),
        Stamped::Signature(path, signer) => octets_of_signature(rt, words, path, signer),
    }
}

/// The same if a digest is given, by these digits.
fn octets_of_digest<'a>(
    alloc: Global,
    words: &RequestWords<'a>,
    digits: &str,
) -> Result<Vec<u8>, Failure<'a>>
    ensures made { IfOk result (λ octets. (digest : Digest) × IsDigest words.now.alg.now digits.now digest
        × IsRequestFor words.now digest octets.items) }
    ensures refused { IfErr result (λ f. (f ≡ Failure.Memory) ⊎ RefusesGiven words.now digits.now f) }
{
    let digest = digest_of(alloc, words.alg, digits)?;
    let values = values_of(alloc, words)?;
    request_of(alloc, &digest, &values, words.cert)
}

/// The same if the digest is that of a signature: of the signer of this number in the file of this path.
fn octets_of_signature<'a, R: Files + AllocGlobal>(
    rt: &R,
    words: &RequestWords<'a>,
    path: &'a str,
    signer: u64,
) -> Result<Vec<u8>, Failure<'a>>
    ensures made { IfOk result (λ octets. (alg : Alg) × (words.now.alg.now ≡ name_of alg)
        × ((file : List ℕ) × (digest : Digest) × IsHeld R.File.remaining file
        × IsSignatureDigest alg file signer digest × IsRequestFor words.now digest octets.items)) }
    ensures refused { IfErr result (λ f. (f ≡ Failure.Memory)
        ⊎ RefusesSignature R.File.remaining words.now path.entry signer f) }
{
    let alg = alg_of(words.alg)?;
    let values = values_of(rt.alloc(), words)?;
    let file = files::read_whole(rt, path)?;
    let digest = signature::digest_of(file.as_slice(), signer, alg)?;
    request_of(rt.alloc(), &digest, &values, words.cert)
}

/// The policy and the nonce of a request: contents of an OBJECT IDENTIFIER and of an INTEGER.
#[derive(Drop)]
struct Values {
    policy: Option<Vec<u8>>,
    nonce: Option<Vec<u8>>,
}

/// The policy and the nonce of these words, which are judged in this order.
fn values_of<'a>(alloc: Global, words: &RequestWords<'a>) -> Result<Values, Failure<'a>>
    ensures found { IfOk result (λ v. AreValues words.now (option_map (λ p. p.items) v.policy)
        (option_map (λ n. n.items) v.nonce)) }
    ensures refused { IfErr result (λ f. (f ≡ Failure.Memory) ⊎ RefusesValues words.now f) }
    ensures oid { IfOk result (λ v. IfSome v.policy (λ p. is_oid p.items ≡ true)) }
    ensures integer { IfOk result (λ v. IfSome v.nonce (λ n. is_integer n.items ≡ true)) }
{
    let policy = policy_contents(alloc, words.policy)?;
    let nonce = nonce_contents(alloc, words.nonce)?;
    Ok(Values { policy, nonce })
}

/// The octets of a request of a digest and these values.
fn request_of<'a>(
    alloc: Global,
    digest: &Digest,
    values: &Values,
    cert: bool,
) -> Result<Vec<u8>, Failure<'a>>
    requires oid { IfSome values.now.policy (λ p. is_oid p.items ≡ true) }
    requires integer { IfSome values.now.nonce (λ n. is_integer n.items ≡ true) }
    ensures made { IfOk result (λ octets. EncodesRequest octets.items
        (asked digest.now (option_map (λ p. p.items) values.now.policy)
        (option_map (λ n. n.items) values.now.nonce) cert)) }
    ensures refused { IfErr result (λ f. (f ≡ Failure.Memory)
        ⊎ ((Names (codes "policy") f ⊎ Names (codes "nonce") f) × (2 ^ 32 ≤ length (request_parts
        (asked digest.now (option_map (λ p. p.items) values.now.policy)
        (option_map (λ n. n.items) values.now.nonce) cert))))) }
{
    let policy = request::policy_in(&values.policy);
    let nonce = nonce_in(&values.nonce);
    request::request_of(alloc, digest, policy, nonce, cert)
}
