ghost use Rattle.std.specs.Prelude.{◌≡◌, ◌≤◌, ◌^◌, ◌⊎◌, IfErr, IfOk, IfSome, length, option_map, true};
ghost use Rattle.der_core.specs.Contents.{is_oid};
ghost use Rattle.der_oid_text.specs.OidText.{Spells};
ghost use Rattle.tsp_types.specs.Asked.{asked};
ghost use Rattle.tsp_types.specs.RequestValue.{EncodesRequest, request_parts};
ghost use Rattle.cli_failures.specs.Causes.{Names};
ghost use Rattle.cli_failures.specs.Requests.{SpellsNone, longer};

use crate::failure::Failure;
use der_core::{Int, Oid};
use der_oid_text::{OidFault, oid_parse};
use digests::Digest;
use std::alloc::Global;
use tsp_types::{MakeFault, Request};

/// The contents of the object identifier that a text spells, for the policy of a request.
///
/// Errors: `Usage`, if the text spells none, and `Memory`.
pub fn policy_of<'a>(alloc: Global, text: &str) -> Result<Vec<u8>, Failure<'a>>
    // Returns the contents of an object identifier that the text spells.
    ensures found { IfOk result (λ contents. Spells text.now contents.items) }
    // An error is a lack of memory, or names the policy, and then the text spells no object identifier.
    ensures refused { IfErr result (λ f. (f ≡ Failure.Memory) ⊎ SpellsNone text.now f) }
{
    match oid_parse(alloc, text) {
        Ok(contents) => Ok(contents),
        Err(OidFault::OidText) => Err(Failure::Usage("policy")),
        Err(OidFault::OutOfMemory) => Err(Failure::Memory),
    }
}

/// The object identifier of these contents, if there are any.
pub fn policy_in<'c>(contents: &'c Option<Vec<u8>>) -> Option<Oid<'c>>
    requires { IfSome contents.now (λ v. is_oid v.items ≡ true) }
    ensures { result ≡ option_map (λ v. v.items) contents.now }
{
    let contents = contents.as_ref()?;
    let Ok(policy) = Oid::read(contents.as_slice(), 0) else {
        unreachable!();
    };
    Some(policy)
}

/// The octets of a request of a digest.
///
/// Errors: `Usage`, if they would be too many for an element, and `Memory`.
pub fn request_of<'a>(
    alloc: Global,
    digest: &Digest,
    policy: Option<Oid>,
    nonce: Option<Int>,
    certificate: bool,
) -> Result<Vec<u8>, Failure<'a>>
    // What is made encodes exactly the request of these values.
    ensures made { IfOk result
        (λ octets. EncodesRequest octets.items (asked digest.now policy.entry nonce.entry certificate)) }
    // An error is a lack of memory, or names the policy, or without one the nonce, and then the request would be longer
    // than an element can be.
    ensures refused { IfErr result (λ f. (f ≡ Failure.Memory) ⊎ (Names (longer policy.entry) f
        × (2 ^ 32 ≤ length (request_parts (asked digest.now policy.entry nonce.entry certificate))))) }
{
    let is_policy = policy.is_some();
    match Request::make(alloc, digest, policy, nonce, certificate) {
        Ok(octets) => Ok(octets),
        Err(MakeFault::OutOfMemory) => Err(Failure::Memory),
        // Only a policy or a nonce of some 2^32 octets makes a request too long.
        Err(MakeFault::TooLong) => Err(Failure::Usage(if is_policy { "policy" } else { "nonce" })),
    }
}
