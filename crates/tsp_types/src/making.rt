ghost use Rattle.std.specs.Prelude.{◌≡◌, ◌≢◌, ◌+◌, ◌^◌, ◌<◌, ◌≤◌, ◌↔◌, ◌++◌, length, vec_len, vec_capacity, true, IfOk};
ghost use Rattle.std.specs.Prelude.{IfSome, OnOk, IsErr, Err, option_map};
ghost use Rattle.der_core.specs.Contents.{is_integer, is_oid};
ghost use Rattle.der_core.specs.Element.{el};
ghost use Rattle.der_core.specs.Values.{algorithm_parts, optional, flag, HasLength};
ghost use Rattle.digests.specs.Algorithms.{length_of};
ghost use Rattle.digests.specs.Digests.{alg_of, octets_of};
ghost use Rattle.tsp_types.specs.Asked.{asked, algorithm_asked, flag_asked, imprint_asked};
ghost use Rattle.tsp_types.specs.ImprintValue.{imprint_parts};
ghost use Rattle.tsp_types.specs.RequestValue.{EncodesRequest, request_parts};

use crate::putting::{MakeFault, element_length, put_element, put_header};
use crate::request::Request;
use der_core::tags::{BOOLEAN, INTEGER, OBJECT_IDENTIFIER, OCTET_STRING, SEQUENCE};
use der_core::{Int, Oid, TooLong};
use digests::{Alg, Digest};
use std::alloc::Global;

/// A whole NULL: the parameters of the hash algorithm. Readers must accept it like absent parameters (RFC 5754 2), and
/// makers of requests commonly write it.
const NULL: [u8; 2] = [0x05, 0x00];

// The contents octets of a policy, if one is given.
fn policy_octets<'a>(policy: &Option<Oid<'a>>) -> Option<&'a [u8]>
    ensures octets { option_map (λ x. x.now) result ≡ policy.now }
    ensures formed { IfSome policy.now (λ b. is_oid b ≡ true) }
{
    match policy {
        Some(oid) => Some(oid.bytes()),
        None => None,
    }
}

// The contents octets of a nonce, if one is given.
fn nonce_octets<'a>(nonce: &Option<Int<'a>>) -> Option<&'a [u8]>
    ensures octets { option_map (λ x. x.now) result ≡ nonce.now }
    ensures formed { IfSome nonce.now (λ b. is_integer b ≡ true) }
{
    match nonce {
        Some(int) => Some(int.bytes()),
        None => None,
    }
}

// How many octets an element has that may be absent; its identifier has no influence on this.
fn optional_length(contents: Option<&[u8]>) -> Result<u64, TooLong>
    ensures size { IfOk result
        (λ n. (n ≡ length (optional 0 (option_map (λ x. x.now) contents.entry))) × (n < 2 ^ 33)) }
    ensures too_long { IsErr result → 2 ^ 32 ≤ length (optional 0 (option_map (λ x. x.now) contents.entry)) }
{
    match contents {
        None => Ok(0),
        Some(octets) => element_length(octets.len()),
    }
}

// How many octets the contents of the AlgorithmIdentifier of an algorithm have, with NULL parameters.
fn algorithm_length(alg: Alg) -> u64
    ensures size { result ≡ length (algorithm_parts (algorithm_asked alg)) }
    ensures bound { result ≤ 13 }
{
    2 + alg.oid_contents().len() as u64 + NULL.len() as u64
}

// How many octets the contents of the imprint of a digest have.
fn imprint_length(digest: &Digest) -> u64
    ensures size { result ≡ length (imprint_parts (imprint_asked digest.now)) }
    ensures bound { result < 128 }
{
    2 + algorithm_length(digest.alg()) + 2 + digest.bytes().len() as u64
}

fn put_optional(out: &mut Vec<u8>, tag: u8, contents: Option<&[u8]>) -> Result<(), MakeFault>
    ensures put { OnOk result (out.new.items ≡ out.old.items ++ optional tag (option_map (λ x. x.now) contents.entry)) }
    ensures fits { OnOk result (IfSome (option_map (λ x. x.now) contents.entry) (λ b. HasLength b)) }
    ensures too_long { result ≡ Err MakeFault.TooLong
        → 2 ^ 32 ≤ length (optional tag (option_map (λ x. x.now) contents.entry)) }
    ensures full { result ≡ Err MakeFault.OutOfMemory
        → vec_capacity out.old < vec_len out.old + length (optional tag (option_map (λ x. x.now) contents.entry)) }
    ensures room { vec_capacity out.old ≤ vec_capacity out.new }
{
    match contents {
        None => Ok(()),
        Some(octets) => put_element(out, tag, octets),
    }
}

fn put_flag(out: &mut Vec<u8>, is_set: bool) -> Result<(), MakeFault>
    ensures put { OnOk result (out.new.items ≡ out.old.items ++ flag (flag_asked is_set)) }
    ensures fits { result ≢ Err MakeFault.TooLong }
    ensures full { result ≡ Err MakeFault.OutOfMemory
        → vec_capacity out.old < vec_len out.old + length (flag (flag_asked is_set)) }
    ensures room { vec_capacity out.old ≤ vec_capacity out.new }
{
    if is_set {
        put_element(out, BOOLEAN, &[0xff])?;
    }
    Ok(())
}

// MessageImprint ::= SEQUENCE { hashAlgorithm AlgorithmIdentifier, hashedMessage OCTET STRING }
fn put_imprint(out: &mut Vec<u8>, digest: &Digest) -> Result<(), MakeFault>
    ensures put { OnOk result (out.new.items ≡ out.old.items ++ el 0x30 (imprint_parts (imprint_asked digest.now))) }
    ensures count { OnOk result (length (octets_of digest.now) ≡ length_of (alg_of digest.now)) }
    ensures fits { result ≢ Err MakeFault.TooLong }
    ensures full { result ≡ Err MakeFault.OutOfMemory
        → vec_capacity out.old < vec_len out.old + length (el 0x30 (imprint_parts (imprint_asked digest.now))) }
    ensures room { vec_capacity out.old ≤ vec_capacity out.new }
{
    put_header(out, SEQUENCE, imprint_length(digest))?;
    put_header(out, SEQUENCE, algorithm_length(digest.alg()))?;
    put_element(out, OBJECT_IDENTIFIER, digest.alg().oid_contents())?;
    out.extend_from_slice(&NULL)?;
    put_element(out, OCTET_STRING, digest.bytes())
}

// How many octets the contents of the request have.
fn body_length(
    digest: &Digest,
    policy: Option<&[u8]>,
    nonce: Option<&[u8]>,
    cert_req: bool,
) -> Result<u64, TooLong>
    ensures size { IfOk result (λ n. n ≡ length (request_parts (asked digest.now
        (option_map (λ x. x.now) policy.entry) (option_map (λ x. x.now) nonce.entry) cert_req))) }
    ensures too_long { IsErr result → 2 ^ 32 ≤ length (request_parts (asked digest.now
        (option_map (λ x. x.now) policy.entry) (option_map (λ x. x.now) nonce.entry) cert_req)) }
{
    let policy = optional_length(policy)?;
    let nonce = optional_length(nonce)?;
    let flag = if cert_req { 3 } else { 0 };
    Ok(3 + (2 + imprint_length(digest)) + policy + nonce + flag)
}

// TimeStampReq ::= SEQUENCE { version INTEGER { v1(1) }, messageImprint MessageImprint, reqPolicy TSAPolicyId OPTIONAL,
//   nonce INTEGER OPTIONAL, certReq BOOLEAN DEFAULT FALSE, extensions [0] IMPLICIT Extensions OPTIONAL }
fn put_body(
    out: &mut Vec<u8>,
    digest: &Digest,
    policy: Option<&[u8]>,
    nonce: Option<&[u8]>,
    cert_req: bool,
) -> Result<(), MakeFault>
    ensures put { OnOk result (out.new.items ≡ out.old.items
        ++ request_parts (asked digest.now (option_map (λ x. x.now) policy.entry)
        (option_map (λ x. x.now) nonce.entry) cert_req)) }
    ensures count { OnOk result (length (octets_of digest.now) ≡ length_of (alg_of digest.now)) }
    ensures policy { OnOk result (IfSome (option_map (λ x. x.now) policy.entry) (λ b. HasLength b)) }
    ensures nonce { OnOk result (IfSome (option_map (λ x. x.now) nonce.entry) (λ b. HasLength b)) }
    ensures too_long { result ≡ Err MakeFault.TooLong
        → 2 ^ 32 ≤ length (request_parts (asked digest.now (option_map (λ x. x.now) policy.entry)
        (option_map (λ x. x.now) nonce.entry) cert_req)) }
    // Memory is requested only if the present capacity is too small.
    ensures full { result ≡ Err MakeFault.OutOfMemory
        → vec_capacity out.old < vec_len out.old + length (request_parts (asked digest.now
        (option_map (λ x. x.now) policy.entry) (option_map (λ x. x.now) nonce.entry) cert_req)) }
    ensures room { vec_capacity out.old ≤ vec_capacity out.new }
{
    put_element(out, INTEGER, &[1])?;
    put_imprint(out, digest)?;
    put_optional(out, OBJECT_IDENTIFIER, policy)?;
    put_optional(out, INTEGER, nonce)?;
    put_flag(out, cert_req)
}

impl Request<'_> {
    /// The octets of the request for a stamp of `digest` (RFC 3161 2.4.1): version 1, the digest's algorithm with NULL
    /// parameters, the policy and the nonce if they are given, and certReq as `01 01 ff` if `cert_req` is true, and
    /// otherwise absent.
    ///
    /// Errors: `TooLong`, exactly if some length exceeds 4,294,967,295. `OutOfMemory` if memory is refused: it is
    /// requested once, for all the octets.
    pub fn make(
        alloc: Global,
        digest: &Digest,
        policy: Option<Oid>,
        nonce: Option<Int>,
        cert_req: bool,
    ) -> Result<Vec<u8>, MakeFault>
        // What is made encodes exactly the request for these arguments.
        ensures made { IfOk result
            (λ bytes. EncodesRequest bytes.items (asked digest.now policy.entry nonce.entry cert_req)) }
        // `TooLong` is returned exactly if the contents of the request have 2^32 octets or more.
        ensures too_long { (result ≡ Err MakeFault.TooLong)
            ↔ (2 ^ 32 ≤ length (request_parts (asked digest.now policy.entry nonce.entry cert_req))) }
    {
        let policy = policy_octets(&policy);
        let nonce = nonce_octets(&nonce);
        let body = body_length(digest, policy, nonce, cert_req)?;
        let size = element_length(body as usize)?;
        let mut out = Vec::with_capacity(alloc, size as usize)?;
        put_header(&mut out, SEQUENCE, body)?;
        put_body(&mut out, digest, policy, nonce, cert_req)?;
        Ok(out)
    }
}
