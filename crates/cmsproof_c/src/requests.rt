ghost use Rattle.cms_types.specs.SignedDataValue.{SignedDataValue, SignedContent, encoding};
ghost use Rattle.tsp_requester.specs.Attaching.{Attaches};
ghost use Rattle.library_calls.specs.Requests.{IsGiven, IsHashed, IsRequested, IsSignatureRequested};
ghost use Rattle.library_calls.specs.Matching.{IsTokenOf};
ghost use Rattle.library_calls.specs.Attaching.{IsAttaching, IsMadeIfMemory};

use library_answers::Answer;
use library_calls::{
    tell_attached, tell_request, tell_request_of, tell_request_of_signature, tell_token,
};
use std::alloc::Global;

/// A time-stamp request of a digest.
#[unsafe(no_mangle)]
pub extern "C" fn cmsproof_request(
    alloc: Global,
    algorithm: &[u8],
    digest: &[u8],
    policy: &[u8],
    nonce: &[u8],
    certificate: bool,
    text: &mut [u8],
    size: &mut usize,
    said: &mut Answer,
) -> u32
    // The octets that encode the request of this digest, or the first value that is not as it must be.
    ensures { IsRequested (IsGiven algorithm.now digest.now) algorithm.now policy.now nonce.now certificate said.new
        result text.old size.new text.new }
{
    put!(tell_request(alloc, algorithm, digest, policy, nonce, certificate, text) => size, said)
}

/// A time-stamp request of octets.
#[unsafe(no_mangle)]
pub extern "C" fn cmsproof_request_of(
    alloc: Global,
    algorithm: &[u8],
    octets: &[u8],
    policy: &[u8],
    nonce: &[u8],
    certificate: bool,
    text: &mut [u8],
    size: &mut usize,
    said: &mut Answer,
) -> u32
    // The octets that encode the request of the digest of these, or the first value that is not as it must be.
    ensures { IsRequested (IsHashed algorithm.now octets.now) algorithm.now policy.now nonce.now certificate said.new
        result text.old size.new text.new }
{
    put!(tell_request_of(alloc, algorithm, octets, policy, nonce, certificate, text) => size, said)
}

/// A time-stamp request of the signature of the signer of this number, from 1, in a file.
#[unsafe(no_mangle)]
pub extern "C" fn cmsproof_request_of_signature(
    alloc: Global,
    algorithm: &[u8],
    file: &[u8],
    signer_number: u64,
    policy: &[u8],
    nonce: &[u8],
    certificate: bool,
    text: &mut [u8],
    size: &mut usize,
    said: &mut Answer,
) -> u32
    // The octets that encode the request of this signature's digest, or the first value that is not as it must be, or
    // why the file has no such signature.
    ensures { IsSignatureRequested algorithm.now file.now signer_number policy.now nonce.now certificate
        said.new result text.old size.new text.new }
{
    put!(tell_request_of_signature(alloc, algorithm, file, signer_number, policy, nonce, certificate, text)
        => size, said)
}

/// The token of a response that answers a request.
#[unsafe(no_mangle)]
pub extern "C" fn cmsproof_token(
    alloc: Global,
    request: &[u8],
    response: &[u8],
    token: &mut [u8],
    size: &mut usize,
    said: &mut Answer,
) -> u32
    // The token of a response that answers by the definitions, or the first rule that fails, in numbers and as the
    // line.
    ensures { IsTokenOf request.now response.now said.new result token.old size.new token.new }
{
    put!(tell_token(alloc, request, response, token) => size, said)
}

/// A file with a time-stamp token attached to one of its signers.
#[unsafe(no_mangle)]
pub extern "C" fn cmsproof_attach(
    alloc: Global,
    file: &[u8],
    signer: u64,
    token: &[u8],
    attached: &mut [u8],
    size: &mut usize,
    said: &mut Answer,
) -> u32
    // The octets of the new file, or the first rule that fails, in numbers and as the line.
    ensures answer { IsAttaching file.now signer token.now said.new result attached.old size.new
        attached.new }
    // For every SignedData that is the file with the token, its encoding, if there is memory.
    ensures only { (w : SignedDataValue) → Attaches file.now signer token.now w
        → IsMadeIfMemory (encoding (SignedContent w)) said.new result attached.old size.new
        attached.new }
{
    put!(tell_attached(alloc, file, signer, token, attached) => size, said)
}
