ghost use Rattle.std.specs.Prelude.{◌≡◌, ◌++◌, Err, IfErr, IfOk, OnOk, option_copied};
ghost use Rattle.std.specs.String.{string_bytes};
ghost use Rattle.der_core.specs.Grammar.{file};
ghost use Rattle.der_grammar.specs.Table.{request};
ghost use Rattle.der_core.specs.ReadFaults.{IsReadFault};
ghost use Rattle.tsp_types.specs.RequestValue.{RequestValue, EncodesRequest};
ghost use Rattle.lines_shown.specs.RequestLines.{policy_line, request_lines, ShowsRequest};

use crate::lines::{push_extensions, push_line, push_nonce, push_octets, push_oid, state_text};
use der_core::{Oid, ReadFault};
use std::alloc::{AllocError, Global};
use tsp_types::Request;

fn push_policy(alloc: Global, text: &mut String, policy: Option<&Oid>) -> Result<(), AllocError>
    ensures { OnOk result (string_bytes text.new ≡ string_bytes text.old ++ policy_line (option_copied policy.entry)) }
{
    match policy {
        None => Ok(()),
        Some(oid) => push_oid(alloc, text, "policy", oid),
    }
}

/// The lines that show a request, each ended by LF.
fn lines(alloc: Global, request: &Request) -> Result<String, AllocError>
    ensures { IfOk result (λ text. string_bytes text ≡ request_lines request.now) }
{
    let mut text = String::from_str(alloc, "request\n")?;
    push_oid(alloc, &mut text, "algorithm", request.algorithm().oid())?;
    push_octets(alloc, &mut text, "digest", request.imprint())?;
    push_policy(alloc, &mut text, request.policy())?;
    push_nonce(alloc, &mut text, request.nonce())?;
    push_line(&mut text, "certreq", state_text(request.cert_req()))?;
    push_extensions(&mut text, request.extensions())?;
    Ok(text)
}

/// The lines that show the request that all of these octets encode.
///
/// Errors: `Malformed`, with a fault that the octets have, if they don't encode one; `OutOfMemory` if memory is
/// refused.
pub fn text_of(alloc: Global, octets: &[u8]) -> Result<String, ReadFault>
    // Returns the lines of the request that the octets encode.
    ensures shown { IfOk result (λ text. ShowsRequest octets.now (string_bytes text)) }
    // A fault that is named is one that the octets have.
    ensures refused { IfErr result (IsReadFault (file request) octets.now) }
    // `OutOfMemory` is returned only if the octets encode a request.
    ensures memory { result ≡ Err ReadFault.OutOfMemory → (v : RequestValue) × EncodesRequest octets.now v }
{
    let request = Request::read(octets)?;
    match lines(alloc, &request) {
        Ok(text) => Ok(text),
        Err(_) => Err(ReadFault::OutOfMemory),
    }
}
