ghost use Rattle.std.specs.Prelude.{◌≡◌, ◌⊎◌, Ok, IfErr, IfOk, IfSome, IsErr, IsOk, true, option_copied, option_map};
ghost use Rattle.der_core.specs.Contents.{is_integer, is_oid};
ghost use Rattle.hex.specs.Hex.{decode_of};
ghost use Rattle.digests.specs.Algorithms.{name_of};
ghost use Rattle.cli_failures.specs.Causes.{Names};
ghost use Rattle.cli_values.specs.Refusals.{RefusesAlg, RefusesDigest, RefusesNonce, RefusesPolicy};
ghost use Rattle.cli_values.specs.Values.{IsDigest, IsInHex, IsPolicy};

use cli_failures::{Failure, request};
use der_core::Int;
use digests::{Alg, Digest};
use list_answers::Digits;
use std::alloc::Global;

/// The octets that hexadecimal digits of either case state; they are the value of this option.
fn octets_in_hex<'a>(
    alloc: Global,
    option: &'static str,
    digits: &str,
) -> Result<Vec<u8>, Failure<'a>>
    ensures found { IfOk result (λ octets. decode_of digits.now ≡ Ok octets.items) }
    ensures refused { IfErr result (λ f. (f ≡ Failure.Memory) ⊎ Names option.now f × IsErr (decode_of digits.now)) }
    // A lack of memory is reported only if the digits state octets.
    ensures memory { IfErr result (λ f. f ≡ Failure.Memory → IsOk (decode_of digits.now)) }
{
    let Some(digits) = Digits::read(digits.as_bytes()) else {
        return Err(Failure::Usage(option));
    };
    let Ok(octets) = digits.octets(alloc) else {
        return Err(Failure::Memory);
    };
    Ok(octets)
}

/// The digest by the algorithm of this name that hexadecimal digits of either case state.
///
/// Errors: `Usage`, which names `digest`, if the digits state none of the algorithm, and `alg`, if none has this name;
/// memory is refused.
pub fn digest_of<'a>(alloc: Global, name: &str, digits: &str) -> Result<Digest, Failure<'a>>
    // It is of the algorithm of this name, and has the octets that the digits state.
    ensures found { IfOk result (IsDigest name.now digits.now) }
    // There is no such digest, or no such algorithm, or memory was refused.
    ensures refused { IfErr result (λ f. (f ≡ Failure.Memory) ⊎ RefusesDigest name.now digits.now f) }
{
    let octets = octets_in_hex(alloc, "digest", digits)?;
    let alg = alg_of(name)?;
    match Digest::given(alg, octets.as_slice()) {
        Some(digest) => Ok(digest),
        None => Err(Failure::Usage("digest")),
    }
}

/// The algorithm of this name.
///
/// Errors: `Usage`, which names `alg`, if there is none.
pub fn alg_of<'a>(name: &str) -> Result<Alg, Failure<'a>>
    // It has this name.
    ensures found { IfOk result (λ alg. name.now ≡ name_of alg) }
    // No algorithm has the name.
    ensures refused { IfErr result (RefusesAlg name.now) }
{
    Alg::named(name).ok_or(Failure::Usage("alg"))
}

/// The contents of the object identifier that a text states, for the policy of a request, if there is one.
///
/// Errors: `Usage`, which names `policy`, if it states none; memory is refused.
pub fn policy_contents<'a>(
    alloc: Global,
    text: Option<&str>,
) -> Result<Option<Vec<u8>>, Failure<'a>>
    // They are those of the identifier that the text states.
    ensures found { IfOk result (λ found. IsPolicy (option_copied text.entry) (option_map (λ v. v.items) found)) }
    // It states none, or memory was refused.
    ensures refused { IfErr result (λ f. (f ≡ Failure.Memory) ⊎ RefusesPolicy (option_copied text.entry) f) }
    // They are contents of an OBJECT IDENTIFIER.
    ensures formed { IfOk result (λ found. IfSome found (λ v. is_oid v.items ≡ true)) }
{
    let Some(text) = text else {
        return Ok(None);
    };
    Ok(Some(request::policy_of(alloc, text)?))
}

/// The contents of the INTEGER that hexadecimal digits state, for the nonce of a request, if there are any.
///
/// Errors: `Usage`, which names `nonce`, if they state none; memory is refused.
#[tactic(auto, using(crate::proofs::Nonces::refuses_nonce))]
pub fn nonce_contents<'a>(
    alloc: Global,
    digits: Option<&str>,
) -> Result<Option<Vec<u8>>, Failure<'a>>
    // They are the octets that the digits state.
    ensures found { IfOk result (λ found. IsInHex (option_copied digits.entry) (option_map (λ v. v.items) found)) }
    // The digits state none, or memory was refused.
    ensures refused { IfErr result (λ f. (f ≡ Failure.Memory) ⊎ RefusesNonce (option_copied digits.entry) f) }
    // They are contents of an INTEGER.
    ensures formed { IfOk result (λ found. IfSome found (λ v. is_integer v.items ≡ true)) }
{
    let Some(digits) = digits else {
        return Ok(None);
    };
    let contents = octets_in_hex(alloc, "nonce", digits)?;
    if Int::read(contents.as_slice(), 0).is_ok() {
        Ok(Some(contents))
    } else {
        Err(Failure::Usage("nonce"))
    }
}

/// The nonce of these contents, if there are any.
pub fn nonce_in<'c>(contents: &'c Option<Vec<u8>>) -> Option<Int<'c>>
    requires { IfSome contents.now (λ v. is_integer v.items ≡ true) }
    ensures { result ≡ option_map (λ v. v.items) contents.now }
{
    let contents = contents.as_ref()?;
    let Ok(nonce) = Int::read(contents.as_slice(), 0) else {
        unreachable!();
    };
    Some(nonce)
}
