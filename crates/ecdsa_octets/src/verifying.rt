//! Verification.
ghost use Rattle.std.specs.Prelude.{◌≡◌, ◌⊎◌, IfSome, None};
ghost use Rattle.curve_points.specs.Residues.{HasWitness};
ghost use Rattle.ecdsa_signatures.specs.Curves.{p256, p384};
ghost use Rattle.ecdsa_octets.specs.Octets.{is_signed_in_octets};

use crate::numbers::{is_natural, number_of};
use crate::value::SignatureFields;
use curve_p256::P256;
use curve_p384::P384;
use ecdsa_signatures::{Curve, is_signature};

/// Whether `signature` is the encoding of a signature of a digest under the key with these coordinates, octets of any
/// count. `None` if a modulus of the curve is no prime.
pub fn is_signature_in_octets<const WORDS: usize, C: Curve<WORDS>>(
    x: &[u8],
    y: &[u8],
    digest: &[u8],
    signature: &[u8],
) -> Option<bool>
    // It says what the definition does.
    ensures found { IfSome result (λ b. b ≡ is_signed_in_octets C.parameters x.now y.now digest.now signature.now) }

    // If it says nothing, a number shows that p or n is no prime.
    ensures none { result ≡ None → HasWitness C.parameters.p ⊎ HasWitness C.parameters.n }
{
    let value = match SignatureFields::read(signature) {
        Ok(value) => value,
        Err(_) => return Some(false),
    };
    if !is_natural(value.r.bytes()) {
        return Some(false);
    }
    if !is_natural(value.s.bytes()) {
        return Some(false);
    }
    let Some(r) = number_of::<WORDS, C>(value.r.bytes()) else {
        return Some(false);
    };
    let Some(s) = number_of::<WORDS, C>(value.s.bytes()) else {
        return Some(false);
    };
    let Some(key_x) = number_of::<WORDS, C>(x) else {
        return Some(false);
    };
    let Some(key_y) = number_of::<WORDS, C>(y) else {
        return Some(false);
    };
    let Some(e) = number_of::<WORDS, C>(&digest[..digest.len().min(8 * WORDS)]) else {
        return Some(false);
    };
    is_signature::<WORDS, C>(&key_x, &key_y, &e, &r, &s)
}

/// The same on P-256.
pub fn is_p256_signature(x: &[u8], y: &[u8], digest: &[u8], signature: &[u8]) -> Option<bool>
    // It says what the definition does.
    ensures found { IfSome result (λ b. b ≡ is_signed_in_octets p256 x.now y.now digest.now signature.now) }
    // If it says nothing, a number shows that p or n is no prime.
    ensures none { result ≡ None → HasWitness p256.p ⊎ HasWitness p256.n }
{
    is_signature_in_octets::<4, P256>(x, y, digest, signature)
}

/// The same on P-384.
pub fn is_p384_signature(x: &[u8], y: &[u8], digest: &[u8], signature: &[u8]) -> Option<bool>
    // It says what the definition does.
    ensures found { IfSome result (λ b. b ≡ is_signed_in_octets p384 x.now y.now digest.now signature.now) }
    // If it says nothing, a number shows that p or n is no prime.
    ensures none { result ≡ None → HasWitness p384.p ⊎ HasWitness p384.n }
{
    is_signature_in_octets::<6, P384>(x, y, digest, signature)
}
