//! RSASSA-PKCS1-v1_5 (RFC 8017 8.2).
ghost use Rattle.std.specs.Prelude.{◌≡◌, ◌↔◌, IsTrue, length};
ghost use Rattle.digests.specs.Digests.{alg_of, octets_of};
ghost use Rattle.rsa_signatures.specs.Pkcs1.{IsPkcs1, is_pkcs1};

use crate::encodings::encode;
use crate::infos::{INFO_OCTETS, put_info};
use big_numbers::Modulus;
use digests::Digest;

/// How many octets a modulus has at most.
const OCTETS: usize = 1024;

/// Whether octets are a signature. The rest is room for the encoded message that they give, and for the one that is
/// due.
fn is_signature_in(
    digest: &Digest,
    modulus: &Modulus,
    exponent: u64,
    signature: &[u8],
    power: &mut [u8],
    message: &mut [u8],
) -> bool
    requires power { length power.old ≡ length modulus.now }
    requires message { length message.old ≡ length modulus.now }
    ensures { IsTrue result
        ↔ IsPkcs1 (alg_of digest.now) (octets_of digest.now) modulus.now exponent signature.now }
{
    let mut room = [0u8; INFO_OCTETS];
    let count = put_info(&mut room, digest);
    if message.len() < count + 11 {
        return false;
    }
    if !modulus.power(power, signature, exponent) {
        return false;
    }
    encode(message, &room[..count]);
    let found: &[u8] = power;
    let due: &[u8] = message;
    found == due
}

/// Whether octets are a signature by RSASSA-PKCS1-v1_5, under this key, of a message with this digest (RFC 8017 8.2.2).
/// Nothing is parsed out of the octets: what they give is compared with the one encoding (9.2).
pub fn is_pkcs1_signature(
    digest: &Digest,
    modulus: &Modulus,
    exponent: u64,
    signature: &[u8],
) -> bool
    // It is what the function `is_pkcs1` gives, which the standard's verification defines.
    ensures { result
        ≡ is_pkcs1 (alg_of digest.now) (octets_of digest.now) modulus.now exponent signature.now }
{
    let size = modulus.size();
    let mut power = [0u8; OCTETS];
    let mut message = [0u8; OCTETS];
    is_signature_in(
        digest,
        modulus,
        exponent,
        signature,
        &mut power[..size],
        &mut message[..size],
    )
}
