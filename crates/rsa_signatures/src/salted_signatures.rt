//! RSASSA-PSS (RFC 8017 8.1).
ghost use Rattle.std.specs.Prelude.{◌≡◌, ℕ, ◌+◌, ◌-◌, ◌*◌, ◌^◌, ◌/◌, ◌≤◌, ◌<◌, ◌↔◌, IsTrue, length};
ghost use Rattle.big_numbers.specs.Numbers.{i2osp};
ghost use Rattle.digests.specs.Digests.{alg_of, octets_of};
ghost use Rattle.rsa_signatures.specs.Pss.{IsConsistent, IsPss, is_pss};

use crate::salted::is_consistent;
use big_numbers::Modulus;
use digests::{Alg, Digest};

/// How many octets a modulus has at most.
const OCTETS: usize = 1024;

/// Whether the octets of a power, without the first one where an encoded message is shorter, are consistent with a hash
/// value. An encoded message has so many bits.
fn has_consistent(alg: Alg, mask: Alg, salt: usize, hash: &[u8], octets: &[u8], bits: usize) -> bool
    requires hash { length hash.now ≤ 64 }
    requires some { 2 ≤ length octets.now }
    requires few { length octets.now ≤ 1024 }
    requires most { bits < 8 * length octets.now }
    requires least { 8 * length octets.now ≤ bits + 8 }
    ensures { (x : ℕ) → octets.now ≡ i2osp x (length octets.now) → x < 256 ^ length octets.now
        → (IsTrue result ↔ ((x < 256 ^ ((bits + 7) / 8))
        × IsConsistent alg mask salt hash.now (i2osp x ((bits + 7) / 8)) bits)) }
{
    if (bits + 7) / 8 == octets.len() {
        return is_consistent(alg, mask, salt, hash, octets, bits);
    }
    if octets[0] != 0 {
        return false;
    }
    is_consistent(alg, mask, salt, hash, &octets[1..], bits)
}

/// Whether octets are a signature. The rest is room for the octets of the power.
#[tactic(auto, using(crate::proofs::MaskSteps::most))]
fn is_signature_in(
    digest: &Digest,
    mask: Alg,
    salt: usize,
    modulus: &Modulus,
    exponent: u64,
    signature: &[u8],
    power: &mut [u8],
) -> bool
    requires { length power.old ≡ length modulus.now }
    ensures { IsTrue result
        ↔ IsPss (alg_of digest.now) mask salt (octets_of digest.now) modulus.now exponent signature.now }
{
    let size = modulus.size();
    let bits = modulus.bits();
    if size < 2 {
        return false;
    }
    if !modulus.power(power, signature, exponent) {
        return false;
    }
    let hash = digest.bytes();
    has_consistent(digest.alg(), mask, salt, hash, power, bits - 1)
}

/// Whether octets are a signature by RSASSA-PSS, under this key, of a message with this digest (RFC 8017 8.1.2): with
/// the digest's hash function, MGF1 by `mask` (B.2.1), and a salt of `salt` octets.
pub fn is_pss_signature(
    digest: &Digest,
    mask: Alg,
    salt: usize,
    modulus: &Modulus,
    exponent: u64,
    signature: &[u8],
) -> bool
    // It is what the function `is_pss` gives, which the standard's verification defines.
    ensures { result
        ≡ is_pss (alg_of digest.now) mask salt (octets_of digest.now) modulus.now exponent signature.now }
{
    let size = modulus.size();
    let mut power = [0u8; OCTETS];
    is_signature_in(
        digest,
        mask,
        salt,
        modulus,
        exponent,
        signature,
        &mut power[..size],
    )
}
