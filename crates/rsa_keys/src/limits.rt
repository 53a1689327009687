//! Which keys are judged.
ghost use Rattle.std.specs.Prelude.{◌≡◌, ◌≤◌, ◌↔◌, IsTrue, length};
ghost use Rattle.rsa_keys.specs.KeyValue.{IsJudged};
ghost use Rattle.rsa_keys.specs.KeyReading.{is_judged};

use big_numbers::word_of;

/// How many octets a modulus has at most, and an exponent.
const MODULUS_OCTETS: usize = 1024;

const EXPONENT_OCTETS: usize = 8;

/// How many bits a modulus has at least.
const LEAST_BITS: usize = 512;

/// Whether a key is judged, given the octets of n and e.
fn is_within(n: &[u8], e: &[u8]) -> bool
    ensures { IsTrue result ↔ IsJudged n.now e.now }
{
    let size = n.len();
    let count = e.len();
    if size == 0 {
        return false;
    }
    if size > MODULUS_OCTETS {
        return false;
    }
    if count == 0 {
        return false;
    }
    if count > EXPONENT_OCTETS {
        return false;
    }
    if n[0] == 0 {
        return false;
    }
    if e[0] == 0 {
        return false;
    }
    if 8 * size - (n[0].leading_zeros() as usize) < LEAST_BITS {
        return false;
    }
    if n[size - 1] % 2 == 0 {
        return false;
    }
    let exponent = word_of(e);
    if exponent % 2 == 0 {
        return false;
    }
    exponent >= 3
}

/// Whether a key is judged, given the octets of n and e.
pub(crate) fn is_judged(n: &[u8], e: &[u8]) -> bool
    ensures same { result ≡ is_judged n.now e.now }
    ensures few { IsTrue result → length e.now ≤ 8 }
{
    is_within(n, e)
}
