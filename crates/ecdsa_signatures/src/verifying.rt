//! Verification.
ghost use Rattle.std.specs.Prelude.{◌≡◌, ◌+◌, ◌*◌, ◌%◌, ◌<◌, ◌⊎◌, IfSome, None, nat_eq};
ghost use Rattle.curve_points.specs.Residues.{HasWitness};
ghost use Rattle.curve_points.specs.Words.{number};
ghost use Rattle.ecdsa_signatures.specs.Signatures.{is_signed};

use crate::curve::Curve;
use curve_points::{Affine, Field, Residue, added, at, inverse, multiple, to_affine};

/// Whether the coordinates meet the curve's equation.
fn is_met<F: Field>(x: &F, y: &F, coefficient: &F) -> bool
    ensures { result ≡ nat_eq ((F.value y.now * F.value y.now + 3 * F.value x.now) % F.modulus)
        ((F.value x.now * (F.value x.now * F.value x.now) + F.value coefficient.now) % F.modulus) }
{
    let yy = y.times(y);
    let two_x = x.plus(x);
    let three_x = two_x.plus(x);
    let left = yy.plus(&three_x);
    let xx = x.times(x);
    let xxx = x.times(&xx);
    let right = xxx.plus(coefficient);
    left.is_same(&right)
}

/// Whether (r, s) is a signature of the number e under the key (x, y), each in words, the least first. `None` if a
/// modulus of the curve is no prime.
pub fn is_signature<const WORDS: usize, C: Curve<WORDS>>(
    x: &[u64; WORDS],
    y: &[u64; WORDS],
    e: &[u64; WORDS],
    r: &[u64; WORDS],
    s: &[u64; WORDS],
) -> Option<bool>
    // It says what the definition does.
    ensures found { IfSome result (λ b. b ≡ is_signed C.parameters (number x.now) (number y.now) (number e.now)
        (number r.now) (number s.now)) }

    // If it says nothing, a number shows that p or n is no prime.
    ensures none { result ≡ None → HasWitness C.parameters.p ⊎ HasWitness C.parameters.n }
{
    let Some(key_x) = C::coordinate(x) else {
        return Some(false);
    };
    let Some(key_y) = C::coordinate(y) else {
        return Some(false);
    };
    if !is_met(&key_x, &key_y, &C::coefficient()) {
        return Some(false);
    }
    let Some(wanted) = C::scalar(r) else {
        return Some(false);
    };
    let Some(divisor) = C::scalar(s) else {
        return Some(false);
    };
    let inverse = inverse(&divisor)?;
    let by_digest = C::reduced(e).times(&inverse);
    let by_key = wanted.times(&inverse);
    let first = multiple(&C::words(&by_digest), &at(C::base_x(), C::base_y()));
    let second = multiple(&C::words(&by_key), &at(key_x, key_y));
    match to_affine(&added(&first, &second))? {
        Affine::Infinity => Some(false),
        Affine::At(found, _) => Some(C::is_remainder(&found, &wanted)),
    }
}
