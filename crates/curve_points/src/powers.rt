//! Powers, and inverses by powers.
ghost use Rattle.std.specs.Prelude.{◌≡◌, ℕ, ◌+◌, ◌*◌, ◌%◌, ◌^◌, cond, IfSome, None};
ghost use Rattle.curve_points.specs.Residues.{Congruent, IsWitness};
ghost use Rattle.curve_points.specs.Words.{number};

use crate::field::Residue;

/// The square, times `base` if the bit is set.
fn raised<R: Residue>(now: &R, bit: bool, base: &R) -> R
    ensures { (m : ℕ) → Congruent R.modulus (R.value now.now) (R.value base.now ^ m)
        → Congruent R.modulus (R.value result) (R.value base.now ^ (2 * m + cond bit 1 0)) }
{
    let square = now.times(now);
    if bit { square.times(base) } else { square }
}

/// The power by an exponent that has this word below those of the power so far.
fn raised_by_word<R: Residue>(start: R, word: u64, base: &R) -> R
    ensures { (m : ℕ) → Congruent R.modulus (R.value start) (R.value base.now ^ m)
        → Congruent R.modulus (R.value result) (R.value base.now ^ (2 ^ 64 * m + word)) }
{
    let mut now = start;
    for i in 0..64u32 {
        let bit = (word >> (63 - i)) & 1 == 1;
        now = raised(&now, bit, base);
    }
    now
}

/// The power by the number of these words, the least first.
pub fn power<R: Residue>(base: &R, exponent: &[u64]) -> R
    ensures { Congruent R.modulus (R.value result) (R.value base.now ^ number exponent.now) }
{
    let mut now = R::one();
    for i in 0..exponent.len() {
        now = raised_by_word(now, exponent[exponent.len() - 1 - i], base);
    }
    now
}

/// The inverse: the power by the modulus less 2, if the product with it is 1. Otherwise the number is 0, or the modulus
/// is no prime.
pub fn inverse<R: Residue>(a: &R) -> Option<R>
    // It is one.
    ensures found { IfSome result (λ i. Congruent R.modulus (R.value a.now * R.value i) 1) }

    // If there is none of a number that isn't 0, this shows that the modulus is no prime.
    ensures none { result ≡ None → (Congruent R.modulus (R.value a.now) 0 → ⊥)
        → IsWitness R.modulus (R.value a.now % R.modulus) }
{
    let inverse = power(a, R::inverting_exponent());
    let product = a.times(&inverse);
    if product.is_same(&R::one()) {
        Some(inverse)
    } else {
        None
    }
}
