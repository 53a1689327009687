//! Multiples of a point, by doubling and adding.
ghost use Rattle.std.specs.Prelude.{ℕ, ◌+◌, ◌*◌, ◌^◌, cond, length};
ghost use Rattle.curve_points.specs.Words.{number};
ghost use Rattle.curve_points.specs.Points.{Point, sum, multiple};
ghost use Rattle.curve_points.specs.Standing.{StandsFor};

use crate::field::Field;
use crate::jacobian::{Jacobian, added, doubled, infinite};

/// The double, and the base more if the bit is set.
fn advanced<F: Field>(now: &Jacobian<F>, bit: bool, base: &Jacobian<F>) -> Jacobian<F>
    ensures { (H P : Point) → StandsFor F.modulus F.value base.now P → StandsFor F.modulus F.value now.now H
        → StandsFor F.modulus F.value result (cond bit (sum F.modulus (sum F.modulus H H) P) (sum F.modulus H H)) }
{
    let twice = doubled(now);
    if bit { added(&twice, base) } else { twice }
}

/// The multiple by a number that has this word below those of the multiple so far.
fn over_word<F: Field>(start: Jacobian<F>, word: u64, base: &Jacobian<F>) -> Jacobian<F>
    ensures { (n m : ℕ) (P : Point) → StandsFor F.modulus F.value base.now P
        → StandsFor F.modulus F.value start (multiple F.modulus P n m)
        → StandsFor F.modulus F.value result (multiple F.modulus P (n + 64) (2 ^ 64 * m + word)) }
{
    let mut now = start;
    for i in 0..64u32 {
        let bit = (word >> (63 - i)) & 1 == 1;
        now = advanced(&now, bit, base);
    }
    now
}

/// The multiple of a point by the number of these words, the least first.
pub fn multiple<F: Field>(words: &[u64], base: &Jacobian<F>) -> Jacobian<F>
    ensures { (P : Point) → StandsFor F.modulus F.value base.now P
        → StandsFor F.modulus F.value result (multiple F.modulus P (64 * length words.now) (number words.now)) }
{
    let mut now = infinite(&F::one());
    for i in 0..words.len() {
        now = over_word(now, words[words.len() - 1 - i], base);
    }
    now
}
