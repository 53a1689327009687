//! A modulus, with what depends on it alone.
ghost use Rattle.std.specs.Prelude.{◌≡◌, ◌+◌, ◌*◌, ◌/◌, ◌%◌, ◌^◌, ◌<◌, ◌≤◌, ◌↔◌, IsTrue, IfSome, Some, length};
ghost use Rattle.big_numbers.specs.Numbers.{IsBits, IsModulus, bits_of, i2osp, os2ip, value};
ghost use Rattle.big_numbers.specs.Montgomery.{IsReady};
ghost use Rattle.big_numbers.specs.Exponents.{exponent_of};

use crate::differences::is_less;
use crate::inverses::negated_inverse;
use crate::octets::{read_octets, write_number};
use crate::powers::{WORDS, put_long_power, put_power, square_of_base};
use crate::products::put_product;
use std::marker::Model;

/// How many octets a modulus has at most.
const OCTETS: usize = 1024;

/// An odd number above 1, of at most 8,192 bits, with what depends on it alone, so that it is computed once. Contracts
/// see its octets, the highest first, of which the first is not 0.
#[derive(Drop)]
pub struct Modulus {
    words: [u64; WORDS],
    square: [u64; WORDS],
    count: usize,
    inverse: u64,
    size: usize,
    bits: usize,
}

impl Model for Modulus {
    ghost use Rattle.std.specs.Prelude.{ℕ, List, take};
    ghost use Rattle.big_numbers.specs.Numbers.{i2osp, value};
    ghost use Rattle.big_numbers.specs.Montgomery.{IsPrepared};

    ghost Value = { List ℕ };

    ghost view = { λ m. i2osp (value (take m.count m.words)) m.size };

    ghost invariant = { λ m. IsPrepared m.words m.square m.count m.inverse m.size m.bits };
}

/// Whether octets are those of a modulus.
fn is_modulus(octets: &[u8]) -> bool
    ensures { IsTrue result ↔ IsModulus octets.now }
{
    let size = octets.len();
    if size == 0 {
        return false;
    }
    if size > OCTETS {
        return false;
    }
    if octets[0] == 0 {
        return false;
    }
    if octets[size - 1] % 2 == 0 {
        return false;
    }
    if size > 1 {
        return true;
    }
    octets[0] > 1
}

/// An exponent: a word, or octets, the highest first.
#[derive(Clone, Copy)]
enum Exponent<'a> {
    Word(u64),
    Octets(&'a [u8]),
}

/// Makes x the power of s to an exponent modulo n.
fn put_any_power(
    x: &mut [u64],
    s: &[u64],
    exponent: Exponent<'_>,
    n: &[u64],
    square: &[u64],
    inverse: u64,
)
    requires ready { IsReady n.now square.now inverse }
    requires x { length x.old ≡ length n.now }
    requires s { length s.now ≡ length n.now }
    requires below { value s.now < value n.now }
    ensures { value x.new ≡ value s.now ^ exponent_of exponent.entry % value n.now }
{
    match exponent {
        Exponent::Word(word) => put_power(x, s, word, n, square, inverse),
        Exponent::Octets(octets) => put_long_power(x, s, octets, n, square, inverse),
    }
}

/// Makes octets those of the power of a number, whose octets are `base`, modulo n, and returns whether that number is
/// below n: if it is not, there is no power. The rest is room for two numbers.
fn write_power(
    power: &mut [u8],
    base: &[u8],
    exponent: Exponent<'_>,
    n: &[u64],
    square: &[u64],
    inverse: u64,
    s: &mut [u64],
    x: &mut [u64],
) -> bool
    requires ready { IsReady n.now square.now inverse }
    requires power { length power.old ≤ 8 * length n.now }
    requires base { length base.now ≤ 8 * length n.now }
    requires fits { value n.now < 256 ^ length power.old }
    requires s { length s.old ≡ length n.now }
    requires x { length x.old ≡ length n.now }
    ensures below { IsTrue result ↔ (os2ip base.now < value n.now) }
    ensures power { IsTrue result
        → power.new ≡ i2osp (os2ip base.now ^ exponent_of exponent.entry % value n.now) (length power.old) }
{
    read_octets(s, base);
    if !is_less(s, n) {
        return false;
    }
    put_any_power(x, s, exponent, n, square, inverse);
    write_number(power, x);
    true
}

/// Makes octets those of the product of two numbers, given by octets, modulo n, and returns whether these are below n:
/// if they are not, there is no product. The rest is room for four numbers.
fn write_product(
    product: &mut [u8],
    factors: (&[u8], &[u8]),
    n: &[u64],
    square: &[u64],
    inverse: u64,
    a: &mut [u64],
    b: &mut [u64],
    x: &mut [u64],
    room: &mut [u64],
) -> bool
    requires ready { IsReady n.now square.now inverse }
    requires product { length product.old ≤ 8 * length n.now }
    requires first { length factors.0.now ≤ 8 * length n.now }
    requires second { length factors.1.now ≤ 8 * length n.now }
    requires fits { value n.now < 256 ^ length product.old }
    requires a { length a.old ≡ length n.now }
    requires b { length b.old ≡ length n.now }
    requires x { length x.old ≡ length n.now }
    requires room { length room.old ≡ length n.now }
    ensures below { IsTrue result
        ↔ ((os2ip factors.entry.0.now < value n.now) × (os2ip factors.entry.1.now < value n.now)) }
    ensures product { IsTrue result → product.new
        ≡ i2osp (os2ip factors.entry.0.now * os2ip factors.entry.1.now % value n.now) (length product.old) }
{
    read_octets(a, factors.0);
    read_octets(b, factors.1);
    if !is_less(a, n) {
        return false;
    }
    if !is_less(b, n) {
        return false;
    }
    put_product(x, a, b, n, square, inverse, room);
    write_number(product, x);
    true
}

impl Modulus {
    /// The modulus whose octets these are, the highest first.
    ///
    /// `None` unless it is odd, above 1 and of at most 1,024 octets, of which the first is not 0.
    pub fn new(octets: &[u8]) -> Option<Modulus>
        // A modulus that is returned is that of the octets.
        ensures found { IfSome result (λ m. IsModulus octets.now × (m ≡ octets.now)) }
        // That of the octets of a modulus is returned.
        ensures only { IsModulus octets.now → result ≡ Some octets.now }
    {
        if !is_modulus(octets) {
            return None;
        }
        let size = octets.len();
        let count = (size + 7) / 8;
        let mut words = [0u64; WORDS];
        let mut square = [0u64; WORDS];
        let mut room = [0u64; WORDS];
        read_octets(&mut words, octets);
        let inverse = negated_inverse(words[0]);
        square_of_base(
            &mut square[..count],
            &mut room[..count],
            &words[..count],
            inverse,
        );
        Some(Modulus {
            words,
            square,
            count,
            inverse,
            size,
            bits: 8 * size - octets[0].leading_zeros() as usize,
        })
    }

    /// How many octets it has: k of RFC 8017, at most 1,024.
    pub fn size(&self) -> usize
        // The modulus has so many octets.
        ensures count { result ≡ length self.now }
        // Its octets are those of a modulus: odd, above 1, the first not 0.
        ensures modulus { IsModulus self.now }
        // The modulus is below the power of 256 with this exponent.
        ensures fits { os2ip self.now < 256 ^ result }
    {
        self.size
    }

    /// How many bits it has.
    pub fn bits(&self) -> usize
        // It is what the function `bits_of` gives.
        ensures count { result ≡ bits_of self.now }
        // The octets are as many as these bits fill.
        ensures octets { (result + 7) / 8 ≡ length self.now }
        // The modulus is below the power of 2 with this exponent, and not below the one before.
        ensures bits { IsBits (os2ip self.now) result }
    {
        self.bits
    }

    // Makes `power` the octets of a power, as `power` and `long_power` do.
    fn raise(&self, power: &mut [u8], base: &[u8], exponent: Exponent<'_>) -> bool
        ensures below { IsTrue result ↔ ((length base.now ≡ length self.now)
            × (length power.old ≡ length self.now) × (os2ip base.now < os2ip self.now)) }
        ensures power { IsTrue result
            → power.new ≡ i2osp (os2ip base.now ^ exponent_of exponent.entry % os2ip self.now) (length self.now) }
    {
        let size = self.size();
        if base.len() != size {
            return false;
        }
        if power.len() != size {
            return false;
        }
        let count = self.count;
        let mut s = [0u64; WORDS];
        let mut x = [0u64; WORDS];
        write_power(
            power,
            base,
            exponent,
            &self.words[..count],
            &self.square[..count],
            self.inverse,
            &mut s[..count],
            &mut x[..count],
        )
    }

    /// Makes `power` the octets of a power modulo this number: of the number whose octets `base` are, the highest
    /// first.
    /// Returns false, and may leave any octets, if one of them has not as many octets as the modulus, or the number is
    /// not below it (RFC 8017, 5.2.2).
    pub fn power(&self, power: &mut [u8], base: &[u8], exponent: u64) -> bool
        // It is true exactly if `base` and `power` have as many octets as the modulus, and the number of `base` is
        // below it.
        ensures below { IsTrue result ↔ ((length base.now ≡ length self.now)
            × (length power.old ≡ length self.now) × (os2ip base.now < os2ip self.now)) }
        // If it is true, `power` has the octets of that number's power modulo this one.
        ensures power { IsTrue result
            → power.new ≡ i2osp (os2ip base.now ^ exponent % os2ip self.now) (length self.now) }
    {
        self.raise(power, base, Exponent::Word(exponent))
    }

    /// Makes `power` the octets of a power modulo this number, as `power` does, with an exponent of any length, whose
    /// octets are given, the highest first.
    pub fn long_power(&self, power: &mut [u8], base: &[u8], exponent: &[u8]) -> bool
        // It is true exactly if `base` and `power` have as many octets as the modulus, and the number of `base` is
        // below it.
        ensures below { IsTrue result ↔ ((length base.now ≡ length self.now)
            × (length power.old ≡ length self.now) × (os2ip base.now < os2ip self.now)) }
        // If it is true, `power` has the octets of that number's power modulo this one.
        ensures power { IsTrue result
            → power.new ≡ i2osp (os2ip base.now ^ os2ip exponent.now % os2ip self.now) (length self.now) }
    {
        self.raise(power, base, Exponent::Octets(exponent))
    }

    /// Makes `product` the octets of a product modulo this number: of the numbers whose octets `a` and `b` are, the
    /// highest first. Returns false, and may leave any octets, if one of the three has not as many octets as the
    /// modulus, or a number is not below it.
    pub fn product(&self, product: &mut [u8], a: &[u8], b: &[u8]) -> bool
        // It is true exactly if all three have as many octets as the modulus, and both numbers are below it.
        ensures below { IsTrue result ↔ ((length a.now ≡ length self.now) × (length b.now ≡ length self.now)
            × (length product.old ≡ length self.now)
            × (os2ip a.now < os2ip self.now) × (os2ip b.now < os2ip self.now)) }
        // If it is true, `product` has the octets of their product modulo this number.
        ensures product { IsTrue result
            → product.new ≡ i2osp (os2ip a.now * os2ip b.now % os2ip self.now) (length self.now) }
    {
        let size = self.size();
        if a.len() != size {
            return false;
        }
        if b.len() != size {
            return false;
        }
        if product.len() != size {
            return false;
        }
        let count = self.count;
        let mut first = [0u64; WORDS];
        let mut second = [0u64; WORDS];
        let mut x = [0u64; WORDS];
        let mut room = [0u64; WORDS];
        write_product(
            product,
            (a, b),
            &self.words[..count],
            &self.square[..count],
            self.inverse,
            &mut first[..count],
            &mut second[..count],
            &mut x[..count],
            &mut room[..count],
        )
    }
}
