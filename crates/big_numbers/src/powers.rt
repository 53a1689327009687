//! Powers modulo an odd number.
ghost use Rattle.std.specs.Prelude.{◌≡◌, ℕ, ◌+◌, ◌-◌, ◌*◌, ◌/◌, ◌%◌, ◌^◌, ◌<◌, ◌≤◌, length, slice_index};
ghost use Rattle.big_numbers.specs.Numbers.{os2ip, value};
ghost use Rattle.big_numbers.specs.Montgomery.{IsReady, form};
ghost use Rattle.std.specs.Int.{from_bool};

use crate::doublings::double_often;
use crate::products::multiply;

/// How many words a modulus has at most.
pub(crate) const WORDS: usize = 128;

/// Makes x its product with a factor by Montgomery.
fn times(x: &mut [u64], factor: &[u64], room: &mut [u64], n: &[u64], inverse: u64)
    requires x { length x.old ≡ length n.now }
    requires factor { length factor.now ≡ length n.now }
    requires room { length room.old ≡ length n.now }
    requires below { value factor.now < value n.now }
    requires inverse { (slice_index n.now 0 * inverse + 1) % 2 ^ 64 ≡ 0 }
    ensures below { value x.new < value n.now }
    ensures product { (value x.new * (2 ^ 64) ^ length n.now) % value n.now
        ≡ (value x.old * value factor.now) % value n.now }
{
    multiply(room, x, factor, n, inverse);
    x.copy_from_slice(room);
}

/// Makes x its square by Montgomery.
fn square(x: &mut [u64], room: &mut [u64], n: &[u64], inverse: u64)
    requires x { length x.old ≡ length n.now }
    requires room { length room.old ≡ length n.now }
    requires below { value x.old < value n.now }
    requires inverse { (slice_index n.now 0 * inverse + 1) % 2 ^ 64 ≡ 0 }
    ensures below { value x.new < value n.now }
    ensures product { (value x.new * (2 ^ 64) ^ length n.now) % value n.now
        ≡ (value x.old * value x.old) % value n.now }
{
    multiply(room, x, x, n, inverse);
    x.copy_from_slice(room);
}

/// Makes x the square of the power of the base, of which n has so many words, modulo n.
pub(crate) fn square_of_base(x: &mut [u64], room: &mut [u64], n: &[u64], inverse: u64)
    requires x { length x.old ≡ length n.now }
    requires room { length room.old ≡ length n.now }
    requires few { length n.now ≤ 128 }
    requires odd { value n.now % 2 ≡ 1 }
    requires long { (2 ^ 64) ^ (length n.now - 1) < value n.now }
    requires inverse { (slice_index n.now 0 * inverse + 1) % 2 ^ 64 ≡ 0 }
    ensures length { length x.new ≡ length n.now }
    ensures below { value x.new < value n.now }
    ensures form { value x.new ≡ form n.now ((2 ^ 64) ^ length n.now) }
{
    x.fill(0);
    x[n.len() - 1] = 1;
    double_often(x, 64 + n.len(), n);
    'squares: for _done in 0..6usize {
        square(x, room, n, inverse);
    }
}

/// From the form of a power of a number, with that of the number as base, makes that of its square, times the number if
/// that is wanted.
fn next_power(
    x: &mut [u64],
    base: &[u64],
    room: &mut [u64],
    n: &[u64],
    inverse: u64,
    is_wanted: bool,
)
    requires x { length x.old ≡ length n.now }
    requires base { length base.now ≡ length n.now }
    requires room { length room.old ≡ length n.now }
    requires odd { value n.now % 2 ≡ 1 }
    requires below { value x.old < value n.now }
    requires base_below { value base.now < value n.now }
    requires inverse { (slice_index n.now 0 * inverse + 1) % 2 ^ 64 ≡ 0 }
    ensures below { value x.new < value n.now }
    ensures form { (s k : ℕ) → value base.now ≡ form n.now s → value x.old ≡ form n.now (s ^ k)
        → value x.new ≡ form n.now (s ^ (2 * k + from_bool is_wanted)) }
{
    square(x, room, n, inverse);
    if is_wanted {
        times(x, base, room, n, inverse);
    }
}

/// Makes x the power of s to e modulo n.
pub(crate) fn put_power(x: &mut [u64], s: &[u64], e: u64, n: &[u64], square: &[u64], inverse: u64)
    requires ready { IsReady n.now square.now inverse }
    requires x { length x.old ≡ length n.now }
    requires s { length s.now ≡ length n.now }
    requires below { value s.now < value n.now }
    ensures { value x.new ≡ value s.now ^ e % value n.now }
{
    if e == 0 {
        x.fill(0);
        x[0] = 1;
        return;
    }
    let mut words = [0u64; WORDS];
    let mut more = [0u64; WORDS];
    let room = &mut words[..n.len()];
    let base = &mut more[..n.len()];
    multiply(base, square, s, n, inverse);
    x.copy_from_slice(base);
    let mut i = 63 - e.leading_zeros();
    'bits: while i > 0 {
        i -= 1;
        next_power(x, base, room, n, inverse, (e >> i) & 1 == 1);
    }
    base.fill(0);
    base[0] = 1;
    room.copy_from_slice(x);
    multiply(x, room, base, n, inverse);
}

/// From the form of a power of a number, with that of the number as base, makes that of the power whose exponent has
/// this octet more.
fn next_octet(x: &mut [u64], base: &[u64], room: &mut [u64], n: &[u64], inverse: u64, octet: u8)
    requires x { length x.old ≡ length n.now }
    requires base { length base.now ≡ length n.now }
    requires room { length room.old ≡ length n.now }
    requires odd { value n.now % 2 ≡ 1 }
    requires below { value x.old < value n.now }
    requires base_below { value base.now < value n.now }
    requires inverse { (slice_index n.now 0 * inverse + 1) % 2 ^ 64 ≡ 0 }
    ensures below { value x.new < value n.now }
    ensures form { (s k : ℕ) → value base.now ≡ form n.now s → value x.old ≡ form n.now (s ^ k)
        → value x.new ≡ form n.now (s ^ (k * 256 + octet)) }
{
    'bits: for i in 0..8u32 {
        next_power(x, base, room, n, inverse, (octet >> (7 - i)) & 1 == 1);
    }
}

/// Makes x the power of s to the number of octets, the highest first, modulo n.
pub(crate) fn put_long_power(
    x: &mut [u64],
    s: &[u64],
    exponent: &[u8],
    n: &[u64],
    square: &[u64],
    inverse: u64,
)
    requires ready { IsReady n.now square.now inverse }
    requires x { length x.old ≡ length n.now }
    requires s { length s.now ≡ length n.now }
    requires below { value s.now < value n.now }
    ensures { value x.new ≡ value s.now ^ os2ip exponent.now % value n.now }
{
    let mut words = [0u64; WORDS];
    let mut more = [0u64; WORDS];
    let room = &mut words[..n.len()];
    let base = &mut more[..n.len()];
    multiply(base, square, s, n, inverse);
    room.fill(0);
    room[0] = 1;
    multiply(x, square, room, n, inverse);
    'octets: for i in 0..exponent.len() {
        next_octet(x, base, room, n, inverse, exponent[i]);
    }
    base.fill(0);
    base[0] = 1;
    room.copy_from_slice(x);
    multiply(x, room, base, n, inverse);
}
