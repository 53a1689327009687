//! The product by Montgomery.
ghost use Rattle.std.specs.Prelude.{◌≡◌, ◌+◌, ◌*◌, ◌%◌, ◌^◌, ◌<◌, length, slice_index};
ghost use Rattle.big_numbers.specs.Numbers.{value};
ghost use Rattle.big_numbers.specs.Montgomery.{IsReady};

use crate::differences::reduce_once;
use crate::rows::add_row;

/// Makes t the number that is a b modulo n once it is multiplied by the power of the base, of which n has so many
/// words.
pub(crate) fn multiply(t: &mut [u64], a: &[u64], b: &[u64], n: &[u64], inverse: u64)
    requires t { length t.old ≡ length n.now }
    requires a { length a.now ≡ length n.now }
    requires b { length b.now ≡ length n.now }
    requires below { value b.now < value n.now }
    requires inverse { (slice_index n.now 0 * inverse + 1) % 2 ^ 64 ≡ 0 }
    ensures length { length t.new ≡ length n.now }
    ensures below { value t.new < value n.now }
    ensures product { (value t.new * (2 ^ 64) ^ length n.now) % value n.now
        ≡ (value a.now * value b.now) % value n.now }
{
    t.fill(0);
    let mut top = 0;
    'rows: for i in 0..a.len() {
        top = add_row(t, top, a[i], b, n, inverse);
    }
    reduce_once(t, top, n);
}

/// Makes x the product of two numbers modulo n. The rest is room for a number.
pub(crate) fn put_product(
    x: &mut [u64],
    a: &[u64],
    b: &[u64],
    n: &[u64],
    square: &[u64],
    inverse: u64,
    room: &mut [u64],
)
    requires ready { IsReady n.now square.now inverse }
    requires x { length x.old ≡ length n.now }
    requires a { length a.now ≡ length n.now }
    requires b { length b.now ≡ length n.now }
    requires room { length room.old ≡ length n.now }
    requires a_below { value a.now < value n.now }
    requires b_below { value b.now < value n.now }
    ensures below { value x.new < value n.now }
    ensures product { value x.new ≡ value a.now * value b.now % value n.now }
{
    multiply(room, square, a, n, inverse);
    multiply(x, room, b, n, inverse);
}
