//! Which of two numbers is less, and the rest of a number that is below twice the modulus.
ghost use Rattle.std.specs.Prelude.{◌≡◌, ◌+◌, ◌*◌, ◌%◌, ◌^◌, ◌<◌, ◌↔◌, ◌⊎◌, IsTrue, length};
ghost use Rattle.std.specs.Int.{from_bool};
ghost use Rattle.big_numbers.specs.Numbers.{value};

/// Whether a number with a word x above a rest is less than one with a word y, from whether its rest is.
#[inline(always)]
fn is_less_with(x: u64, y: u64, rest: bool) -> bool
    ensures { IsTrue result ↔ ((x < y) ⊎ ((x ≡ y) × IsTrue rest)) }
{
    x < y || (x == y && rest)
}

/// Whether the first of two numbers of as many words is less than the second.
pub(crate) fn is_less(a: &[u64], b: &[u64]) -> bool
    requires { length b.now ≡ length a.now }
    ensures { IsTrue result ↔ (value a.now < value b.now) }
{
    let mut less = false;
    'words: for i in 0..a.len() {
        less = is_less_with(a[i], b[i], less);
    }
    less
}

/// Takes a number off another, and says whether it was larger than that.
fn subtract(t: &mut [u64], n: &[u64]) -> bool
    requires { length n.now ≡ length t.old }
    ensures { value t.new + value n.now ≡ value t.old + (2 ^ 64) ^ length t.old * from_bool result }
{
    let mut borrow = false;
    'words: for i in 0..t.len() {
        let (word, under) = t[i].borrowing_sub(n[i], borrow);
        t[i] = word;
        borrow = under;
    }
    borrow
}

/// Makes a number, of which `top` is the highest word, its rest modulo n.
pub(crate) fn reduce_once(t: &mut [u64], top: u64, n: &[u64])
    requires length { length n.now ≡ length t.old }
    requires below { value t.old + (2 ^ 64) ^ length t.old * top < 2 * value n.now }
    ensures { value t.new ≡ (value t.old + (2 ^ 64) ^ length t.old * top) % value n.now }
{
    if top != 0 || !is_less(t, n) {
        let _larger = subtract(t, n);
    }
}
