ghost use Rattle.std.specs.Prelude.{◌≡◌, ◌+◌, ◌*◌, ◌^◌, ◌≤◌};

/// Two words: a number below 2^128.
#[derive(Clone, Copy)]
pub struct Wide {
    /// The lower word.
    pub low: u64,
    /// The upper word.
    pub high: u64,
}

/// a b + c + d, for which two words always do.
pub fn multiply_add(a: u64, b: u64, c: u64, d: u64) -> Wide
    ensures { result.low + 2 ^ 64 * result.high ≡ a * b + c + d }
{
    let sum = u128::from(a) * u128::from(b) + u128::from(c) + u128::from(d);
    Wide {
        low: (sum & 0xffff_ffff_ffff_ffff) as u64,
        high: (sum >> 64) as u64,
    }
}

/// a + b + c, of which c is a carry.
pub fn add_carry(a: u64, b: u64, c: u64) -> Wide
    ensures { result.low + 2 ^ 64 * result.high ≡ a + b + c }
{
    let sum = u128::from(a) + u128::from(b) + u128::from(c);
    Wide {
        low: (sum & 0xffff_ffff_ffff_ffff) as u64,
        high: (sum >> 64) as u64,
    }
}

/// a - b - c, of which c is a borrow: `low`, less 2^64 if `high` is 1.
pub fn subtract_borrow(a: u64, b: u64, c: u64) -> Wide
    requires { c ≤ 1 }
    // The difference, and 2^64 if there is a borrow.
    ensures value { result.low + b + c ≡ a + 2 ^ 64 * result.high }
    // The upper word is a borrow.
    ensures borrow { result.high ≤ 1 }
{
    let rest = 0x1_0000_0000_0000_0000 + u128::from(a) - u128::from(b) - u128::from(c);
    Wide {
        low: (rest & 0xffff_ffff_ffff_ffff) as u64,
        high: 1 - (rest >> 64) as u64,
    }
}
