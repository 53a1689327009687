//! What comes after the whole blocks of a message: its last octets, the padding and the length (FIPS 180-4, 5.1).
ghost use Rattle.std.specs.Prelude.{◌≡◌, ◌+◌, ◌<◌, ◌≤◌, ◌∷◌, ◌++◌, length, replicate, take};

/// A bit 1, and zeros.
const PADDING: [u8; 128] = [
    0x80, 0, 0, 0, 0, 0, 0, 0, 0, 0, 0, 0, 0, 0, 0, 0, 0, 0, 0, 0, 0, 0, 0, 0, 0, 0, 0, 0, 0, 0, 0,
    0, 0, 0, 0, 0, 0, 0, 0, 0, 0, 0, 0, 0, 0, 0, 0, 0, 0, 0, 0, 0, 0, 0, 0, 0, 0, 0, 0, 0, 0, 0, 0,
    0, 0, 0, 0, 0, 0, 0, 0, 0, 0, 0, 0, 0, 0, 0, 0, 0, 0, 0, 0, 0, 0, 0, 0, 0, 0, 0, 0, 0, 0, 0, 0,
    0, 0, 0, 0, 0, 0, 0, 0, 0, 0, 0, 0, 0, 0, 0, 0, 0, 0, 0, 0, 0, 0, 0, 0, 0, 0, 0, 0, 0, 0, 0, 0,
    0,
];

/// The padding up to the length, with this many octets of zeros.
fn padding(zeros: usize) -> &'static [u8]
    requires { zeros < 128 }
    ensures { result.now ≡ 0x80 ∷ replicate zeros 0 }
{
    &PADDING[..zeros + 1]
}

/// Puts the last octets of a message, the padding with this many octets of zeros, and the length into room, one after
/// the other, and returns how many octets these are.
pub(crate) fn put_ending(last: &mut [u8], rest: &[u8], zeros: usize, bits: &[u8]) -> usize
    requires zeros { zeros < 128 }
    requires room { length rest.now + zeros + 1 + length bits.now ≤ length last.old }
    ensures count { result ≡ length rest.now + zeros + 1 + length bits.now }
    ensures octets { take result last.new ≡ (rest.now ++ 0x80 ∷ replicate zeros 0) ++ bits.now }
{
    let used = rest.len();
    last[..used].copy_from_slice(rest);
    let filling = padding(zeros);
    let at = used + filling.len();
    last[used..at].copy_from_slice(filling);
    last[at..at + bits.len()].copy_from_slice(bits);
    at + bits.len()
}
