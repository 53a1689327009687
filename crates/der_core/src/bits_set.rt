ghost use Rattle.std.specs.Prelude.{◌≡◌};
ghost use Rattle.der_core.specs.BitsSet.{has_bit};

use crate::bits::Bits;

impl<'a> Bits<'a> {
    /// Whether bit `n` is set. Bit 0 is the first: the high bit of the first octet after the count of unused bits
    /// (X.690 8.6.2). No bit after the last octet is set.
    pub fn has(&self, n: usize) -> bool
        ensures { result ≡ has_bit n self.now }
    {
        match self.bytes().get(1 + n / 8) {
            Some(octet) => *octet / (1u8 << (7 - n % 8)) % 2 == 1,
            None => false,
        }
    }
}
