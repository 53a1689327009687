ghost use Rattle.std.specs.Prelude.{◌≡◌, true, false, IfOk, IfErr};
ghost use Rattle.der_core.specs.Contents.{is_integer};
ghost use Rattle.der_core.specs.Reading.{Gives, fault, spot, integer_in};

use crate::fault::{Fault, Kind};
use std::marker::Model;

/// The contents of an INTEGER (X.690 8.3), kept unchanged: at least one octet of two's complement, the first nine bits
/// neither all 0 nor all 1. Contracts see the list of these octets.
#[derive(Debug, Drop)]
pub struct Int<'a> {
    octets: &'a [u8],
}

impl<'a> Model for Int<'a> {
    ghost use Rattle.std.specs.Prelude.{◌≡◌, ℕ, List, true};
    ghost use Rattle.der_core.specs.Contents.{is_integer};

    ghost Value = { List ℕ };

    ghost view = { λ i. i.octets.now };

    ghost invariant = { λ i. is_integer i.octets.now ≡ true };
}

fn is_integer(body: &[u8]) -> bool
    ensures { result ≡ is_integer body.now }
{
    match body {
        [] => false,
        [_] => true,
        [first, second, ..] => {
            !(*first == 0 && *second < 128) && !(*first == 255 && *second >= 128)
        }
    }
}

impl<'a> Int<'a> {
    /// The INTEGER whose contents are `body`, octets that start at position `at` of the input.
    ///
    /// Faults: `Integer` at `at`, exactly when they are not the contents of an INTEGER.
    pub fn read(body: &'a [u8], at: u64) -> Result<Int<'a>, Fault>
        // Returns these octets, which are the contents of an INTEGER.
        ensures found { IfOk result (λ i. (i ≡ body.now) × (is_integer body.now ≡ true)) }
        // The fault is `Integer` at `at`, and the octets are no contents of an INTEGER.
        ensures fault { IfErr result (λ f. (f ≡ fault Kind.Integer at) × (is_integer body.now ≡ false)) }
        // Returns the value or the fault that the reading of this type gives.
        ensures exact { Gives (λ i. i) result (integer_in (spot at body.now)) }
    {
        if is_integer(body) {
            Ok(Int { octets: body })
        } else {
            Err(Fault::new(Kind::Integer, at))
        }
    }

    /// The contents octets.
    pub fn bytes(&self) -> &'a [u8]
        // Returns the contents.
        ensures octets { result.now ≡ self.now }
        // They are the contents of an INTEGER.
        ensures formed { is_integer self.now ≡ true }
    {
        self.octets
    }

    /// The same INTEGER again.
    pub fn again(&self) -> Int<'a>
        ensures { result ≡ self.now }
    {
        Int {
            octets: self.octets,
        }
    }
}
