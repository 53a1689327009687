ghost use Rattle.std.specs.Prelude.{◌≡◌, ◌<◌, ◌%◌, ◌^◌, ◌==◌, true, false, IfOk, IfErr};
ghost use Rattle.der_core.specs.Contents.{is_bits};
ghost use Rattle.der_core.specs.Reading.{Gives, fault, spot, bits_in};

use crate::fault::{Fault, Kind};
use std::marker::Model;

/// The contents of a BIT STRING (X.690 8.6), kept unchanged: the number of unused bits, 0 to 7, and then octets whose
/// last unused bits are 0 (X.690 11.2). Contracts see the list of all these octets.
#[derive(Debug, Drop)]
pub struct Bits<'a> {
    octets: &'a [u8],
}

impl<'a> Model for Bits<'a> {
    ghost use Rattle.std.specs.Prelude.{◌≡◌, ℕ, List, true};
    ghost use Rattle.der_core.specs.Contents.{is_bits};

    ghost Value = { List ℕ };

    ghost view = { λ b. b.octets.now };

    ghost invariant = { λ b. is_bits b.octets.now ≡ true };
}

// Whether the last `unused` bits of the octet are 0.
fn ends_in_zeros(unused: u8, octet: u8) -> bool
    requires { unused < 8 }
    ensures { result ≡ (octet % (2 ^ unused) == 0) }
{
    octet % (1u8 << unused) == 0
}

fn is_bits(body: &[u8]) -> bool
    ensures { result ≡ is_bits body.now }
{
    match body {
        [] => false,
        [unused] => *unused == 0,
        [unused, .., last] => *unused < 8 && ends_in_zeros(*unused, *last),
    }
}

impl<'a> Bits<'a> {
    /// The BIT STRING whose contents are `body`, octets that start at position `at` of the input.
    ///
    /// Faults: `Bits` at `at`, exactly when they are not the contents of a BIT STRING.
    pub fn read(body: &'a [u8], at: u64) -> Result<Bits<'a>, Fault>
        // Returns these octets, which are the contents of a BIT STRING.
        ensures found { IfOk result (λ b. (b ≡ body.now) × (is_bits body.now ≡ true)) }
        // The fault is `Bits` at `at`, and the octets are no contents of a BIT STRING.
        ensures fault { IfErr result (λ f. (f ≡ fault Kind.Bits at) × (is_bits body.now ≡ false)) }
        // Returns the value or the fault that the reading of this type gives.
        ensures exact { Gives (λ b. b) result (bits_in (spot at body.now)) }
    {
        if is_bits(body) {
            Ok(Bits { octets: body })
        } else {
            Err(Fault::new(Kind::Bits, at))
        }
    }

    /// The contents octets, the number of unused bits first.
    pub fn bytes(&self) -> &'a [u8]
        // Returns the contents.
        ensures octets { result.now ≡ self.now }
        // They are the contents of a BIT STRING.
        ensures formed { is_bits self.now ≡ true }
    {
        self.octets
    }
}
