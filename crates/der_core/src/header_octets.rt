ghost use Rattle.std.specs.Prelude.{◌≡◌, ◌≤◌, length};

use std::fmt;
use std::marker::Model;
use thiserror::Error;

/// The identifier octet and the length octets of an element (X.690 8.1.2, 8.1.3), which precede its contents. Contracts
/// see the list of these octets.
#[derive(Debug, Drop)]
pub struct Header {
    pub(crate) octets: [u8; 6],
    pub(crate) count: usize,
}

impl Model for Header {
    ghost use Rattle.std.specs.Prelude.{ℕ, List, ◌≤◌, take};

    ghost Value = { List ℕ };

    ghost view = { λ h. take h.count h.octets };

    ghost invariant = { λ h. (2 ≤ h.count) × (h.count ≤ 6) };
}

/// The contents are longer than four length octets can state: more than 4,294,967,295 octets.
#[derive(Clone, Copy, Debug, PartialEq, Eq, Error)]
pub struct TooLong;

impl fmt::Display for TooLong {
    ghost use Rattle.std.specs.Prelude.{Some, codes};

    ghost output = { λ _. Some (codes "too long") };

    fn fmt<W: fmt::Write>(&self, f: &mut fmt::Formatter<W>) -> fmt::Result {
        f.write_str("too long")
    }
}

impl Header {
    /// The octets, two to six.
    pub fn bytes(&self) -> &[u8]
        // Exactly these octets.
        ensures octets { result.now ≡ self.now }

        // An identifier octet, and one to five length octets.
        ensures count { (2 ≤ length self.now) × (length self.now ≤ 6) }
    {
        &self.octets[..self.count]
    }
}
