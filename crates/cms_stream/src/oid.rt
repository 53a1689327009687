ghost use Rattle.std.specs.Prelude.{◌≡◌, ℕ, ◌&&◌, List, []};
ghost use Rattle.der_core.specs.Contents.{is_oid};
ghost use Rattle.cms_stream.specs.Oids.{Tested, oid_from, Steps};

use crate::taker::Taker;

/// Whether octets that pass, piece by piece, are the contents of an OBJECT IDENTIFIER: one or more subidentifiers, none
/// of which begins with 80 (hexadecimal), and the last of which is complete (X.690 8.19).
#[derive(Drop)]
pub(crate) struct OidTest {
    started: bool,
    begins: bool,
    sound: bool,
}

impl OidTest {
    /// The test before any octet has passed.
    pub(crate) fn new() -> OidTest
        ensures { Tested result [] }
    {
        OidTest {
            started: false,
            begins: true,
            sound: true,
        }
    }

    fn step(&mut self, octet: u8)
        ensures { Steps self.old octet self.new }
    {
        self.sound = self.sound && !(self.begins && octet == 128);
        self.started = true;
        self.begins = octet < 128;
    }

    /// Whether the octets that passed are such contents.
    #[tactic(auto, unfolding(crate::specs::Oids::oid_from))]
    pub(crate) fn is_whole(&self) -> bool
        ensures state { result ≡ (self.now.sound && oid_from self.now.started self.now.begins []) }
        ensures whole { (m : List ℕ) → Tested self.now m → is_oid m ≡ result }
    {
        self.sound && (self.started && self.begins)
    }
}

impl Taker for OidTest {
    ghost held = { λ t m. Tested t m };

    fn take(&mut self, octets: &[u8]) {
        for octet in octets {
            self.step(*octet);
        }
    }
}
