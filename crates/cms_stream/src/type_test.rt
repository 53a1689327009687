ghost use Rattle.std.specs.Prelude.{◌≡◌, ◌&&◌, ℕ, List, [], ◌∷◌};
ghost use Rattle.der_core.specs.Lists.{is_same};
ghost use Rattle.der_grammar.specs.Table.{id_signed_data};
ghost use Rattle.cms_stream.specs.Oids.{Tested};
ghost use Rattle.cms_stream.specs.Types.{Compared};

use crate::oid::OidTest;
use crate::taker::Taker;

/// Whether octets that pass, piece by piece, are the contents of id-signedData (RFC 5652 5.1).
#[derive(Drop)]
pub(crate) struct SignedDataTest<'a> {
    left: &'a [u8],
    same: bool,
}

impl<'a> SignedDataTest<'a> {
    /// The test before any octet has passed.
    pub(crate) fn new(id: &'a [u8]) -> SignedDataTest<'a>
        requires { id.now ≡ id_signed_data }
        ensures { Compared result [] }
    {
        SignedDataTest {
            left: id,
            same: true,
        }
    }

    fn step(&mut self, octet: u8)
        ensures { (zs : List ℕ) → (self.old.same && is_same self.old.left.now (octet ∷ zs))
            ≡ (self.new.same && is_same self.new.left.now zs) }
    {
        match self.left {
            [first, after @ ..] => {
                self.same = self.same && *first == octet;
                self.left = after;
            }
            [] => self.same = false,
        }
    }

    /// Whether the octets that passed are those.
    pub(crate) fn is_whole(&self) -> bool
        ensures { (m : List ℕ) → Compared self.now m → is_same id_signed_data m ≡ result }
    {
        self.same && self.left.is_empty()
    }
}

impl<'a> Taker for SignedDataTest<'a> {
    ghost held = { λ t m. Compared t m };

    fn take(&mut self, octets: &[u8]) {
        for octet in octets {
            self.step(*octet);
        }
    }
}

/// Both tests of a contentType (RFC 5652 3) as it passes: that it is an OBJECT IDENTIFIER, and that it is
/// id-signedData.
#[derive(Drop)]
pub(crate) struct TypeTest<'a> {
    pub(crate) oid: OidTest,
    pub(crate) signed_data: SignedDataTest<'a>,
}

impl<'a> TypeTest<'a> {
    /// The tests before any octet has passed.
    pub(crate) fn new(id: &'a [u8]) -> TypeTest<'a>
        requires { id.now ≡ id_signed_data }
        ensures oid { Tested result.oid [] }
        ensures signed_data { Compared result.signed_data [] }
    {
        TypeTest {
            oid: OidTest::new(),
            signed_data: SignedDataTest::new(id),
        }
    }
}

impl<'a> Taker for TypeTest<'a> {
    ghost held = { λ t m. Tested t.oid m × Compared t.signed_data m };

    fn take(&mut self, octets: &[u8]) {
        self.oid.take(octets);
        self.signed_data.take(octets);
    }
}
