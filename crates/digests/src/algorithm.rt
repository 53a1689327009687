ghost use Rattle.std.specs.Prelude.{◌≡◌, ◌↔◌, IsTrue, IfSome, option_map};
ghost use Rattle.digests.specs.Algorithms.{IsPlain, Names, contents_of, length_of, name_of};
ghost use Rattle.digests.specs.Named.{alg_named};

use der_core::Oid;

/// A digest algorithm of the Secure Hash Standard.
#[derive(Clone, Copy, Debug, PartialEq, Eq)]
pub enum Alg {
    /// SHA-1, 20 octets.
    Sha1,
    /// SHA-224, 28 octets.
    Sha224,
    /// SHA-256, 32 octets.
    Sha256,
    /// SHA-384, 48 octets.
    Sha384,
    /// SHA-512, 64 octets.
    Sha512,
    /// SHA-512/224, 28 octets.
    Sha512_224,
    /// SHA-512/256, 32 octets.
    Sha512_256,
}

/// NULL, as a whole element.
const NULL: [u8; 2] = [5, 0];

/// The algorithm that an object identifier of these contents octets names.
fn identified(contents: &[u8]) -> Option<Alg>
    ensures found { IfSome result (λ alg. contents.now ≡ contents_of alg) }
    ensures only { (alg : Alg) → contents.now ≡ contents_of alg → result ≡ Some alg }
{
    if contents == Alg::Sha1.oid_contents() {
        Some(Alg::Sha1)
    } else if contents == Alg::Sha224.oid_contents() {
        Some(Alg::Sha224)
    } else if contents == Alg::Sha256.oid_contents() {
        Some(Alg::Sha256)
    } else if contents == Alg::Sha384.oid_contents() {
        Some(Alg::Sha384)
    } else if contents == Alg::Sha512.oid_contents() {
        Some(Alg::Sha512)
    } else if contents == Alg::Sha512_224.oid_contents() {
        Some(Alg::Sha512_224)
    } else if contents == Alg::Sha512_256.oid_contents() {
        Some(Alg::Sha512_256)
    } else {
        None
    }
}

/// Whether parameters have no meaning: absent, or NULL.
fn is_plain(parameters: Option<&[u8]>) -> bool
    ensures { IsTrue result ↔ IsPlain (option_map (λ p. p.now) parameters.entry) }
{
    match parameters {
        None => true,
        Some(octets) => octets == NULL.as_slice(),
    }
}

impl Alg {
    /// The algorithm that an AlgorithmIdentifier names: the one with this object identifier, if the parameters, as a
    /// whole element, are absent or NULL (RFC 3370, 2.1; RFC 5754, 2).
    pub fn of(oid: &Oid, parameters: Option<&[u8]>) -> Option<Alg>
        // An algorithm that is returned is the one that is named.
        ensures found { IfSome result (λ alg. Names oid.now (option_map (λ p. p.now) parameters.entry) alg) }
        // An algorithm that is named is returned.
        ensures only { (alg : Alg) → Names oid.now (option_map (λ p. p.now) parameters.entry) alg → result ≡ Some alg }
        // It is what the function `alg_named` gives.
        ensures named { result ≡ alg_named
            (record { oid = oid.now; parameters = option_map (λ p. p.now) parameters.entry }) }
    {
        if is_plain(parameters) {
            identified(oid.bytes())
        } else {
            None
        }
    }

    /// The algorithm with this name, one of those that `name` returns.
    pub fn named(name: &str) -> Option<Alg>
        // An algorithm that is returned has this name.
        ensures found { IfSome result (λ alg. name.now ≡ name_of alg) }
        // An algorithm that has this name is returned.
        ensures only { (alg : Alg) → name.now ≡ name_of alg → result ≡ Some alg }
    {
        match name {
            "sha1" => Some(Alg::Sha1),
            "sha224" => Some(Alg::Sha224),
            "sha256" => Some(Alg::Sha256),
            "sha384" => Some(Alg::Sha384),
            "sha512" => Some(Alg::Sha512),
            "sha512-224" => Some(Alg::Sha512_224),
            "sha512-256" => Some(Alg::Sha512_256),
            _ => None,
        }
    }

    /// The name: `sha1`, `sha224`, `sha256`, `sha384`, `sha512`, `sha512-224` or `sha512-256`.
    pub fn name(self) -> &'static str
        ensures { result.now ≡ name_of self }
    {
        match self {
            Alg::Sha1 => "sha1",
            Alg::Sha224 => "sha224",
            Alg::Sha256 => "sha256",
            Alg::Sha384 => "sha384",
            Alg::Sha512 => "sha512",
            Alg::Sha512_224 => "sha512-224",
            Alg::Sha512_256 => "sha512-256",
        }
    }

    /// How many octets a digest has.
    pub fn length(self) -> usize
        ensures { result ≡ length_of self }
    {
        match self {
            Alg::Sha1 => 20,
            Alg::Sha224 => 28,
            Alg::Sha256 => 32,
            Alg::Sha384 => 48,
            Alg::Sha512 => 64,
            Alg::Sha512_224 => 28,
            Alg::Sha512_256 => 32,
        }
    }

    /// The contents octets of the object identifier.
    pub fn oid_contents(self) -> &'static [u8]
        ensures { result.now ≡ contents_of self }
    {
        match self {
            Alg::Sha1 => b"\x2b\x0e\x03\x02\x1a",
            Alg::Sha224 => b"\x60\x86\x48\x01\x65\x03\x04\x02\x04",
            Alg::Sha256 => b"\x60\x86\x48\x01\x65\x03\x04\x02\x01",
            Alg::Sha384 => b"\x60\x86\x48\x01\x65\x03\x04\x02\x02",
            Alg::Sha512 => b"\x60\x86\x48\x01\x65\x03\x04\x02\x03",
            Alg::Sha512_224 => b"\x60\x86\x48\x01\x65\x03\x04\x02\x05",
            Alg::Sha512_256 => b"\x60\x86\x48\x01\x65\x03\x04\x02\x06",
        }
    }
}
