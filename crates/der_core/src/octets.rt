//! Comparisons of octets, and what the first of them says of an element.
ghost use Rattle.std.specs.Prelude.{◌≡◌, ◌==◌};
ghost use Rattle.der_core.specs.Element.{is_tag, has_tag};
ghost use Rattle.der_core.specs.Lists.{some, is_same, is_less};

/// Whether these are the same octets.
pub fn is_same(octets: &[u8], others: &[u8]) -> bool
    ensures { result ≡ is_same octets.now others.now }
{
    octets == others
}

/// Whether the first octets are before the second in byte order: at the first octet in which they differ the first have
/// the lesser one, or the first end there.
pub fn is_less(octets: &[u8], others: &[u8]) -> bool
    ensures { result ≡ is_less octets.now others.now }
{
    octets < others
}

/// Whether the octet is one of these.
pub fn is_one_of(octet: u8, octets: &[u8]) -> bool
    ensures { result ≡ some (λ u. u == octet) octets.now }
{
    for other in octets {
        if *other == octet {
            return true;
        }
    }
    false
}

/// Whether an element can begin with this octet: its low five bits are not all one, and it is not 00 (X.690 8.1.2).
pub fn is_tag(octet: u8) -> bool
    ensures { result ≡ is_tag octet }
{
    octet % 32 != 31 && octet != 0
}

/// Whether the first of the octets is the identifier `tag`.
pub fn has_tag(octets: &[u8], tag: u8) -> bool
    ensures { result ≡ has_tag tag octets.now }
{
    match octets {
        [first, ..] => *first == tag,
        [] => false,
    }
}
