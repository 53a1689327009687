//! Octets compared.
ghost use Rattle.std.specs.Prelude.{◌≡◌};
ghost use Rattle.der_core.specs.Lists.{is_same};

/// Whether these are the same octets.
pub(crate) fn is_same(octets: &[u8], others: &[u8]) -> bool
    ensures { result ≡ is_same octets.now others.now }
{
    octets == others
}
