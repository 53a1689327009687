ghost use Rattle.std.specs.Prelude.{◌≡◌, ◌+◌, ◌<◌, length};
ghost use Rattle.der_core.specs.Lists.{every};
ghost use Rattle.der_core.specs.Times.{is_digit, pair};

/// Whether each octet is a decimal digit.
pub(crate) fn are_digits(octets: &[u8]) -> bool
    ensures { result ≡ every is_digit octets.now }
{
    for octet in octets {
        if *octet < b'0' || *octet > b'9' {
            return false;
        }
    }
    true
}

/// The number that the two digits at `at` and after it make.
pub(crate) fn pair(octets: &[u8], at: usize) -> u32
    requires { at + 1 < length octets.now }
    ensures pair { result ≡ pair octets.now at }
    ensures small { result < 2278 }
{
    let tens = octets[at].saturating_sub(b'0') as u32;
    let ones = octets[at + 1].saturating_sub(b'0') as u32;
    10 * tens + ones
}
