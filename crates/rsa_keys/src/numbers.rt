//! RSAPublicKey (RFC 8017 A.1.1).
ghost use Rattle.std.specs.Prelude.{◌≡◌, option_map};
ghost use Rattle.der_core.specs.Reading.{Gives};
ghost use Rattle.rsa_keys.specs.KeyReading.{key_numbers, numbers_at, numbers_in, unsigned};

use der_core::tags::SEQUENCE;
use der_core::{Cursor, Fault, Int};

// RSAPublicKey ::= SEQUENCE { modulus INTEGER, publicExponent INTEGER }
#[tactic(auto, unfolding(crate::specs::KeyReading::numbers_in))]
fn fields_of<'a>(mut parts: Cursor<'a>) -> Result<(Int<'a>, Int<'a>), Fault>
    ensures { Gives (λ p. (p.0, p.1)) result (numbers_in parts.entry) }
{
    let modulus = parts.integer()?;
    let exponent = parts.integer()?;
    parts.end()?;
    Ok((modulus, exponent))
}

/// The two INTEGERs of an RSAPublicKey.
#[tactic(auto, unfolding(crate::specs::KeyReading::numbers_at))]
fn read_numbers(octets: &[u8]) -> Result<(Int<'_>, Int<'_>), Fault>
    ensures { Gives (λ p. (p.0, p.1)) result (numbers_at octets.now) }
{
    let mut whole = Cursor::new(octets, 0);
    let numbers = fields_of(whole.enter(SEQUENCE)?)?;
    whole.end()?;
    Ok(numbers)
}

/// The octets of the number whose contents these are, if it is above 0 (X.690 8.3): an octet 0 is left out that is
/// there since the first bit of the others is 1.
fn unsigned(contents: &[u8]) -> Option<&[u8]>
    ensures { option_map (λ o. o.now) result ≡ unsigned contents.now }
{
    match contents {
        [0, rest @ ..] => match rest {
            [first, ..] if *first >= 128 => Some(rest),
            _ => None,
        },
        [first, ..] if *first < 128 => Some(contents),
        _ => None,
    }
}

/// The octets of n and e in the contents of a BIT STRING, of which no bits are unused.
#[tactic(auto, unfolding(crate::specs::KeyReading::key_numbers))]
pub(crate) fn key_numbers(contents: &[u8]) -> Option<(&[u8], &[u8])>
    ensures { option_map (λ p. (p.0.now, p.1.now)) result ≡ key_numbers contents.now }
{
    match contents {
        [0, key @ ..] => match read_numbers(key) {
            Ok((modulus, exponent)) => {
                let n = unsigned(modulus.bytes())?;
                let e = unsigned(exponent.bytes())?;
                Some((n, e))
            }
            Err(_) => None,
        },
        _ => None,
    }
}
