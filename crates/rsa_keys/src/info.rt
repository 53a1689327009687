//! SubjectPublicKeyInfo (RFC 5280 4.1.2.7).
ghost use Rattle.std.specs.Prelude.{◌≡◌};
ghost use Rattle.der_core.specs.Reading.{Gives};
ghost use Rattle.rsa_keys.specs.KeyReading.{info_at, info_in};

use der_core::tags::{BIT_STRING, SEQUENCE};
use der_core::{AlgorithmIdentifier, Bits, Cursor, Fault};

// SubjectPublicKeyInfo ::= SEQUENCE { algorithm AlgorithmIdentifier, subjectPublicKey BIT STRING }
#[tactic(auto, unfolding(crate::specs::KeyReading::info_in))]
fn fields_of<'a>(mut parts: Cursor<'a>) -> Result<(AlgorithmIdentifier<'a>, Bits<'a>), Fault>
    ensures { Gives (λ p. (p.0, p.1)) result (info_in parts.entry) }
{
    let algorithm = parts.algorithm()?;
    let key = parts.bits(BIT_STRING)?;
    parts.end()?;
    Ok((algorithm, key))
}

/// The algorithm of a key, and the BIT STRING.
#[tactic(auto, unfolding(crate::specs::KeyReading::info_at))]
pub(crate) fn read_info(octets: &[u8]) -> Result<(AlgorithmIdentifier<'_>, Bits<'_>), Fault>
    ensures { Gives (λ p. (p.0, p.1)) result (info_at octets.now) }
{
    let mut whole = Cursor::new(octets, 0);
    let info = fields_of(whole.enter(SEQUENCE)?)?;
    whole.end()?;
    Ok(info)
}
