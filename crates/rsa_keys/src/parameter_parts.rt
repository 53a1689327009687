//! The parts of parameters of RSASSA-PSS.
ghost use Rattle.std.specs.Prelude.{◌≡◌};
ghost use Rattle.der_core.specs.Reading.{Gives};
ghost use Rattle.rsa_keys.specs.ParameterReading.{explicit_algorithm_in, explicit_integer_in, parts_at, parts_in};
ghost use Rattle.rsa_keys.specs.ParameterReading.{algorithm_at};
ghost use Rattle.rsa_keys.specs.ParameterFields.{parts_value};

use der_core::tags::SEQUENCE;
use der_core::{AlgorithmIdentifier, Cursor, Fault, Int};

/// The identifier octets of the parts.
const HASH: u8 = 0xa0;

const MASK: u8 = 0xa1;

const SALT: u8 = 0xa2;

const TRAILER: u8 = 0xa3;

/// The parts, each of which may be absent.
#[derive(Debug, Drop)]
pub(crate) struct Parts<'a> {
    pub hash: Option<AlgorithmIdentifier<'a>>,
    pub mask: Option<AlgorithmIdentifier<'a>>,
    pub salt: Option<Int<'a>>,
    pub trailer: Option<Int<'a>>,
}

#[tactic(auto, unfolding(crate::specs::ParameterReading::explicit_algorithm_in))]
fn algorithm_of<'a>(mut inside: Cursor<'a>) -> Result<AlgorithmIdentifier<'a>, Fault>
    ensures { Gives (λ a. a) result (explicit_algorithm_in inside.entry) }
{
    let algorithm = inside.algorithm()?;
    inside.end()?;
    Ok(algorithm)
}

#[tactic(auto, unfolding(crate::specs::ParameterReading::explicit_integer_in))]
fn integer_of<'a>(mut inside: Cursor<'a>) -> Result<Int<'a>, Fault>
    ensures { Gives (λ i. i) result (explicit_integer_in inside.entry) }
{
    let integer = inside.integer()?;
    inside.end()?;
    Ok(integer)
}

// RSASSA-PSS-params ::= SEQUENCE { hashAlgorithm [0] HashAlgorithm DEFAULT sha1Identifier,
//   maskGenAlgorithm [1] MaskGenAlgorithm DEFAULT mgf1SHA1Identifier, saltLength [2] INTEGER DEFAULT 20,
//   trailerField [3] INTEGER DEFAULT 1 }
#[tactic(auto, unfolding(crate::specs::ParameterReading::parts_in))]
fn fields_of<'a>(mut parts: Cursor<'a>) -> Result<Parts<'a>, Fault>
    ensures { Gives parts_value result (parts_in parts.entry) }
{
    let hash = if parts.has(HASH) {
        Some(algorithm_of(parts.enter(HASH)?)?)
    } else {
        None
    };
    let mask = if parts.has(MASK) {
        Some(algorithm_of(parts.enter(MASK)?)?)
    } else {
        None
    };
    let salt = if parts.has(SALT) {
        Some(integer_of(parts.enter(SALT)?)?)
    } else {
        None
    };
    let trailer = if parts.has(TRAILER) {
        Some(integer_of(parts.enter(TRAILER)?)?)
    } else {
        parts.none()?;
        None
    };
    parts.end()?;
    Ok(Parts {
        hash,
        mask,
        salt,
        trailer,
    })
}

/// The parts that octets encode.
#[tactic(auto, unfolding(crate::specs::ParameterReading::parts_at))]
pub(crate) fn read_parts(octets: &[u8]) -> Result<Parts<'_>, Fault>
    ensures { Gives parts_value result (parts_at octets.now) }
{
    let mut whole = Cursor::new(octets, 0);
    let parts = fields_of(whole.enter(SEQUENCE)?)?;
    whole.end()?;
    Ok(parts)
}

/// The AlgorithmIdentifier that octets encode.
#[tactic(auto, unfolding(crate::specs::ParameterReading::algorithm_at))]
pub(crate) fn read_algorithm(octets: &[u8]) -> Result<AlgorithmIdentifier<'_>, Fault>
    ensures { Gives (λ a. a) result (algorithm_at octets.now) }
{
    algorithm_of(Cursor::new(octets, 0))
}
