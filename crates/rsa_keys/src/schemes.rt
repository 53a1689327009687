//! The algorithm of a key (RFC 3279 2.3.1, RFC 4055 1.2).
ghost use Rattle.std.specs.Prelude.{◌≡◌, option_map};
ghost use Rattle.rsa_keys.specs.KeyReading.{pss_scheme, scheme_of, with_null};

use crate::key::Scheme;
use crate::octets::is_same;
use crate::parameters::PssParameters;
use der_core::AlgorithmIdentifier;

/// NULL, as a whole element.
const NULL: [u8; 2] = [0x05, 0x00];

/// rsaEncryption, if its parameters are NULL.
fn with_null(parameters: Option<&[u8]>) -> Option<Scheme>
    ensures { result ≡ with_null (option_map (λ p. p.now) parameters.entry) }
{
    match parameters {
        None => None,
        Some(octets) => {
            if is_same(octets, &NULL) {
                Some(Scheme::Any)
            } else {
                None
            }
        }
    }
}

/// id-RSASSA-PSS, with its parameters, if it has some.
fn pss_scheme(parameters: Option<&[u8]>) -> Option<Scheme>
    ensures { result ≡ pss_scheme (option_map (λ p. p.now) parameters.entry) }
{
    match parameters {
        None => Some(Scheme::Pss),
        Some(octets) => match PssParameters::read(octets) {
            Some(read) => Some(Scheme::PssWith(read)),
            None => None,
        },
    }
}

/// The schemes that the algorithm of a key is for, if it is one that is judged.
#[tactic(auto, unfolding(crate::specs::KeyReading::scheme_of))]
pub(crate) fn scheme_of(algorithm: &AlgorithmIdentifier<'_>) -> Option<Scheme>
    ensures { result ≡ scheme_of algorithm.now }
{
    let oid = algorithm.oid().bytes();
    if is_same(oid, b"\x2a\x86\x48\x86\xf7\x0d\x01\x01\x01") {
        with_null(algorithm.parameters())
    } else if is_same(oid, b"\x2a\x86\x48\x86\xf7\x0d\x01\x01\x0a") {
        pss_scheme(algorithm.parameters())
    } else {
        None
    }
}
