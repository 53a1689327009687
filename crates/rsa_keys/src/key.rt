//! Keys.
ghost use Rattle.std.specs.Prelude.{◌≡◌, ◌↔◌, IsTrue, IfSome, Some, option_map};
ghost use Rattle.digests.specs.Named.{is_alg};
ghost use Rattle.rsa_keys.specs.KeyValue.{IsRsaKey, KeyValue, is_pss_allowed};
ghost use Rattle.rsa_keys.specs.KeyReading.{key_in};
ghost use Rattle.rsa_keys.specs.KeyFields.{key_value};

use crate::info::read_info;
use crate::limits::is_judged;
use crate::numbers::key_numbers;
use crate::octets::is_same;
use crate::parameters::PssParameters;
use crate::schemes::scheme_of;
use big_numbers::word_of;
use digests::Alg;

/// The signature schemes that a key is for.
#[derive(Clone, Copy, Debug, PartialEq, Eq)]
pub enum Scheme {
    /// RSASSA-PKCS1-v1_5 and RSASSA-PSS: its algorithm is rsaEncryption.
    Any,
    /// RSASSA-PSS alone: its algorithm is id-RSASSA-PSS, without parameters.
    Pss,
    /// RSASSA-PSS alone, by the hash functions of these parameters, and with a salt that is at least as long: its
    /// algorithm is id-RSASSA-PSS, with them.
    PssWith(PssParameters),
}

impl Scheme {
    /// Whether a key is for RSASSA-PKCS1-v1_5.
    pub fn allows_pkcs1(&self) -> bool
        ensures { IsTrue result ↔ (self.now ≡ Scheme.Any) }
    {
        match self {
            Scheme::Any => true,
            Scheme::Pss => false,
            Scheme::PssWith(_) => false,
        }
    }

    /// Whether a key is for RSASSA-PSS with these parameters (RFC 4055 3.3).
    pub fn allows_pss(&self, parameters: &PssParameters) -> bool
        ensures { result ≡ is_pss_allowed self.now parameters.now }
    {
        match self {
            Scheme::Any => true,
            Scheme::Pss => true,
            Scheme::PssWith(own) => {
                is_alg(own.hash, parameters.hash)
                    && is_alg(own.mask, parameters.mask)
                    && own.salt <= parameters.salt
            }
        }
    }
}

/// Whether two algorithms are the same.
fn is_alg(a: Alg, b: Alg) -> bool
    ensures { result ≡ is_alg a b }
{
    is_same(a.oid_contents(), b.oid_contents())
}

/// A public key of RSA that is judged, as a view of its SubjectPublicKeyInfo: n is odd and of 512 to 8,192 bits; e is
/// odd, at least 3 and below 2^64.
#[derive(Debug, Drop)]
pub struct RsaKey<'a> {
    /// What it is for.
    pub scheme: Scheme,
    /// The octets of n, the highest first, of which the first is not 0.
    pub modulus: &'a [u8],
    /// e.
    pub exponent: u64,
}

#[tactic(auto, unfolding(crate::specs::KeyReading::key_in))]
fn read_key(octets: &[u8]) -> Option<RsaKey<'_>>
    ensures { option_map key_value result ≡ key_in octets.now }
{
    match read_info(octets) {
        Ok((algorithm, key)) => {
            let scheme = scheme_of(&algorithm)?;
            let (modulus, exponent) = key_numbers(key.bytes())?;
            if !is_judged(modulus, exponent) {
                return None;
            }
            Some(RsaKey {
                scheme,
                modulus,
                exponent: word_of(exponent),
            })
        }
        Err(_) => None,
    }
}

impl<'a> RsaKey<'a> {
    /// The key whose SubjectPublicKeyInfo these octets are, in DER (RFC 5280 4.1.2.7): rsaEncryption with parameters
    /// NULL (RFC 3279 2.3.1), or id-RSASSA-PSS, without parameters or with those of
    /// `PssParameters::read` (RFC 4055 1.2).
    ///
    /// `None` if they are not that of a key that is judged.
    pub fn read(octets: &'a [u8]) -> Option<RsaKey<'a>>
        // A key that is read is that of the octets.
        ensures found { IfSome result (λ k. IsRsaKey octets.now (key_value k)) }
        // The key of the octets is read.
        ensures only { (key : KeyValue) → IsRsaKey octets.now key → option_map key_value result ≡ Some key }
        // It is what the function `key_in` gives.
        ensures exact { option_map key_value result ≡ key_in octets.now }
    {
        read_key(octets)
    }
}
