//! Parameters of RSASSA-PSS (RFC 4055 3.1).
ghost use Rattle.std.specs.Prelude.{◌≡◌, IfSome, Some, option_map};
ghost use Rattle.rsa_keys.specs.ParameterValue.{IsPss};
ghost use Rattle.rsa_keys.specs.ParameterReading.{hash_of, is_trailer, mask_by, mask_of, pss_in, salt_of};

use crate::octets::is_same;
use crate::parameter_parts::{read_algorithm, read_parts};
use big_numbers::word_of;
use der_core::{AlgorithmIdentifier, Int};
use digests::Alg;

/// The contents of the object identifier id-mgf1.
const MGF1: [u8; 9] = [0x2a, 0x86, 0x48, 0x86, 0xf7, 0x0d, 0x01, 0x01, 0x08];

/// trailerFieldBC, the contents of an INTEGER.
const BC: [u8; 1] = [0x01];

/// How many octets state a length of salt, at most.
const SALT_OCTETS: usize = 8;

/// What a signature by RSASSA-PSS is made with.
#[derive(Clone, Copy, Debug, PartialEq, Eq)]
pub struct PssParameters {
    /// The hash function of the message and of EMSA-PSS.
    pub hash: Alg,
    /// That of MGF1.
    pub mask: Alg,
    /// How many octets of salt.
    pub salt: u64,
}

/// The hash function that a part names.
fn hash_of(part: &Option<AlgorithmIdentifier<'_>>) -> Option<Alg>
    ensures { result ≡ hash_of part.now }
{
    match part {
        None => Some(Alg::Sha1),
        Some(algorithm) => Alg::of(algorithm.oid(), algorithm.parameters()),
    }
}

/// The hash function that parameters of MGF1 name.
fn mask_by(parameters: Option<&[u8]>) -> Option<Alg>
    ensures { result ≡ mask_by (option_map (λ p. p.now) parameters.entry) }
{
    match parameters {
        None => None,
        Some(octets) => match read_algorithm(octets) {
            Ok(algorithm) => Alg::of(algorithm.oid(), algorithm.parameters()),
            Err(_) => None,
        },
    }
}

/// The hash function of the mask generation function that a part names.
fn mask_of(part: &Option<AlgorithmIdentifier<'_>>) -> Option<Alg>
    ensures { result ≡ mask_of part.now }
{
    match part {
        None => Some(Alg::Sha1),
        Some(algorithm) => {
            if is_same(algorithm.oid().bytes(), &MGF1) {
                mask_by(algorithm.parameters())
            } else {
                None
            }
        }
    }
}

/// The number that contents of an INTEGER are, if it is not below 0 and they are eight octets at most.
fn number_of(contents: &[u8]) -> Option<u64>
    ensures { result ≡ salt_of (Some contents.now) }
{
    match contents {
        [first, ..] if *first >= 128 => None,
        _ => {
            if contents.len() > SALT_OCTETS {
                return None;
            }
            Some(word_of(contents))
        }
    }
}

/// How many octets of salt a part states.
fn salt_of(part: &Option<Int<'_>>) -> Option<u64>
    ensures { result ≡ salt_of part.now }
{
    match part {
        None => Some(20),
        Some(contents) => number_of(contents.bytes()),
    }
}

/// Whether a part is trailerFieldBC.
fn is_trailer(part: &Option<Int<'_>>) -> bool
    ensures { result ≡ is_trailer part.now }
{
    match part {
        None => true,
        Some(contents) => is_same(contents.bytes(), &BC),
    }
}

#[tactic(auto, unfolding(crate::specs::ParameterReading::pss_in))]
fn read_parameters(octets: &[u8]) -> Option<PssParameters>
    ensures { result ≡ pss_in octets.now }
{
    match read_parts(octets) {
        Ok(parts) => {
            if !is_trailer(&parts.trailer) {
                return None;
            }
            let hash = hash_of(&parts.hash)?;
            let mask = mask_of(&parts.mask)?;
            let salt = salt_of(&parts.salt)?;
            Some(PssParameters { hash, mask, salt })
        }
        Err(_) => None,
    }
}

impl PssParameters {
    /// The parameters that these octets encode, a whole element in DER, where a part may be there although it is the
    /// default (RFC 4055 3.1): a hash function of the Secure Hash Standard, MGF1 with one, a salt of fewer than 2^63
    /// octets, trailerFieldBC.
    ///
    /// `None` if they encode no such parameters.
    pub fn read(octets: &[u8]) -> Option<PssParameters>
        // Parameters that are read are those of the octets.
        ensures found { IfSome result (λ p. IsPss octets.now p) }
        // The parameters that octets encode are read.
        ensures only { (p : PssParameters) → IsPss octets.now p → result ≡ Some p }
        // It is what the function `pss_in` gives.
        ensures exact { result ≡ pss_in octets.now }
    {
        read_parameters(octets)
    }
}
