ghost use Rattle.std.specs.Prelude.{◌≡◌, ◌↔◌, IsTrue, IfSome, Some};
ghost use Rattle.digests.specs.declared.algorithm.Alg.{Alg};
ghost use Rattle.check_names.specs.Naming.{IsIssuerOf, NamesBy, HashedBy};

use crate::hasher::CertificateHasher;
use cert_types::Certificate;
use check_fit::{is_element_of, only_value};
use der_core::octets::is_same;
use digests::Alg;
use ess_types::{CertId, HashAlgorithm, IssuerSerial};

/// The identifier octet of a directoryName, `[4] Name` (RFC 5280 4.2.1.6).
const DIRECTORY_NAME: u8 = 0xa4;

// Whether the only name is the certificate's issuer, and the serial number is the certificate's.
fn is_issuer_of(certificate: &Certificate, stated: &IssuerSerial) -> bool
    ensures { IsTrue result ↔ IsIssuerOf certificate.now stated.now }
{
    // Named for the proof.
    let _whole = certificate.whole();
    let Some(name) = only_value(stated.names()) else {
        return false;
    };
    is_element_of(DIRECTORY_NAME, certificate.issuer(), name.whole())
        && is_same(stated.serial().bytes(), certificate.serial().bytes())
}

// The same, if the identifier has issuer and serial number; true if it has none.
fn issuer_fits(certificate: &Certificate, id: &CertId) -> bool
    ensures { IsTrue result ↔ IfSome id.now.issuer_serial (IsIssuerOf certificate.now) }
{
    match id.issuer_serial() {
        Some(stated) => is_issuer_of(certificate, stated),
        None => true,
    }
}

// The hash algorithm of an identifier of version 2, if it is a known one.
pub(crate) fn hash_algorithm(id: &CertId) -> Option<Alg>
    ensures found { IfSome result (HashedBy id.now.algorithm) }
    ensures only { (alg : Alg) → HashedBy id.now.algorithm alg → result ≡ Some alg }
{
    match id.hash_algorithm() {
        HashAlgorithm::Absent | HashAlgorithm::SpelledDefault => Some(Alg::Sha256),
        HashAlgorithm::Other(algorithm) => Alg::of(algorithm.oid(), algorithm.parameters()),
    }
}

// Whether the identifier, whose hash is by this algorithm, names the certificate at this place. The hasher is asked
// only if issuer and serial number don't differ.
pub(crate) fn names_by<H: CertificateHasher>(
    alg: Alg,
    id: &CertId,
    certificate: &Certificate,
    place: usize,
    hasher: &mut H,
) -> bool
    requires { H.is_place_of (H.placed_by hasher.old) place certificate.now }
    ensures named { IsTrue result ↔ NamesBy alg id.now certificate.now }
    ensures same { H.placed_by hasher.new ≡ H.placed_by hasher.old }
{
    issuer_fits(certificate, id)
        && is_same(id.hash(), hasher.digest(alg, place, certificate).bytes())
}
