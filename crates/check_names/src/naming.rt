ghost use Rattle.std.specs.Prelude.{◌≡◌, ◌↔◌, IsTrue, IfSome, Some};
ghost use Rattle.ess_types.specs.SigningCertificateValue.{CertIdValue, EncodesSigningCertificate};
ghost use Rattle.ess_types.specs.SigningCertificateValue.{EncodesSigningCertificateV2};
ghost use Rattle.check_names.specs.Naming.{FirstId, NamesInV1, NamesInV2, Occurs, NamesIfAny, MustName};
ghost use Rattle.check_names.specs.Naming.{id_signing_certificate, id_signing_certificate_v2};

use crate::cert_ids::{hash_algorithm, names_by};
use crate::hasher::CertificateHasher;
use cert_types::Certificate;
use check_fit::single_value;
use cms_types::Attributes;
use digests::Alg;
use ess_types::{CertId, SigningCert};

/// id-aa-signingCertificate, 1.2.840.113549.1.9.16.2.12 (RFC 2634 5.4).
const SIGNING_CERTIFICATE: [u8; 11] = [
    0x2a, 0x86, 0x48, 0x86, 0xf7, 0x0d, 0x01, 0x09, 0x10, 0x02, 0x0c,
];

/// id-aa-signingCertificateV2, 1.2.840.113549.1.9.16.2.47 (RFC 5035 3).
const SIGNING_CERTIFICATE_V2: [u8; 11] = [
    0x2a, 0x86, 0x48, 0x86, 0xf7, 0x0d, 0x01, 0x09, 0x10, 0x02, 0x2f,
];

// Whether an attribute of this type is present.
fn occurs(attributes: &Attributes, id: &[u8]) -> bool
    ensures { IsTrue result ↔ Occurs attributes.now id.now }
{
    attributes.has(id)
}

// The first identifier of version 1, if the attribute occurs once with one value, and that value can be read.
fn first_in_v1<'a>(attributes: &Attributes<'a>) -> Option<CertId<'a>>
    ensures found { IfSome result (FirstId attributes.now id_signing_certificate EncodesSigningCertificate) }
    ensures only { (first : CertIdValue)
        → FirstId attributes.now id_signing_certificate EncodesSigningCertificate first → result ≡ Some first }
{
    let value = single_value(attributes, &SIGNING_CERTIFICATE)?;
    let Ok(signing) = SigningCert::read_v1(value.whole()) else {
        return None;
    };
    signing.first()
}

// The same for version 2.
fn first_in_v2<'a>(attributes: &Attributes<'a>) -> Option<CertId<'a>>
    ensures found { IfSome result (FirstId attributes.now id_signing_certificate_v2 EncodesSigningCertificateV2) }
    ensures only { (first : CertIdValue)
        → FirstId attributes.now id_signing_certificate_v2 EncodesSigningCertificateV2 first → result ≡ Some first }
{
    let value = single_value(attributes, &SIGNING_CERTIFICATE_V2)?;
    let Ok(signing) = SigningCert::read_v2(value.whole()) else {
        return None;
    };
    signing.first()
}

// Whether the attribute of version 1 names the certificate.
fn names_in_v1<H: CertificateHasher>(
    attributes: &Attributes,
    certificate: &Certificate,
    place: usize,
    hasher: &mut H,
) -> bool
    requires { H.is_place_of (H.placed_by hasher.old) place certificate.now }
    ensures named { IsTrue result ↔ NamesInV1 attributes.now certificate.now }
    ensures same { H.placed_by hasher.new ≡ H.placed_by hasher.old }
{
    match first_in_v1(attributes) {
        Some(first) => names_by(Alg::Sha1, &first, certificate, place, hasher),
        None => false,
    }
}

// Whether the attribute of version 2 names it.
fn names_in_v2<H: CertificateHasher>(
    attributes: &Attributes,
    certificate: &Certificate,
    place: usize,
    hasher: &mut H,
) -> bool
    requires { H.is_place_of (H.placed_by hasher.old) place certificate.now }
    ensures named { IsTrue result ↔ NamesInV2 attributes.now certificate.now }
    ensures same { H.placed_by hasher.new ≡ H.placed_by hasher.old }
{
    let Some(first) = first_in_v2(attributes) else {
        return false;
    };
    match hash_algorithm(&first) {
        Some(alg) => names_by(alg, &first, certificate, place, hasher),
        None => false,
    }
}

// Whether the attributes name the certificate, those of version 1 and of version 2 where they are present.
fn names_those<H: CertificateHasher>(
    v1: bool,
    v2: bool,
    attributes: &Attributes,
    certificate: &Certificate,
    place: usize,
    hasher: &mut H,
) -> bool
    requires place { H.is_place_of (H.placed_by hasher.old) place certificate.now }
    requires first { IsTrue v1 ↔ Occurs attributes.now id_signing_certificate }
    requires second { IsTrue v2 ↔ Occurs attributes.now id_signing_certificate_v2 }
    ensures named { IsTrue result ↔ NamesIfAny attributes.now certificate.now }
    ensures same { H.placed_by hasher.new ≡ H.placed_by hasher.old }
{
    (!v1 || names_in_v1(attributes, certificate, place, hasher))
        && (!v2 || names_in_v2(attributes, certificate, place, hasher))
}

/// Whether each signing-certificate attribute that is present names the certificate. A signer need not have one. An
/// attribute names the certificate if its type occurs once with one value, that value can be read as its version and
/// has a first identifier, and this identifier has the hash of the whole certificate: by SHA-1 in version 1, under
/// every policy, and by the identifier's algorithm in version 2. If the identifier has an issuerSerial, its only name
/// must be the certificate's issuer, and its serial number the certificate's (RFC 2634 5.4, RFC 5035 4). If the
/// algorithm is unknown, the attribute names nothing.
///
/// Pass signed attributes: others are not part of what was signed. The digests are the hasher's, in which the
/// certificate has this place; in `EachTime` each certificate has each place.
pub fn names_if_any<H: CertificateHasher>(
    attributes: &Attributes,
    certificate: &Certificate,
    place: usize,
    hasher: &mut H,
) -> bool
    requires { H.is_place_of (H.placed_by hasher.old) place certificate.now }
    // True exactly if each signing-certificate attribute that is present names the certificate.
    ensures named { IsTrue result ↔ NamesIfAny attributes.now certificate.now }
    // The certificates keep their places.
    ensures same { H.placed_by hasher.new ≡ H.placed_by hasher.old }
{
    (!occurs(attributes, &SIGNING_CERTIFICATE)
        || names_in_v1(attributes, certificate, place, hasher))
        && (!occurs(attributes, &SIGNING_CERTIFICATE_V2)
            || names_in_v2(attributes, certificate, place, hasher))
}

/// Whether the attributes name this certificate, as those of a time-stamp token must (RFC 3161 2.4.2, RFC 5816 2.2.1):
/// as `names_if_any`, and one of the two types is present.
pub fn must_name<H: CertificateHasher>(
    attributes: &Attributes,
    certificate: &Certificate,
    place: usize,
    hasher: &mut H,
) -> bool
    requires { H.is_place_of (H.placed_by hasher.old) place certificate.now }
    // True exactly if one of the two attributes is present, and each that is names the certificate.
    ensures named { IsTrue result ↔ MustName attributes.now certificate.now }
    // The certificates keep their places.
    ensures same { H.placed_by hasher.new ≡ H.placed_by hasher.old }
{
    let v1 = occurs(attributes, &SIGNING_CERTIFICATE);
    let v2 = occurs(attributes, &SIGNING_CERTIFICATE_V2);
    (v1 || v2) && names_those(v1, v2, attributes, certificate, place, hasher)
}
