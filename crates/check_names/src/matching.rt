ghost use Rattle.std.specs.Prelude.{◌↔◌, IsTrue};
ghost use Rattle.cms_types.specs.Fields.{sid_value};
ghost use Rattle.check_names.specs.Naming.{Matches};

use cert_types::Certificate;
use cms_types::SignerId;
use der_core::octets::is_same;

/// Whether the signer's identifier matches the certificate (RFC 5652 5.3): the certificate has the issuer and the
/// serial number, octet by octet, or its subjectKeyIdentifier is the key identifier.
pub fn matches(sid: &SignerId, certificate: &Certificate) -> bool
    // True exactly if the certificate has the issuer and serial number, or the key identifier, of the signer.
    ensures { IsTrue result ↔ Matches (sid_value sid.now) certificate.now }
{
    match sid {
        SignerId::IssuerAndSerial(issuer, serial) => {
            is_same(certificate.issuer(), issuer)
                && is_same(certificate.serial().bytes(), serial.bytes())
        }
        SignerId::KeyId(id) => match certificate.key_id() {
            Some(key) => is_same(key, id),
            None => false,
        },
    }
}
