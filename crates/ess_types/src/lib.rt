//! Signing certificates: the attribute by which a signature names the certificate under which it is to be judged (RFC
//! 2634 5.4, RFC 5035). They are read as views of their octets, and written.
#![tactic(auto)]

mod cert_id;
mod cert_ids;
mod issuer_serial;
mod laws;
mod signing_cert;

pub use cert_id::{CertId, HashAlgorithm};
pub use issuer_serial::IssuerSerial;
pub use laws::{
    signing_certificates_are_encodings, signing_certificates_v2_are_encodings, signing_rows_hold,
};
pub use signing_cert::SigningCert;
