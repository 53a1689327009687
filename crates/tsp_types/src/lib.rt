//! Time-stamp requests (RFC 3161 2.4.1), read as views of their octets, written, and made; the content of time-stamp
//! tokens and responses (RFC 3161 2.4.2), read and written. The types of signing certificates, by which a token names
//! the certificate of its authority (RFC 3161 2.4.2, RFC 5816), are those of crate `ess_types`.
#![tactic(auto)]

mod accuracy;
mod imprint;
mod laws;
mod making;
pub mod oids;
mod putting;
mod request;
mod response;
mod stamp_laws;
mod texts;
mod tst_info;

pub use accuracy::Accuracy;
pub use ess_types::{CertId, HashAlgorithm, IssuerSerial, SigningCert};
pub use laws::requests_are_encodings;
pub use putting::MakeFault;
pub use request::Request;
pub use response::Response;
pub use stamp_laws::{responses_are_encodings, stamp_rows_hold, tst_infos_are_encodings};
pub use texts::{Text, Texts};
pub use tst_info::TstInfo;
