//! Which certificate is a signer's: by the signer's identifier (RFC 5652 5.3), and by its signing-certificate
//! attributes (RFC 2634 5.4, RFC 5035 2, RFC 5816 2.2.1).
#![tactic(auto)]

mod cert_ids;
mod hasher;
mod laws;
mod matching;
mod naming;

pub use hasher::{CertificateHasher, EachTime};
pub use laws::rows_hold;
pub use matching::matches;
pub use naming::{must_name, names_if_any};
