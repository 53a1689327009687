//! Certificates (RFC 5280 4.1), and their extensions, which other formats share, as views of the octets that encode
//! them.
#![tactic(auto)]

mod certificate;
mod distinct;
mod extension;
mod extensions;
mod laws;
mod purposes;

pub use certificate::Certificate;
pub use extension::Extension;
pub use extensions::Extensions;
pub use laws::certificates_are_encodings;
