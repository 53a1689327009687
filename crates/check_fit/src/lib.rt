//! Whether the content of a SignedData and the signed attributes of its signers belong together (RFC 5652 5.4, 11).
#![tactic(auto)]

mod attribute_values;
mod content_digests;
mod element_octets;
mod every_signer;
mod laws;
mod one_signer;
mod policy;
mod rules;
mod whole_file;

pub use attribute_values::{only_value, single_value};
pub use content_digests::digests_from;
pub use element_octets::is_element_of;
pub use every_signer::{wanted_by, wanted_of};
pub use laws::rows_hold;
pub use one_signer::{digest_alg, fits_by_digests, signer_fits};
pub use policy::Policy;
pub use rules::{DeviceFault, FileRule, Refused, SignerRule, TokenRefused, TokenRule};
pub use whole_file::{fits, hash_content, open_file, read_file};
