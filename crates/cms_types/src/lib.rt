//! SignedData of the Cryptographic Message Syntax (RFC 5652), as views of the octets that encode them.
//!
//! Begin with `SignedData::read`. No signature is checked here.
#![tactic(auto)]

mod attribute;
mod attributes;
mod content_info;
mod fault;
mod finding;
mod front;
mod laws;
pub mod oids;
mod signed_attribute;
mod signed_attributes;
mod signed_data;
mod signer;
mod signer_again;
mod signer_id;
mod signers;
mod tokens;
mod versions;

pub use attribute::Attribute;
pub use attributes::Attributes;
pub use fault::CmsFault;
pub use laws::content_infos_are_encodings;
pub use signed_data::SignedData;
pub use signer::Signer;
pub use signer_id::SignerId;
pub use signers::Signers;
pub use tokens::Tokens;
