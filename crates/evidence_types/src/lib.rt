//! Evidence records (RFC 4998), by which an archive shows that octets existed by a moment, as views of the octets that
//! encode them.
//!
//! Begin with `EvidenceRecord::read`. No time-stamp is checked here, and no hash is computed.
#![tactic(auto)]

mod archive_time_stamp;
mod chain;
mod chains;
mod encryption;
mod evidence_attributes;
mod evidence_record;
mod hash_list;
mod hash_lists;
mod laws;
mod stamp_algorithm;

pub use archive_time_stamp::ArchiveTimeStamp;
pub use chain::Chain;
pub use chains::Chains;
pub use cms_types::Attributes as EvidenceAttributes;
pub use encryption::Encryption;
pub use evidence_record::EvidenceRecord;
pub use hash_list::{HashList, HashValue};
pub use hash_lists::HashLists;
pub use laws::{evidence_records_are_encodings, evidence_rows_hold, evidence_table_is_clear};
pub use stamp_algorithm::StampAlgorithm;
