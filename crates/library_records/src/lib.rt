//! What the calls of the library for C say that are about evidence records (RFC 4998), over slices and lists: their
//! check, and that of a signed file under one; their questions; how they are made and renewed over a hash tree.
//! `library_calls` has the other calls.
#![tactic(auto)]

mod data_objects;
mod ends;
mod evidence;
mod new_chain;
mod record;
mod renewal;
mod tree;
mod under;

pub use evidence::{EvidenceInput, tell_evidence_check, tell_evidence_questions};
pub use new_chain::{tell_rehash_leaf, tell_rehashed};
pub use record::tell_record;
pub use renewal::{tell_renewal_algorithm, tell_renewal_leaf, tell_renewed};
pub use tree::{read_tree, tell_root};
pub use under::{UnderInput, tell_check_under};
