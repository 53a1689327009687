//! What `evidence rehash` does: the sums and the evidence records that it reads, the request over their new leaves, and
//! the records to which it gives a new chain, in their places (Hash-Tree Renewal, RFC 4998 5.2). Begin with
//! `specs/Rehashing.antt`.
#![tactic(auto)]

mod folder;
mod footing;
mod footings;
mod keeping;
mod reading;
mod rehash;
mod request;
mod step;

pub use folder::RecordFolder;
pub use keeping::KeepsBelow;
pub use rehash::{rehash_all, rehash_records};
pub use request::{rehash_request, request_rehash};
