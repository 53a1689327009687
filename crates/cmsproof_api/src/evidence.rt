//! Evidence records (RFC 4998) renewed, and a signed file judged under one.
//!
//! `check_under` judges a signed file, and its content if that is handed in, as one could at the moment that an
//! `UnderRecord` shows.
//!
//! A record is renewed by a stamp of a root (`stamp_of_root`): by `renew_record`, where `last_stamp` gives the leaf for
//! the tree; or with another algorithm by `rehash_record`, where `rehash_leaf` does. `renewed_by` and `rehashed_by` say
//! whether a token renewed it already. A record may be of several data objects: `RecordSums` are the digests of those
//! of each record, and a `Group` the values of a new first list (RFC 4998 4.2).

pub use check_under::{UnderRecord, UnderRefused, check_under};
pub use evidence_making::{
    LastStamp, LeafFault, NewLeaf, RenewFault, last_stamp, rehash_leaf, rehash_record, rehashed_by,
    renew_record, renewed_by, stamp_of_root,
};
pub use evidence_sums::{RecordSum, RecordSums};
pub use evidence_trees::{Group, GroupValues};
