//! Evidence records made of a leaf of a hash tree and a token over its root (RFC 4998 4.2), and renewed (5.2).
//! Begin with `specs/Made.antt` and `specs/Renewed.antt`.
#![tactic(auto)]

mod algorithm;
mod done;
mod fault;
mod frame;
mod headers;
mod kept;
mod laws;
mod leaves;
mod lists;
mod making;
mod naming;
mod opening;
mod putting;
mod renewing;
mod stamping;

pub use done::{rehashed_by, renewed_by};
pub use fault::{LeafFault, MakeFault, RenewFault, StampFault};
pub use laws::{
    made_records_show, making_rows_hold, new_stamps_stand, renewal_rows_hold, renewed_records_show,
    stamps_are_of_roots,
};
pub use leaves::{LastStamp, NewLeaf, last_stamp, rehash_leaf};
pub use making::{is_sequence, make_record};
pub use renewing::{rehash_record, renew_record};
pub use stamping::stamp_of_root;
