//! Hash trees over digests (RFC 4998 4.2): the root to be stamped, and the lists that show each leaf.
//! Begin with `specs/HashTrees.antt`.
#![tactic(auto)]

mod finding;
mod group;
mod laws;
mod leaf_lists;
mod leaves;
mod nodes;
mod tree;
mod values;

pub use group::{Group, GroupValues};
pub use laws::{leaves_have_one_way, tree_rows_hold, trees_are_unique};
pub use leaf_lists::LeafLists;
pub use tree::Tree;
