//! Lists of elements of DER as views of the octets that encode them. Every list of this workspace uses this code.
//!
//! A list is read once, by `scan_items`, or by `scan_ordered` if its elements must be in ascending order (X.690 11.6).
//! The scan answers how many elements it has, and the list keeps that number.
//! From then on it is a cursor at its first element, and `next_item` reads one item at a time again, without copying
//! and without allocating. A type of items says how one of them is read (`Item`).
#![tactic(auto)]

mod algorithms;
mod item;
mod iter;
mod list;
mod opaque;
mod opaques;
mod scans;

pub use algorithms::AlgorithmIdentifiers;
pub use item::{Item, RankedItem};
pub use iter::{ListIter, ListView};
pub use list::next_item;
pub use opaque::Opaque;
pub use opaques::Opaques;
pub use scans::{scan_items, scan_ordered, scan_tagged};
