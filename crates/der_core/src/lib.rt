//! Elements of DER (X.690) read from the left without copying, the faults of form that they can have, and what writers
//! of DER need: headers.
//!
//! Begin with `Cursor`, which returns the elements of a body one after another, each as a slice of the input. The
//! definitions that its contracts use are in `specs/`: `Element`, `Form` with `Grammar` (the words of a grammar as
//! data), `Encoding` and `Faults`. The grammar of every type of the profile is in the crate `der_grammar`. What writers
//! write to, and what contents are read from, are the sinks and sources of crate `devices`.
#![tactic(auto)]

mod algorithm;
mod bits;
mod bits_set;
mod cursor;
mod element;
mod fault;
mod flag;
mod header_octets;
mod heading;
mod integer;
mod laws;
mod length;
pub mod octets;
mod oid;
mod optional_parts;
mod order;
mod parts;
pub mod tags;

pub use algorithm::AlgorithmIdentifier;
pub use bits::Bits;
pub use cursor::Cursor;
pub use devices::{
    FromRead, FromWrite, Fused, Limited, Pieces, Sink, SinkFault, Slice, Source, SourceFault,
};
pub use element::Element;
pub use fault::{Fault, Kind, ReadFault};
pub use flag::Flag;
pub use header_octets::{Header, TooLong};
pub use heading::header;
pub use integer::Int;
pub use laws::{encodings_have_no_fault, inputs_are_judged, rows_hold};
pub use length::length_of;
pub use oid::Oid;
pub use order::in_order;
pub use parts::version_of;
