//! Object identifiers as text (X.690 8.19): `oid_text` gives the text of one, and `oid_parse` the contents octets of
//! the one that a text spells. The definition that their contracts use is `OidText` of `specs/`.
#![tactic(auto)]

mod oid_arcs;

pub use oid_arcs::{OidFault, oid_parse, oid_text};
