//! Texts of faults, object identifiers as text, and names of algorithms.
use crate::elements::identifier;
use crate::told::found;
use der_core::Kind::*;
use der_core::{Fault, Kind, ReadFault, TooLong};
use der_oid_text::{OidFault, oid_parse};
use devices::{SinkFault, SourceFault};
use digests::{Alg, ContentFault, Digest};
use std::alloc::Global;
use std::str;
use vectors::{Bad, Row, Said};

/// What can be wrong.
const KINDS: [Kind; 15] = [
    End, HighTag, Indefinite, LengthForm, Overrun, Tag, Trailing, Integer, Oid, Boolean, Bits,
    Time, Value, Order, Empty,
];

/// `fault kind=KIND at=POSITION` answers its text.
pub fn fault(said: &mut Said, row: &Row<'_>) {
    let at = said.taken(row.number("at"), 0) as u64;
    let name = said.taken(row.text("kind"), "");
    for kind in KINDS {
        if is_named(said.alloc, kind, name) {
            return said.shown(&Fault::new(kind, at));
        }
    }
    said.refuse(Bad::Text("a kind of fault that is not known"));
}

/// Whether this is the name of a kind, if there is memory to see it.
fn is_named(alloc: Global, kind: Kind, name: &str) -> bool {
    match format!(in alloc; "{kind:?}") {
        Ok(known) => known.as_str() == name,
        Err(_) => false,
    }
}

/// `text of=FAULT` answers its text; of `Malformed`, that of the end at the first octet.
pub fn text(said: &mut Said, row: &Row<'_>) {
    match said.taken(row.text("of"), "") {
        "TooLong" => said.shown(&TooLong),
        "Malformed" => said.shown(&ReadFault::from(Fault::new(End, 0))),
        "OidText" => said.shown(&OidFault::OidText),
        "OutOfMemory" => said.shown(&OidFault::OutOfMemory),
        "ReadFailed" => said.shown(&ContentFault::ReadFailed),
        "ContentTooLong" => said.shown(&ContentFault::ContentTooLong),
        "SourceFault" => said.shown(&SourceFault),
        "SinkFault" => said.shown(&SinkFault),
        _ => said.refuse(Bad::Text("a fault that is not known")),
    }
}

/// `oid_parse text=OCTETS` answers the contents that the text spells, or why there are none.
pub fn oid_of_text(said: &mut Said, row: &Row<'_>) {
    let octets = said.given(row, "text");
    match str::from_utf8(octets.as_slice()) {
        Ok(text) => found(said, oid_parse(said.alloc, text)),
        Err(_) => said.refuse(Bad::Text("octets that are no text")),
    }
}

/// `algorithm name=NAME` answers name, contents of the object identifier and length, or `none`.
pub fn algorithm(said: &mut Said, row: &Row<'_>) {
    match Alg::named(said.taken(row.text("name"), "")) {
        Some(alg) => {
            said.word(alg.name());
            said.octets(alg.oid_contents());
            said.shown(&alg.length());
        }
        None => said.word("none"),
    }
}

/// `identified oid=CONTENTS parameters=ELEMENT` answers the name of the algorithm, or `none`.
pub fn identified(said: &mut Said, row: &Row<'_>) {
    let oid = said.given(row, "oid");
    let parameters = said.given_if_any(row, "parameters");
    let given = row.value("parameters").map(|_| parameters.as_slice());
    match identifier(oid.as_slice()) {
        Ok(oid) => said.word(name_of(Alg::of(&oid, given))),
        Err(bad) => said.refuse(bad),
    }
}

fn name_of(found: Option<Alg>) -> &'static str {
    match found {
        Some(alg) => alg.name(),
        None => "none",
    }
}

/// The algorithm that a row names.
pub fn named(name: &str) -> Result<Alg, Bad> {
    Alg::named(name).ok_or(Bad::Text("a name of no algorithm"))
}

/// `lengths by=NAME` answers each number, from 0 to 65, of octets that are a digest.
pub fn lengths(said: &mut Said, row: &Row<'_>) {
    let name = said.taken(row.text("by"), "");
    let Some(alg) = Alg::named(name) else {
        return said.refuse(Bad::Text("a name of no algorithm"));
    };
    let octets = [7u8; 65];
    for n in 0..octets.len() + 1 {
        tell_length(said, alg, &octets[..n]);
    }
}

/// Says how many octets these are, if they are a digest by an algorithm.
fn tell_length(said: &mut Said, alg: Alg, octets: &[u8]) {
    match Digest::given(alg, octets) {
        Some(one) if one.bytes() != octets || one.alg() != alg => said.word("other"),
        Some(_) => said.shown(&octets.len()),
        None => {}
    }
}
