//! Elements: calls of a cursor one after another, contents, what is shown of them, and headers.
use crate::told::{Told, found};
use der_core::{Bits, Cursor, Int, Oid, header, in_order};
use der_oid_text::oid_text;
use lines_shown::{show_certificate, show_request, show_signed};
use vectors::{Bad, Row, Said};

/// `cursor of=OCTETS at=POSITION calls=METHOD,METHOD:IDENTIFIER,again.METHOD,..` answers what each call of `Cursor`
/// gives.
pub fn cursor(said: &mut Said, row: &Row<'_>) {
    let octets = said.given(row, "of");
    let base = said.taken(row.number_or("at", 0), 0) as u64;
    if base.checked_add(octets.len() as u64).is_none() {
        return said.refuse(Bad::Text("a position that is too high"));
    }
    let mut cursor = Cursor::new(octets.as_slice(), base);
    for call in said.taken(row.text("calls"), "").split(',') {
        said.mark(";");
        match call.strip_prefix("again.") {
            Some(call) => called(said, &mut cursor.again(), call, row),
            None => called(said, &mut cursor, call, row),
        }
    }
}

fn called(said: &mut Said, cursor: &mut Cursor<'_>, call: &str, row: &Row<'_>) {
    let (name, value) = call.split_once(':').unwrap_or((call, "-"));
    let value = said.taken(row.made(value), Vec::new(row.alloc));
    match (name, value.as_slice()) {
        ("version", allowed) => found(said, cursor.version(allowed).map(|version| version as u64)),
        (_, []) => plain(said, cursor, name),
        (_, [tag]) => tagged(said, cursor, name, *tag),
        _ => said.refuse(Bad::Text("a call with an identifier that is not one octet")),
    }
}

/// Calls without an identifier.
fn plain(said: &mut Said, cursor: &mut Cursor<'_>, name: &str) {
    match name {
        "next" => found(said, cursor.next()),
        "end" => found(said, cursor.end()),
        "none" => found(said, cursor.none()),
        "rest" => said.octets(cursor.rest()),
        "position" => cursor.position().told(said),
        "is_empty" => cursor.is_empty().told(said),
        "integer" => found(said, cursor.integer()),
        "oid" => found(said, cursor.oid()),
        "octet_string" => found(said, cursor.octet_string()),
        "flag" => found(said, cursor.flag()),
        "opaque" => found(said, cursor.opaque()),
        "algorithm" => found(said, cursor.algorithm()),
        "optional_oid" => found(said, cursor.optional_oid()),
        "optional_algorithm" => found(said, cursor.optional_algorithm()),
        _ => said.refuse(Bad::Text("a call that is not known")),
    }
}

/// Calls with an identifier.
fn tagged(said: &mut Said, cursor: &mut Cursor<'_>, name: &str, tag: u8) {
    match name {
        "expect" => found(said, cursor.expect(tag)),
        "optional" => found(said, cursor.optional(tag)),
        "open" => opened(said, cursor, tag),
        "has" => cursor.has(tag).told(said),
        "element" => found(said, cursor.element(tag)),
        "bits" => found(said, cursor.bits(tag)),
        "optional_integer" => found(said, cursor.optional_integer(tag)),
        "optional_bits" => found(said, cursor.optional_bits(tag)),
        "last_integer" => found(said, cursor.last_integer(tag)),
        "last_bits" => found(said, cursor.last_bits(tag)),
        "last_contents" => found(said, cursor.last_contents(tag)),
        "last_element" => found(said, cursor.last_element(tag)),
        _ => said.refuse(Bad::Text("a call that is not known")),
    }
}

fn opened(said: &mut Said, cursor: &mut Cursor<'_>, tag: u8) {
    match cursor.open(tag) {
        Ok((part, inside)) => {
            part.told(said);
            said.value("at", &inside.position());
        }
        Err(fault) => said.shown(&fault),
    }
}

/// `integer of=OCTETS at=POSITION` and the other kinds here answer what is read or shown of the octets, or the fault.
pub fn contents(said: &mut Said, row: &Row<'_>) {
    let at = said.taken(row.number_or("at", 0), 0) as u64;
    let octets = said.given(row, "of");
    let octets = octets.as_slice();
    match row.kind {
        "integer" => found(said, Int::read(octets, at)),
        "oid" => found(said, Oid::read(octets, at)),
        "bits" => found(said, Bits::read(octets, at)),
        "oid_text" => oid_as_text(said, octets),
        "order" => found(said, in_order(octets)),
        "request" => found(said, show_request::text_of(row.alloc, octets)),
        "certificate" => found(said, show_certificate::text_of(row.alloc, octets)),
        "signed" => found(said, show_signed::text_of(row.alloc, octets)),
        _ => said.refuse(Bad::Text("a kind that is not known")),
    }
}

fn oid_as_text(said: &mut Said, octets: &[u8]) {
    match identifier(octets) {
        Ok(oid) => found(said, oid_text(said.alloc, &oid)),
        Err(bad) => said.refuse(bad),
    }
}

/// `header tag=OCTET length=NUMBER` answers the octets of the header, or why there is none.
pub fn head(said: &mut Said, row: &Row<'_>) {
    let tag = said.given(row, "tag");
    let length = said.taken(row.number("length"), 0) as u64;
    let Some(tag) = tag.first() else {
        return said.refuse(Bad::Text("no identifier"));
    };
    match header(*tag, length) {
        Ok(front) => said.octets(front.bytes()),
        Err(fault) => said.shown(&fault),
    }
}

/// The object identifier with these contents.
pub fn identifier(octets: &[u8]) -> Result<Oid<'_>, Bad> {
    Oid::read(octets, 0).map_err(|_| Bad::Text("contents of no object identifier"))
}
