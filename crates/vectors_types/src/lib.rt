//! Answers rows about lists, times, SignedData, certificates, time-stamp requests, time-stamps and signing
//! certificates.
#![tactic(auto)]

/// What was read; of octets that are refused, what the fault prints ends the answer.
macro_rules! read {
    ($said:ident, $read:expr) => {
        match $read {
            Ok(value) => value,
            Err(fault) => return $said.shown(&fault),
        }
    };
}

mod counting;
mod lists;
mod values;

use vectors::{Bad, Judge, Row, Said};

/// Answers these rows.
#[derive(Clone, Copy)]
pub struct OfTypes;

impl Judge for OfTypes {
    fn said(&self, row: &Row<'_>) -> Result<String, Bad> {
        row.takes(names_of(row.kind))?;
        let mut said = Said::new(row)?;
        answer(&mut said, row);
        said.end()
    }
}

/// The values that a kind of row takes.
fn names_of(kind: &str) -> &'static str {
    match kind {
        "no_elements" => "",
        "fault_text" => "of",
        "moments" => "long short",
        "make" | "make_room" | "made" => "alg digest policy nonce certificate known",
        "signer" => "of number known",
        "response" => "of known",
        "values_counted" => "of type",
        "cuts" => "of as header",
        "signing_certificate" => "of version",
        _ => "of at tags",
    }
}

fn answer(said: &mut Said, row: &Row<'_>) {
    match row.kind {
        "no_elements" => lists::no_elements(said),
        "fault_text" => values::fault_text(said, row),
        "moments" => values::moments(said, row),
        "make" | "make_room" | "made" => values::make(said, row),
        _ => answer_of(said, row),
    }
}

/// Answers a row about the octets `of`.
fn answer_of(said: &mut Said, row: &Row<'_>) {
    let octets = said.given(row, "of");
    let octets = octets.as_slice();
    match row.kind {
        "signed_data" | "versions" | "signer" => values::signed_data(said, row, octets),
        "certificate" | "extensions_say" => values::certificate(said, row, octets),
        "signing_certificate" => values::signing_certificate(said, row, octets),
        "request" => values::request(said, octets),
        "stamp" => values::stamp(said, octets),
        "response" => values::response(said, octets),
        "values_counted" => counting::values_counted(said, row, octets),
        "cuts" => values::cuts(said, row, octets),
        "utc" | "generalized" => values::time(said, row, octets),
        _ => lists::alone(said, row, octets),
    }
}
