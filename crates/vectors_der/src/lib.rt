//! The judge of the rows of `vectors_run/data/der`: elements, object identifiers, digests and what is shown.
#![tactic(auto)]

mod elements;
mod hashing;
mod names;
mod told;

use vectors::{Bad, Judge, Row, Said};

/// Answers rows about DER, digests and what is shown.
#[derive(Clone, Copy, Drop)]
pub struct OfDer;

impl Judge for OfDer {
    fn said(&self, row: &Row<'_>) -> Result<String, Bad> {
        row.takes(names_of(row.kind))?;
        let mut said = Said::new(row)?;
        answer(&mut said, row);
        said.end()
    }
}

/// The values that a kind of row takes.
fn names_of(kind: &str) -> &'static str {
    match kind {
        "cursor" => "of at calls",
        "header" => "tag length",
        "fault" => "kind at",
        "text" => "of",
        "oid_parse" => "text",
        "algorithm" => "name",
        "identified" => "oid parameters",
        "lengths" => "by",
        "digest" => "by of is",
        "hashers" | "hasher_cuts" | "sets" => "of piece times digests",
        "read" => "by of from digests",
        "read_behind" => "fed from digests",
        _ => "of at",
    }
}

fn answer(said: &mut Said, row: &Row<'_>) {
    match row.kind {
        "cursor" => elements::cursor(said, row),
        "header" => elements::head(said, row),
        "fault" => names::fault(said, row),
        "text" => names::text(said, row),
        "oid_parse" => names::oid_of_text(said, row),
        "algorithm" => names::algorithm(said, row),
        "identified" => names::identified(said, row),
        "lengths" => names::lengths(said, row),
        "digest" => hashing::digests(said, row),
        "hashers" | "hasher_cuts" | "sets" => hashing::hashers(said, row),
        "read" => hashing::read(said, row),
        "read_behind" => hashing::behind(said, row),
        _ => elements::contents(said, row),
    }
}
