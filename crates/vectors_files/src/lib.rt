//! The judge of the rows in the folder `files`: what calls say of signed files under trust lists and answers lists, as
//! a whole and in pieces, with devices that fail, and of whole families of octets. The functions say which values each
//! kind of row takes.
#![tactic(auto)]

mod calls;
mod families;
mod found;
mod questioned;
mod runs;
mod sources;
mod terms;
mod written;

use vectors::{Bad, Judge, Row, Said};

/// The judge.
#[derive(Clone, Copy, Drop)]
pub struct OfFiles;

impl Judge for OfFiles {
    fn said(&self, row: &Row<'_>) -> Result<String, Bad> {
        let Some(names) = names_of(row.kind) else {
            return Err(Bad::Text("a kind of row that isn't known"));
        };
        row.takes(names)?;
        let mut said = Said::new(row)?;
        answer(&mut said, row);
        said.end()
    }
}

/// The values that a kind of row takes.
fn names_of(kind: &str) -> Option<&'static str> {
    match kind {
        "check" | "cuts" | "changes" => Some(families::NAMES),
        "found" => Some("of type content signatures"),
        "written" => Some("what octets rooms of trust vouched token moment"),
        _ => None,
    }
}

fn answer(said: &mut Said, row: &Row<'_>) {
    match row.kind {
        "check" => families::check(said, row),
        "cuts" => families::cuts(said, row),
        "changes" => families::changes(said, row),
        "found" => found::found(said, row),
        _ => written::written(said, row),
    }
}
