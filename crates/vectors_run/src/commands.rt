//! The judge of the rows in the folder `commands`: the words of a command line, the files in its folder, and what is
//! printed and written.
use crate::checks::{check, cuts};
use crate::evidence::{evidence, under};
use crate::folder::remove;
use crate::runs::{lengths, run, task};
use crate::stamps::stamp;
use vectors::{Bad, Judge, Row, Said};

/// Answers rows about the commands. The files that a row names are written, and removed again.
#[derive(Drop)]
pub struct OfCommands<'a> {
    /// The runtime whose files these are.
    pub rt: &'a HostRuntime,
}

impl Judge for OfCommands<'_> {
    fn said(&self, row: &Row<'_>) -> Result<String, Bad> {
        let Some(names) = names_of(row.kind) else {
            return Err(Bad::Text("a kind of row that is not known"));
        };
        row.takes(names)?;
        let mut said = Said::new(row)?;
        answer(&mut said, self.rt, row);
        said.end()
    }
}

/// The values that a kind of row takes.
fn names_of(kind: &str) -> Option<&'static str> {
    match kind {
        "run" => Some("words files texts long folders leaves made wrote has out"),
        "task" => Some("words"),
        "lengths" => Some("alg"),
        "check" => Some("trust file of silent content words piped"),
        "ask" => Some("trust file words piped"),
        "cuts" => Some("trust file from to words"),
        "stamp" => Some("trust stamp data silent words piped"),
        "evidence" => Some("trust record data silent words"),
        "under" => Some("trust file content record silent words"),
        _ => None,
    }
}

fn answer(said: &mut Said, rt: &HostRuntime, row: &Row<'_>) {
    match row.kind {
        "run" => run(said, rt, row),
        "task" => task(said, row),
        "lengths" => lengths(said, rt, row),
        _ => answer_with_lists(said, rt, row),
    }
}

/// Answers a row about a command that reads lists.
fn answer_with_lists(said: &mut Said, rt: &HostRuntime, row: &Row<'_>) {
    match row.kind {
        "cuts" => cuts(said, rt, row),
        "stamp" => stamp(said, rt, row),
        "evidence" => evidence(said, rt, row),
        "under" => under(said, rt, row),
        _ => check(said, rt, row),
    }
    clear(said, rt);
}

/// Removes the files that these rows make.
fn clear(said: &mut Said, rt: &HostRuntime) {
    for path in [
        "trusted.txt",
        "answers.txt",
        "signed.p7s",
        "content.txt",
        "stamp",
        "data",
        "record.er",
    ] {
        remove(said, rt, path);
    }
}
