//! The judge of the rows in the folder `rules`: what is said of signers, responses, files, tokens and lists, and what
//! three calls write. The table of kinds says which values each kind of row takes.
#![tactic(auto)]

/// What was read of a row; if it can't be, why not makes the answer bad.
macro_rules! given {
    ($said:ident, $read:expr) => {
        match $read {
            Ok(value) => value,
            Err(bad) => return $said.refuse(bad),
        }
    };
}

mod checks;
mod kinds;
mod lists;
mod refusals;
mod stamps;
mod written;

use kinds::{Asked, kind_of};
use std::fmt::Display;
use vectors::{Bad, Judge, Row, Said};

/// The judge.
#[derive(Drop)]
pub struct OfRules;

impl Judge for OfRules {
    fn said(&self, row: &Row<'_>) -> Result<String, Bad> {
        let kind = kind_of(row.kind)?;
        row.takes(kind.takes)?;
        let mut said = Said::new(row)?;
        answer(&mut said, row, &kind.asked);
        said.end()
    }
}

fn answer(said: &mut Said, row: &Row<'_>, asked: &Asked) {
    match asked {
        Asked::FirstSigner => checks::first_signer(said, row),
        Asked::Answers => checks::answers_request(said, row),
        Asked::Granted => checks::granted(said, row),
        Asked::Compared => checks::compared(said, row),
        Asked::Made => checks::made(said, row),
        Asked::File => checks::file(said, row),
        Asked::Token => stamps::token(said, row),
        Asked::Stamp => stamps::stamp(said, row),
        Asked::Cut => stamps::cut(said, row),
        Asked::Trust => lists::trust(said, row),
        Asked::Vouches => lists::vouches(said, row),
        Asked::Fused => lists::fused(said, row),
        Asked::Expecting => lists::expecting(said, row),
        Asked::Rewritten => lists::rewritten(said, row),
        Asked::Refusal => refusals::text(said, row),
        Asked::Written => written::written(said, row),
    }
}

/// Says this word, or the fault.
fn ended<E: Display + Drop>(said: &mut Said, word: &str, end: Result<(), E>) {
    match end {
        Ok(()) => said.word(word),
        Err(fault) => said.shown(&fault),
    }
}
