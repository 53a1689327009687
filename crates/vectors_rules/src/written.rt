//! The calls that write: a file with a token (`attach`), the questions of a file (`questions`), the line of a refusal
//! (`report`); into a sink that takes a few octets at each call.
use crate::lists::{lines, trust_in};
use crate::refusals::refused_in;
use check_questions::questions;
use devices::{FromWrite, Limited, Sink};
use lines_report::report;
use std::fmt::Display;
use tsp_requester::attach;
use vectors::{Bad, Row, Said};

/// Does the call of a row. Whether it wrote all; else the fault is said.
fn is_done<S: Sink>(said: &mut Said, row: &Row<'_>, sink: &mut S) -> bool {
    match row.kind {
        "attach" => is_attached(said, row, sink),
        "questions" => is_asked(said, row, sink),
        _ => is_reported(said, row, sink),
    }
}

fn is_attached<S: Sink>(said: &mut Said, row: &Row<'_>, sink: &mut S) -> bool {
    let file = said.given(row, "file");
    let token = said.given(row, "token");
    let signer = said.taken(row.number("signer"), 0) as u64;
    is_ended(said, attach(&file, signer, &token, sink))
}

fn is_asked<S: Sink>(said: &mut Said, row: &Row<'_>, sink: &mut S) -> bool {
    let file = said.given(row, "of");
    match trust_in(row, "trust") {
        Ok(trust) => is_ended(said, questions(&file, &trust, sink)),
        Err(bad) => is_refused(said, bad),
    }
}

fn is_reported<S: Sink>(said: &mut Said, row: &Row<'_>, sink: &mut S) -> bool {
    match refused_in(row, "refusal") {
        Ok(refused) => is_ended(said, report(&Err(refused), sink)),
        Err(bad) => is_refused(said, bad),
    }
}

/// Whether a call wrote all; else the fault is said.
fn is_ended<E: Display + Drop>(said: &mut Said, end: Result<(), E>) -> bool {
    match end {
        Ok(()) => true,
        Err(fault) => {
            said.shown(&fault);
            false
        }
    }
}

fn is_refused(said: &mut Said, bad: Bad) -> bool {
    said.refuse(bad);
    false
}

/// What is said of the call of a row: `written` if it writes what it is to, the other octets, or the fault, how often
/// the sink failed, and how many octets were written.
pub fn written(said: &mut Said, row: &Row<'_>) {
    let whole = given!(said, whole_in(row));
    let piece = said.taken(row.number("pieces"), 1).max(1);
    let mut octets = Vec::new(row.alloc);
    let mut sink = Limited::new(FromWrite::new(&mut octets), piece, usize::MAX);
    let is_done = is_done(said, row, &mut sink);
    let failed = sink.failed;
    if is_done {
        tell_written(said, octets.as_slice(), whole.as_slice());
    } else {
        tell_failures(said, failed, octets.len());
    }
}

/// What the call of a row is to write.
fn whole_in(row: &Row<'_>) -> Result<Vec<u8>, Bad> {
    match row.kind {
        "attach" => row.octets_or("new", "-"),
        "questions" => spelled(row, "lines"),
        _ => spelled(row, "line"),
    }
}

fn spelled(row: &Row<'_>, name: &str) -> Result<Vec<u8>, Bad> {
    Ok(lines(row, name)?.into_bytes())
}

fn tell_failures(said: &mut Said, failed: u64, count: usize) {
    said.mark(",");
    said.shown(&failed);
    said.word("failures");
    said.mark(",");
    said.shown(&count);
    said.word("octets");
}

fn tell_written(said: &mut Said, octets: &[u8], whole: &[u8]) {
    if octets == whole {
        return said.word("written");
    }
    said.word("other octets: ");
    match hex::encode(said.alloc, octets) {
        Ok(digits) => said.mark(digits.as_str()),
        Err(_) => said.refuse(Bad::Memory),
    }
}
