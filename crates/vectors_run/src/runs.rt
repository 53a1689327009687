//! A command line, the files that it reads, and what comes of it.
use crate::folder::{clear, fill, remove, spelled, tell_made};
use crate::outcome::{Outcome, outcome_of, printed, words_of};
use cli_tasks::Task;
use cli_words::{Meaning, meaning_of};
use std::fmt::Debug;
use vectors::{Bad, Row, Said};

/// Says how the words end and what they print, with the row's files there; of each file to be made, if it is as given.
pub fn run(said: &mut Said, rt: &HostRuntime, row: &Row<'_>) {
    fill(said, rt, row);
    let words = said.taken(row.text("words"), "");
    let outcome = outcome_of(said, rt, words);
    tell_printed(said, row, &outcome);
    tell_made(said, rt, row);
    clear(said, rt, row);
}

/// Says the exit status, and what was printed; or that this has the part `has=`, or is `out=`.
fn tell_printed(said: &mut Said, row: &Row<'_>, outcome: &Outcome) {
    let printed = outcome.printed.as_str();
    if has_part(said, row, printed) {
        outcome.tell(said, "has it");
    } else if is_given(said, row, printed) {
        outcome.tell(said, "as given");
    } else {
        outcome.tell(said, printed);
    }
}

fn has_part(said: &mut Said, row: &Row<'_>, printed: &str) -> bool {
    row.value("has").is_some() && printed.contains(spelled(said, row, "has").as_str())
}

fn is_given(said: &mut Said, row: &Row<'_>, printed: &str) -> bool {
    row.value("out").is_some() && printed == spelled(said, row, "out").as_str()
}

/// Says which task the words ask for, `help`, or `none`.
pub fn task(said: &mut Said, row: &Row<'_>) {
    let words = said.taken(row.text("words"), "");
    let words = words_of(said, words);
    match meaning_of(row.alloc, words.as_slice()) {
        Ok(meaning) => tell_meaning(said, &meaning),
        Err(_) => said.word("none"),
    }
}

fn tell_meaning(said: &mut Said, meaning: &Meaning<'_>) {
    match meaning {
        Meaning::Task(Task::Text(task)) => tell_task(said, task),
        Meaning::Task(task) => tell_task(said, task),
        Meaning::Evidence(task) => tell_task(said, task),
        Meaning::Many(many) => tell_task(said, many),
        Meaning::Help(_) => said.word("help"),
    }
}

fn tell_task<T: Debug>(said: &mut Said, task: &T) {
    match format!(in said.alloc; "{task:?}") {
        Ok(text) => said.word(text.as_str()),
        Err(_) => said.refuse(Bad::Memory),
    }
}

/// Says how many octets a digest by `alg=` may have, of all numbers up to 65: those of which a request is made. Of all
/// others it is the digest that is wrong.
pub fn lengths(said: &mut Said, rt: &HostRuntime, row: &Row<'_>) {
    let alg = said.taken(row.text("alg"), "");
    let mut digits = String::new(row.alloc);
    for length in 0..66usize {
        tell_length(said, rt, alg, digits.as_str(), length);
        if digits.push_str("00").is_err() {
            said.refuse(Bad::Memory);
        }
    }
    remove(said, rt, "made.tsq");
}

/// Says the number of octets, if a request is made of them.
fn tell_length(said: &mut Said, rt: &HostRuntime, alg: &str, digits: &str, length: usize) {
    let words = format!(in said.alloc; "request+--alg+{alg}+--digest+{digits}+made.tsq");
    let words = printed(said, words);
    let outcome = outcome_of(said, rt, words.as_str());
    if outcome.status == 0 {
        said.shown(&length);
    } else if outcome.printed.as_str() != "usage digest\n" {
        said.refuse(Bad::Text("another fault than that of the digest"));
    }
}
