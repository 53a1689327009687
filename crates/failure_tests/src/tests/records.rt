//! What `evidence check` and `evidence questions` do if an output fails, a file can't be read, or memory is refused.
//! `rt try --test --fail-alloc N` refuses the Nth request for memory: then the command reports it, and the next one
//! gives all.
mod files;

use super::asserts::must_hold;
use super::disk::{put, put_digits, remove};
use super::output::{FAILING, Output, must_be_given, must_be_given_one, with_room};
use cli_evidence::run;
use cli_tasks::{EvidenceQuestionsWords, EvidenceTask, EvidenceWords};
use files::{ANSWERS, QUESTIONS, TREE, TRUST};
use std::alloc::Global;

/// The line of the record.
const ACCEPTED: &str = "accepted 20240110100000Z\n";

/// Makes the files of the record.
fn put_all(rt: &HostRuntime) -> bool {
    put(rt, "of-record.txt", TRUST.as_bytes())
        && put(rt, "of-record.answers", ANSWERS.as_bytes())
        && put(rt, "of-record", b"abc")
        && put_digits(rt, "record.ers", TREE)
}

/// Removes them.
fn remove_all(rt: &HostRuntime) -> bool {
    let paths = [
        "of-record.txt",
        "of-record.answers",
        "of-record",
        "record.ers",
    ];
    remove(rt, &paths)
}

/// These words, if memory may be refused once.
fn words_of<'a>(alloc: Global, path: &'a str) -> Option<Vec<&'a str>> {
    let mut words = Vec::new(alloc);
    if words.push(path).is_ok() || words.push(path).is_ok() {
        Some(words)
    } else {
        None
    }
}

/// A check of the record in this file, for data in this one.
fn check_of<'a>(alloc: Global, record: &'a str, path: &'a str) -> Option<EvidenceTask<'a>> {
    match words_of(alloc, path) {
        Some(data) => Some(EvidenceTask::Check(EvidenceWords {
            trust: "of-record.txt",
            answers: "of-record.answers",
            ends: Vec::new(alloc),
            at: None,
            whole: false,
            record,
            data,
        })),
        None => None,
    }
}

/// What is asked about the record in this file.
fn questions_of(record: &str) -> EvidenceTask<'_> {
    EvidenceTask::Questions(EvidenceQuestionsWords {
        trust: "of-record.txt",
        record,
    })
}

/// How a task ends. It is a function of its own, because the contract of `run` makes each step after its call slow to
/// check.
fn code_of(
    rt: &HostRuntime,
    task: &EvidenceTask<'_>,
    out: &mut Output<'_>,
    err: &mut Output<'_>,
) -> u8 {
    run(rt, task, out, err).code()
}

/// Whether a task fails, and this is on the standard error and nothing on the standard output.
fn fails_with(rt: &HostRuntime, task: &EvidenceTask<'_>, line: &str) -> bool {
    let mut out = must_be_given("");
    let mut err = must_be_given(line);
    let code = code_of(rt, task, &mut out, &mut err);
    code == 4 && out.is_all() && err.is_all()
}

/// Whether a task reports that the output with this room failed.
fn fails_with_room(rt: &HostRuntime, task: &EvidenceTask<'_>, room: Option<usize>) -> bool {
    let mut out = with_room(room);
    let mut err = must_be_given("failed write -\n");
    let code = code_of(rt, task, &mut out, &mut err);
    code == 4 && err.is_all()
}

/// Whether a check for data in this file does so.
fn check_fails(rt: &HostRuntime, path: &str, room: Option<usize>) -> bool {
    match check_of(rt.alloc(), "record.ers", path) {
        Some(task) => fails_with_room(rt, &task, room),
        None => false,
    }
}

/// Whether the questions do so.
fn questions_fail(rt: &HostRuntime, room: Option<usize>) -> bool {
    fails_with_room(rt, &questions_of("record.ers"), room)
}

#[test]
fn reports_that_the_output_failed(rt: HostRuntime) {
    must_hold(&rt, put_all(&rt), "files");
    for (room, what) in &FAILING {
        must_hold(&rt, check_fails(&rt, "of-record", *room), what);
        must_hold(&rt, check_fails(&rt, "record.ers", *room), what);
        must_hold(&rt, questions_fail(&rt, *room), what);
    }
    must_hold(&rt, remove_all(&rt), "removed");
}

/// Whether a check of the record in this file, for data in this one, fails with this line.
fn check_says(rt: &HostRuntime, record: &str, path: &str, line: &str) -> bool {
    match check_of(rt.alloc(), record, path) {
        Some(task) => fails_with(rt, &task, line),
        None => false,
    }
}

/// Records and data of checks, and what is said of them.
static CHECKS: [(&str, &str, &str); 3] = [
    ("record.ers", ".", "failed X1 ReadFailed\n"),
    (".", "nowhere", "failed read .\n"),
    ("record.ers", "nowhere", "failed open nowhere\n"),
];

/// Records that are asked about, and what is said of them.
static ASKED: [(&str, &str); 2] = [
    (".", "failed read .\n"),
    ("nowhere", "failed open nowhere\n"),
];

/// A folder can be opened, and not be read.
#[test]
fn reports_what_cannot_be_read(rt: HostRuntime) {
    must_hold(&rt, put_all(&rt), "files");
    for (record, path, line) in &CHECKS {
        must_hold(&rt, check_says(&rt, record, path, line), line);
    }
    for (record, line) in &ASKED {
        must_hold(&rt, fails_with(&rt, &questions_of(record), line), line);
    }
    must_hold(&rt, remove_all(&rt), "removed");
}

/// Whether a task prints this text; no answer if it reports that memory was refused, and nothing else.
fn is_told(rt: &HostRuntime, task: &EvidenceTask<'_>, text: &str) -> Option<bool> {
    let mut out = must_be_given(text);
    let mut err = must_be_given_one("failed memory\n", "failed X4 OutOfMemory\n");
    let code = code_of(rt, task, &mut out, &mut err);
    if code == 4 && err.is_all() && out.is_untouched(text) {
        return None;
    }
    Some(code == 0 && out.is_all())
}

/// Whether a task prints this text, if memory may be refused once: then it reports that, and the next time it prints
/// all.
fn is_done(rt: &HostRuntime, task: &EvidenceTask<'_>, text: &str) -> bool {
    match is_told(rt, task, text) {
        Some(told) => told,
        None => is_told(rt, task, text) == Some(true),
    }
}

/// Whether the check of the record says so.
fn is_checked(rt: &HostRuntime) -> bool {
    match check_of(rt.alloc(), "record.ers", "of-record") {
        Some(task) => is_done(rt, &task, ACCEPTED),
        None => false,
    }
}

#[test]
fn the_next_command_gives_all(rt: HostRuntime) {
    must_hold(&rt, put_all(&rt), "files");
    must_hold(&rt, is_checked(&rt), "check");
    let is_asked = is_done(&rt, &questions_of("record.ers"), QUESTIONS);
    must_hold(&rt, is_asked, "questions");
    must_hold(&rt, remove_all(&rt), "removed");
}
