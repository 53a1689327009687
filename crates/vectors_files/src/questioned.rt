//! What calls write that list the questions of a file. Each call is a function of its own, because its contract makes
//! each step after it slow to check.
use cmsproof_api::{
    Pass, QuestionsFault, Sink, Source, StreamQuestionsFault, Trust, questions, questions_stream,
};
use devices::FromWrite;
use std::fmt::Display;
use vectors::{Row, Said};

/// Writes the questions of a file.
pub fn write_questions<S: Sink>(
    file: &[u8],
    trust: &Trust,
    sink: &mut S,
) -> Result<(), QuestionsFault> {
    questions(file, trust, sink)
}

/// Writes the questions of a file that is a source.
pub fn write_asked<F: Source, S: Sink>(
    passing: &mut Pass,
    file: &mut F,
    room: &mut [u8],
    trust: &Trust,
    sink: &mut S,
) -> Result<(), StreamQuestionsFault> {
    questions_stream(passing, file, room, trust, sink)
}

/// Says this word, or the fault.
pub fn tell_end<E: Display + Drop>(said: &mut Said, word: &str, end: Result<(), E>) {
    match end {
        Ok(()) => said.word(word),
        Err(fault) => said.shown(&fault),
    }
}

/// Says whether the questions of a file were written, and how many octets if they aren't the row's `lines`.
pub fn tell_questions(said: &mut Said, row: &Row<'_>, octets: &[u8], trust: &Trust) {
    let mut sink = FromWrite::new(Vec::new(row.alloc));
    tell_end(said, "written", write_questions(octets, trust, &mut sink));
    tell_lines(said, row, sink.into_inner());
}

/// The same of a file that is a source.
pub fn tell_asked<F: Source>(
    said: &mut Said,
    row: &Row<'_>,
    file: &mut F,
    room: &mut [u8],
    trust: &Trust,
) {
    let mut passing = Pass::new();
    let mut sink = FromWrite::new(Vec::new(row.alloc));
    tell_end(
        said,
        "written",
        write_asked(&mut passing, file, room, trust, &mut sink),
    );
    tell_lines(said, row, sink.into_inner());
}

fn tell_lines(said: &mut Said, row: &Row<'_>, text: Vec<u8>) {
    let lines = said.given_if_any(row, "lines");
    if text.as_slice() != lines.as_slice() {
        said.shown(&text.len());
        said.word("octets");
    }
}
