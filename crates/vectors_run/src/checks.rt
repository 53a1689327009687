//! Files that are checked, or about which is asked, with lists that are made for them.
use crate::folder::{pipe_of, put, put_value, spelled};
use crate::outcome::{outcome_of, printed, tell_command};
use std::io::PipeReader;
use std::os::fd::AsRawFd;
use vectors::{Bad, Row, Said, has_part};

/// Says how `check` (or `questions`, if the kind is `ask`) ends and what it prints of `file=`. The trust list is
/// `trust=`, without its first two words. The answers list has each question of the file, or of `of=`, except those
/// that have the word `silent=`. The content beside the file is `content=`, if the row has it, and `words=` are further
/// words. With `piped=yes` the file is a pipe, which can be read only once.
pub fn check(said: &mut Said, rt: &HostRuntime, row: &Row<'_>) {
    put_lists(said, rt, row);
    let octets = said.given(row, "file");
    if said.taken(row.flag("piped"), false) {
        tell_piped(said, rt, row, octets.as_slice());
    } else {
        tell_checked(said, rt, row, octets.as_slice());
    }
}

/// Says of the file, cut to each number of octets from `from=` to below `to=`, how many were checked, and what is said
/// of all of them, or of the first that differs.
pub fn cuts(said: &mut Said, rt: &HostRuntime, row: &Row<'_>) {
    put_lists(said, rt, row);
    let octets = said.given(row, "file");
    let first = said.taken(row.number("from"), 0);
    let line = line_of(said, rt, row, octets.get(..first));
    tell_cuts(said, rt, row, octets.as_slice(), first, line.as_str());
}

/// Says how many beginnings there are of which this line is said, or the first other one.
fn tell_cuts(
    said: &mut Said,
    rt: &HostRuntime,
    row: &Row<'_>,
    octets: &[u8],
    first: usize,
    line: &str,
) {
    let end = said.taken(row.number("to"), 0);
    for length in first..end {
        let other = line_of(said, rt, row, octets.get(..length));
        if other.as_str() != line {
            said.value("at", &length);
            return said.word(other.as_str());
        }
    }
    said.shown(&end.saturating_sub(first));
    said.word("times");
    said.word(line);
}

/// What is said of the beginning of a file.
fn line_of(said: &mut Said, rt: &HostRuntime, row: &Row<'_>, front: Option<&[u8]>) -> String {
    let line = checked(rt, row, front);
    said.taken(line, String::new(row.alloc))
}

fn checked(rt: &HostRuntime, row: &Row<'_>, front: Option<&[u8]>) -> Result<String, Bad> {
    let mut said = Said::new(row)?;
    match front {
        Some(front) => tell_checked(&mut said, rt, row, front),
        None => said.refuse(Bad::Text("a cut behind the end")),
    }
    said.end()
}

/// Says what the row's command says of these octets.
fn tell_checked(said: &mut Said, rt: &HostRuntime, row: &Row<'_>, octets: &[u8]) {
    put(said, rt, "signed.p7s", octets);
    tell_command(said, rt, row, first_of(row), "signed.p7s");
}

/// The same of octets that come from a pipe.
fn tell_piped(said: &mut Said, rt: &HostRuntime, row: &Row<'_>, octets: &[u8]) {
    if let Some(reader) = pipe_of(said, rt, octets) {
        let path = path_of(said, &reader);
        tell_command(said, rt, row, first_of(row), path.as_str());
    }
}

/// The path of a pipe.
pub fn path_of(said: &mut Said, reader: &PipeReader) -> String {
    let path = format!(in said.alloc; "/proc/self/fd/{}", reader.as_raw_fd());
    printed(said, path)
}

/// The first words of the row's command.
fn first_of(row: &Row<'_>) -> &'static str {
    match (row.kind, row.value("content")) {
        ("ask", _) => "questions+--trust+trusted.txt",
        (_, None) => "check+--trust+trusted.txt+--answers+answers.txt",
        (_, Some(_)) => "check+--trust+trusted.txt+--answers+answers.txt+--content+content.txt",
    }
}

/// Makes the lists and the content of a row.
fn put_lists(said: &mut Said, rt: &HostRuntime, row: &Row<'_>) {
    put_trust(said, rt, row);
    put_value(said, rt, row, "signed.p7s", asked_in(row));
    put_answers(said, rt, row, &["questions+--trust+trusted.txt+signed.p7s"]);
    put_content(said, rt, row);
}

/// The name of the octets about which is asked.
fn asked_in(row: &Row<'_>) -> &'static str {
    match row.value("of") {
        Some(_) => "of",
        None => "file",
    }
}

/// Makes the content of a row, if it has one.
pub fn put_content(said: &mut Said, rt: &HostRuntime, row: &Row<'_>) {
    if row.value("content").is_some() {
        put_value(said, rt, row, "content.txt", "content");
    }
}

/// Makes the trust list that a row has as `trust=`, without its first two words.
pub fn put_trust(said: &mut Said, rt: &HostRuntime, row: &Row<'_>) {
    let entries = spelled(said, row, "trust");
    let list = printed(said, format!(in row.alloc; "cmsproof trust {entries}"));
    put(said, rt, "trusted.txt", list.as_bytes());
}

/// Makes the answers list of the questions that these commands print, without those that have the word `silent=`.
pub fn put_answers(said: &mut Said, rt: &HostRuntime, row: &Row<'_>, asking: &[&str]) {
    let mut list = String::new(row.alloc);
    add_line(said, &mut list, "cmsproof answers 1");
    for words in asking {
        let asked = outcome_of(said, rt, words);
        add_answers(said, row, &mut list, asked.printed.as_str());
    }
    put(said, rt, "answers.txt", list.as_bytes());
}

/// Adds the questions of a text, without those that have the word `silent=`.
fn add_answers(said: &mut Said, row: &Row<'_>, list: &mut String, asked: &str) {
    let silent = row.value("silent").unwrap_or("");
    for line in asked.lines() {
        if line.starts_with("30") && !has_part(line, ' ', silent) {
            add_line(said, list, line);
        }
    }
}

fn add_line(said: &mut Said, list: &mut String, line: &str) {
    if list.push_str(line).is_err() || list.push_str("\n").is_err() {
        said.refuse(Bad::Memory);
    }
}
