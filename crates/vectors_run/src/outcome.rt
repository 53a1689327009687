//! What a command line prints, and how it ends.
use cli_failures::Status;
use cli_words::{Meaning, meaning_of};
use std::alloc::AllocError;
use vectors::{Bad, Row, Said, needed};

/// How a command line ends, and what it prints.
#[derive(Drop)]
pub struct Outcome {
    /// The exit status.
    pub status: u8,
    /// What was printed where it belongs: of an exit status of at least 3, on the standard error.
    pub printed: String,
    /// What was printed on the other output.
    misplaced: String,
}

impl Outcome {
    /// Says the exit status, and this of what was printed. What stands on the other output is said too.
    pub fn tell(&self, said: &mut Said, printed: &str) {
        said.shown(&self.status);
        tell_lines(said, printed);
        if !self.misplaced.is_empty() {
            said.word("and on the other output");
            tell_lines(said, self.misplaced.as_str());
        }
    }
}

/// Says a text, with `\n` for the end of a line.
fn tell_lines(said: &mut Said, text: &str) {
    match text.replace(said.alloc, "\n", "\\n") {
        Ok(text) => said.word(text.as_str()),
        Err(_) => said.refuse(Bad::Memory),
    }
}

/// A text that was printed, or an empty one, which makes the answer bad.
pub fn printed(said: &mut Said, text: Result<String, AllocError>) -> String {
    match text {
        Ok(text) => text,
        Err(_) => {
            said.refuse(Bad::Memory);
            String::new(said.alloc)
        }
    }
}

/// Says how a command ends, and what it prints: the first words, the row's `words=`, and the last ones.
pub fn tell_command(said: &mut Said, rt: &HostRuntime, row: &Row<'_>, first: &str, last: &str) {
    let words = match row.value("words") {
        Some(further) => format!(in row.alloc; "{first}+{further}+{last}"),
        None => format!(in row.alloc; "{first}+{last}"),
    };
    let words = printed(said, words);
    let outcome = outcome_of(said, rt, words.as_str());
    outcome.tell(said, outcome.printed.as_str());
}

/// The words of a command line: the program's name, and those that a value has with a `+` between them; an empty value
/// has none.
pub fn words_of<'a>(said: &mut Said, value: &'a str) -> Vec<&'a str> {
    let mut words = Vec::new(said.alloc);
    add(said, &mut words, "cmsproof");
    if !value.is_empty() {
        for word in value.split('+') {
            add(said, &mut words, word);
        }
    }
    words
}

fn add<'a>(said: &mut Said, words: &mut Vec<&'a str>, word: &'a str) {
    if words.push(word).is_err() {
        said.refuse(Bad::Memory);
    }
}

/// The outcome of these words, as `words_of` reads them.
pub fn outcome_of(said: &mut Said, rt: &HostRuntime, words: &str) -> Outcome {
    let words = words_of(said, words);
    let (mut out, mut err) = (Vec::new(said.alloc), Vec::new(said.alloc));
    let status = ended(rt, words.as_slice(), &mut out, &mut err).code();
    let (out, err) = (as_text(said, out), as_text(said, err));
    let (printed, misplaced) = if status < 3 { (out, err) } else { (err, out) };
    Outcome {
        status,
        printed,
        misplaced,
    }
}

fn as_text(said: &mut Said, octets: Vec<u8>) -> String {
    let text = needed(String::from_utf8(octets), "an output that is no text");
    said.taken(text, String::new(said.alloc))
}

/// How the command of these words ends, which prints into these.
fn ended(rt: &HostRuntime, words: &[&str], out: &mut Vec<u8>, err: &mut Vec<u8>) -> Status {
    match meaning_of(rt.alloc(), words) {
        Ok(meaning) => done(rt, meaning, out, err),
        Err(failure) => failure.report(out, err),
    }
}

/// How a task ends. It is a function of its own, because the contract of `run` makes each step after its call slow to
/// check.
fn done(rt: &HostRuntime, meaning: Meaning<'_>, out: &mut Vec<u8>, err: &mut Vec<u8>) -> Status {
    match meaning {
        Meaning::Task(task) => cli_commands::run(rt, task, out, err),
        Meaning::Many(many) => cli_files::run(rt, &many, out, err),
        Meaning::Evidence(task) => cli_evidence::run(rt, &task, out, err),
        Meaning::Help(text) => cli_commands::print(text.as_str(), out, err),
    }
}
