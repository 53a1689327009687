//! Who is trusted, what is vouched for and what is handed in.
use cmsproof_api::{Answers, FusedVerifier, Policy, Trust};
use std::alloc::Global;
use vectors::{Bad, Row, Said, has_part, needed};
use vectors_doubles::ExpectingVerifier;

/// What a row tells:
///
/// - `trust`: lines of a trust list, divided by `;`, their words by `,`; `$name` is that octet string in hexadecimal;
/// - `version`: that of the trust list, 1 without it;
/// - `vouched`: lines of an answers list; without it those of `$asked_every`, but for those of `missing`;
/// - `sha1=yes` allows SHA-1, and `expecting=yes` has it said whether questions were asked that are not vouched for;
/// - `content`: a content that is handed in.
#[derive(Drop)]
pub struct Terms<'r, 'a> {
    /// The row.
    pub row: &'r Row<'a>,
    /// Who is trusted.
    pub trust: Trust,
    answers: String,
    /// What is allowed.
    pub policy: Policy,
    /// Whether it is said if questions were asked that are not vouched for.
    pub expecting: bool,
    /// The content.
    pub content: Option<Vec<u8>>,
}

impl<'r, 'a> Terms<'r, 'a> {
    /// Those of a row, under this trust list.
    pub fn of(said: &mut Said, row: &'r Row<'a>, trust: Trust) -> Terms<'r, 'a> {
        let content = match row.value("content") {
            Some(_) => Some(said.given(row, "content")),
            None => None,
        };
        Terms {
            row,
            trust,
            answers: answers_text(said, row),
            policy: Policy::with_sha1(said.taken(row.flag("sha1"), false)),
            expecting: said.taken(row.flag("expecting"), false),
            content,
        }
    }

    /// The answers list.
    fn answers(&self) -> Result<Answers, Bad> {
        let answers = Answers::read(self.row.alloc, self.answers.as_bytes());
        needed(answers, "an answers list that is none")
    }

    /// A verifier that goes by the answers list and passes so many questions on.
    pub fn fused_verifier(&self, calls: u64) -> Result<FusedVerifier<Answers>, Bad> {
        Ok(FusedVerifier::new(self.answers()?, calls))
    }

    /// A verifier that goes by the answers list and expects its questions.
    pub fn expecting_verifier(&self) -> Result<ExpectingVerifier<Answers>, Bad> {
        Ok(ExpectingVerifier::new(self.answers()?, self.answers()?))
    }
}

/// The trust list that a row tells.
pub fn trust_of(row: &Row<'_>) -> Result<Trust, Bad> {
    let text = trust_text(row)?;
    read_trust(row.alloc, text.as_str())
}

fn trust_text(row: &Row<'_>) -> Result<String, Bad> {
    let version = row.value("version").unwrap_or("1");
    let lines = row.spelled(row.value("trust").unwrap_or(""), ";")?;
    Ok(format!(in row.alloc; "cmsproof trust {version}\n{lines}\n")?)
}

fn read_trust(alloc: Global, text: &str) -> Result<Trust, Bad> {
    needed(
        Trust::read(alloc, text.as_bytes()),
        "a trust list that is none",
    )
}

/// The text of the answers list.
fn answers_text(said: &mut Said, row: &Row<'_>) -> String {
    let missing = text_or(said, row, "missing", "-");
    let lines = text_or(said, row, "vouched", "$asked_every");
    let mut text = String::new(row.alloc);
    add_line(said, &mut text, "cmsproof answers 1");
    for line in lines.as_str().lines() {
        if !has_part(missing.as_str(), '\n', line) {
            add_line(said, &mut text, line);
        }
    }
    text
}

fn add_line(said: &mut Said, text: &mut String, line: &str) {
    if text.push_str(line).is_err() || text.push_str("\n").is_err() {
        said.refuse(Bad::Memory);
    }
}

/// The text that the octets of a value are, or those of these parts without it.
fn text_or(said: &mut Said, row: &Row<'_>, name: &str, parts: &str) -> String {
    let octets = said.taken(row.octets_or(name, parts), Vec::new(row.alloc));
    let text = needed(String::from_utf8(octets), "octets that are no text");
    said.taken(text, String::new(row.alloc))
}
