//! What trust lists and answers lists are read as, and what verifiers answer by them.
use der_time::{Moment, generalized_text};
use devices::FromWrite;
use list_answers::{Answers, AskFault, FusedVerifier, Question, Verifier};
use trust_lists::{Entry, Role, Trust};
use vectors::{Bad, Row, Said, needed};
use vectors_doubles::ExpectingVerifier;

/// The text of a value, in which `;` ends a line.
pub fn lines(row: &Row<'_>, name: &str) -> Result<String, Bad> {
    row.spelled(row.text(name)?, ";")
}

/// The trust list of a value.
pub fn trust_in(row: &Row<'_>, name: &str) -> Result<Trust, Bad> {
    let text = lines(row, name)?;
    trust_of(row, text.as_bytes())
}

fn trust_of(row: &Row<'_>, text: &[u8]) -> Result<Trust, Bad> {
    needed(Trust::read(row.alloc, text), "no trust list")
}

/// The answers list of a value.
pub fn answers_in(row: &Row<'_>, name: &str) -> Result<Answers, Bad> {
    let text = lines(row, name)?;
    answers_of(row, text.as_bytes())
}

fn answers_of(row: &Row<'_>, text: &[u8]) -> Result<Answers, Bad> {
    needed(Answers::read(row.alloc, text), "no answers")
}

/// The entries of a list, each with its role, its period and its certificate's serial number; or the first fault.
pub fn trust(said: &mut Said, row: &Row<'_>) {
    let text = given!(said, lines(row, "text"));
    match Trust::read(row.alloc, text.as_bytes()) {
        Ok(trust) => tell_trust(said, &trust),
        Err(fault) => said.shown(&fault),
    }
}

fn tell_trust(said: &mut Said, trust: &Trust) {
    let mut is_first = true;
    for entry in trust.entries() {
        tell_beside(said, is_first, name_of(entry.role()));
        tell_entry(said, entry);
        is_first = false;
    }
    if is_first {
        said.word("no entry");
    }
}

/// Says a word, without a space before it.
fn tell_beside(said: &mut Said, is_first: bool, word: &str) {
    if is_first {
        said.word(word);
    } else {
        said.mark(word);
    }
}

fn name_of(role: Role) -> &'static str {
    match role {
        Role::Signer => "signer",
        Role::Tsa => "tsa",
    }
}

fn tell_entry(said: &mut Said, entry: &Entry) {
    tell_moment(said, entry.from());
    tell_moment(said, entry.until());
    said.octets(entry.certificate().serial().bytes());
    said.mark(";");
}

fn tell_moment(said: &mut Said, moment: Option<Moment>) {
    match moment {
        None => said.word("-"),
        Some(moment) => said.word(generalized_text(moment).as_str()),
    }
}

/// What a verifier answers of the question whose parts are `$key`, `$digest_alg`, `$signature_alg`, `$tail` and this
/// signature.
fn answer_of<V: Verifier>(
    said: &mut Said,
    row: &Row<'_>,
    verifier: &mut V,
    signature: &str,
) -> &'static str {
    let key = part_of(said, row, "$key");
    let digest_alg = part_of(said, row, "$digest_alg");
    let signature_alg = part_of(said, row, "$signature_alg");
    let tail = part_of(said, row, "$tail");
    let signature = part_of(said, row, signature);
    name_of_answer(verifier.ask(&Question {
        key: &key,
        digest_alg: &digest_alg,
        signature_alg: &signature_alg,
        tail: &tail,
        signature: &signature,
    }))
}

fn part_of(said: &mut Said, row: &Row<'_>, parts: &str) -> Vec<u8> {
    said.taken(row.made(parts), Vec::new(row.alloc))
}

fn name_of_answer(answer: Result<bool, AskFault>) -> &'static str {
    match answer {
        Ok(true) => "true",
        Ok(false) => "false",
        Err(_) => "fails",
    }
}

/// What a verifier answers under each of the signatures, which commas divide.
fn tell_answers<V: Verifier>(said: &mut Said, row: &Row<'_>, verifier: &mut V) {
    for signature in said.taken(row.text("signatures"), "").split(',') {
        let answer = answer_of(said, row, verifier, signature);
        said.word(answer);
    }
}

/// Whether a list vouches for the question under each of the signatures; or the list's first fault.
pub fn vouches(said: &mut Said, row: &Row<'_>) {
    let text = given!(said, lines(row, "text"));
    match Answers::read(row.alloc, text.as_bytes()) {
        Ok(mut answers) => tell_answers(said, row, &mut answers),
        Err(fault) => said.shown(&fault),
    }
}

/// What a verifier that fails after so many questions answers, and how often it failed.
pub fn fused(said: &mut Said, row: &Row<'_>) {
    let calls = said.taken(row.number("calls"), 0) as u64;
    let answers = given!(said, answers_in(row, "text"));
    let mut verifier = FusedVerifier::new(answers, calls);
    tell_answers(said, row, &mut verifier);
    said.shown(&verifier.failed);
    said.word("failures");
}

/// What a verifier that expects the questions of a list answers, and after each answer whether it was surprised.
pub fn expecting(said: &mut Said, row: &Row<'_>) {
    let answers = given!(said, answers_in(row, "text"));
    let expected = given!(said, answers_in(row, "expected"));
    let mut verifier = ExpectingVerifier::new(answers, expected);
    let mut is_first = true;
    for signature in said.taken(row.text("signatures"), "").split(',') {
        let answer = answer_of(said, row, &mut verifier, signature);
        tell_beside(said, is_first, answer);
        said.shown(&verifier.surprised);
        said.mark(";");
        is_first = false;
    }
}

/// The trust list that a text says, as it is written.
fn written(said: &mut Said, row: &Row<'_>, text: &[u8]) -> Vec<u8> {
    let mut sink = FromWrite::new(Vec::new(row.alloc));
    match trust_of(row, text) {
        Ok(trust) => said.taken(needed(trust.write(&mut sink), "a sink that fails"), ()),
        Err(bad) => said.refuse(bad),
    }
    sink.into_inner()
}

/// Whether a trust list is written as this text, and read back is written so again; and how many octets that are.
pub fn rewritten(said: &mut Said, row: &Row<'_>) {
    let wanted = given!(said, lines(row, "as"));
    let text = given!(said, lines(row, "text"));
    let once = written(said, row, text.as_bytes());
    let twice = written(said, row, once.as_slice());
    said.shown(&(once.as_slice() == wanted.as_bytes()));
    said.shown(&(twice.as_slice() == wanted.as_bytes()));
    said.mark(",");
    said.shown(&once.len());
    said.word("octets");
}
