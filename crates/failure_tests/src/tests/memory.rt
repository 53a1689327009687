//! Calls that allocate, or write into memory that grows. `rt try --test --fail-alloc N` refuses the Nth request for
//! memory: then the call reports it, and the next call gives the whole answer.
mod files;

use super::asserts::must_hold;
use super::disk::octets_of;
use check_fit::Policy;
use check_questions::QuestionsFault;
use check_stream::{StreamQuestionsFault, questions_stream};
use check_verdict::check;
use cms_stream::Pass;
use der_core::Oid;
use der_oid_text::{OidFault, oid_parse, oid_text};
use der_time::{Moment, generalized_text};
use devices::{FromWrite, Pieces, Slice};
use digests::{Alg, digest};
use files::{ANSWERS, CERTIFICATE, REQUEST, STAMP, STAMPED, TRUST, UNSTAMPED};
use lines_shown::{
    show_certificate, show_evidence, show_request, show_response, show_signed, show_tst,
};
use list_answers::{Answers, AnswersRule};
use std::alloc::Global;
use trust_lists::{Trust, TrustRule};
use tsp_types::{MakeFault, Request};

/// What a call gives, if memory may be refused once: then it reports this, and the next call gives all.
macro_rules! given {
    ($call:expr, $refused:pat) => {
        match $call {
            Err($refused) => $call.ok(),
            answer => answer.ok(),
        }
    };
}

/// Writes the questions of a file that comes in pieces of seven octets.
fn ask(
    file: &[u8],
    trust: &Trust,
    sink: &mut FromWrite<Vec<u8>>,
) -> Result<(), StreamQuestionsFault> {
    let mut file = Pieces::new(file, 7);
    questions_stream(&mut Pass::new(), &mut file, &mut [0; 1024], trust, sink)
}

/// These questions.
fn asked(alloc: Global, file: &[u8], trust: &Trust) -> Result<Vec<u8>, StreamQuestionsFault> {
    let mut sink = FromWrite::new(Vec::new(alloc));
    match ask(file, trust, &mut sink) {
        Ok(()) => Ok(sink.into_inner()),
        Err(fault) => Err(fault),
    }
}

/// Whether these are the questions that are answered.
fn are_answered(asked: &[u8]) -> bool {
    match ANSWERS.split_once('\n') {
        Some((_, lines)) => {
            asked.starts_with(b"cmsproof questions 1\n")
                && asked.get(21..) == Some(lines.as_bytes())
        }
        None => false,
    }
}

/// Whether the questions of the file are those answered.
fn is_asked(alloc: Global, file: &[u8], trust: &Trust) -> bool {
    let asked = given!(
        asked(alloc, file, trust),
        StreamQuestionsFault::Questions(QuestionsFault::WriteFailed)
    );
    match asked {
        Some(asked) => are_answered(&asked),
        None => false,
    }
}

/// The moment at which the file is accepted.
fn accepted(file: &[u8], trust: &Trust, answers: &mut Answers) -> Option<Moment> {
    let (policy, mut content): (Policy, Option<Slice<'_>>) = (Policy::with_sha1(false), None);
    match check(file, &mut content, trust, &policy, answers) {
        Ok(accepted) => Some(accepted.moment),
        Err(_) => None,
    }
}

/// Whether the file is accepted at 2024-01-15 10:00:00.
fn is_accepted(file: &[u8], trust: &Trust, answers: &mut Answers) -> bool {
    match accepted(file, trust, answers) {
        Some(moment) => generalized_text(moment).as_str() == "20240115100000Z",
        None => false,
    }
}

/// The trust list, or why there is none.
fn read_trust(alloc: Global) -> Result<Trust, TrustRule> {
    match Trust::read(alloc, TRUST.as_bytes()) {
        Ok(trust) => Ok(trust),
        Err(fault) => Err(fault.rule),
    }
}

/// The list of answers, or why there is none.
fn read_answers(alloc: Global) -> Result<Answers, AnswersRule> {
    match Answers::read(alloc, ANSWERS.as_bytes()) {
        Ok(answers) => Ok(answers),
        Err(fault) => Err(fault.rule),
    }
}

/// Whether the lists are read, and the stamped file is accepted by them, and its questions are those answered.
fn lists_are_read(rt: &HostRuntime) -> bool {
    let trust = given!(read_trust(rt.alloc()), TrustRule::OutOfMemory);
    let mut answers = given!(read_answers(rt.alloc()), AnswersRule::OutOfMemory);
    match (&octets_of(rt, STAMPED), &trust, &mut answers) {
        (Some(file), Some(trust), Some(answers)) => {
            is_asked(rt.alloc(), file, trust) && is_accepted(file, trust, answers)
        }
        _ => false,
    }
}

/// A request for a stamp of the SHA-256 of `abc`.
fn make(alloc: Global) -> Result<Vec<u8>, MakeFault> {
    Request::make(alloc, &digest(Alg::Sha256, b"abc"), None, None, true)
}

/// Whether it is made.
fn requests_are_made(rt: &HostRuntime) -> bool {
    match (
        given!(make(rt.alloc()), MakeFault::OutOfMemory),
        octets_of(rt, REQUEST),
    ) {
        (Some(made), Some(expected)) => made.as_slice() == expected.as_slice(),
        _ => false,
    }
}

/// Texts and the contents octets that they spell.
static SPELLED: [(&str, &[u8]); 4] = [
    ("0.0", b"\x00"),
    ("1.39.0", b"\x4f\x00"),
    ("2.999.3", b"\x88\x37\x03"),
    (
        "2.340282366920938463463374607431768211375",
        b"\x83\xff\xff\xff\xff\xff\xff\xff\xff\xff\xff\xff\xff\xff\xff\xff\xff\xff\x7f",
    ),
];

/// Whether an identifier is written as this text.
fn is_written(alloc: Global, oid: &Oid<'_>, text: &str) -> bool {
    match given!(oid_text(alloc, oid), _) {
        Some(written) => written.as_str() == text,
        None => false,
    }
}

/// Whether this text is read as these contents.
fn is_read(alloc: Global, text: &str, contents: &[u8]) -> bool {
    match given!(oid_parse(alloc, text), OidFault::OutOfMemory) {
        Some(read) => read.as_slice() == contents,
        None => false,
    }
}

/// Whether these contents are written as this text, and it is read as them.
fn is_spelled(alloc: Global, text: &str, contents: &[u8]) -> bool {
    match Oid::read(contents, 0) {
        Ok(oid) => is_written(alloc, &oid, text) && is_read(alloc, text, contents),
        Err(_) => false,
    }
}

/// What octets are.
#[derive(Clone, Copy)]
enum Shown {
    Request,
    Response,
    Tst,
    Certificate,
    Signed,
    Evidence,
}

/// What octets are, the octets, and the lines that show them.
static TEXTS: [(Shown, &str, &str); 6] = [
    (
        Shown::Request,
        REQUEST,
        "request\nalgorithm 2.16.840.1.101.3.4.2.1\n\
digest ba7816bf8f01cfea414140de5dae2223b00361a396177a9cb410ff61f20015ad\ncertreq true\n",
    ),
    (
        Shown::Response,
        "30053003020100",
        "response\nstatus granted\ntoken absent\n",
    ),
    (
        Shown::Tst,
        STAMP,
        "tst\npolicy 2.999.3\nalgorithm 2.16.840.1.101.3.4.2.1\n\
digest ba7816bf8f01cfea414140de5dae2223b00361a396177a9cb410ff61f20015ad\n\
serial 09\ntime 20240115100000Z\nordering absent\n",
    ),
    (
        Shown::Certificate,
        CERTIFICATE,
        "cert\nserial 05\nissuer 300c310a300806035504030c0141\nsubject 300c310a300806035504030c0141\n\
from 20240101000000Z\nuntil 20240131235959Z\nkey 300b3005060388370203020001\nstamping no\n",
    ),
    (
        Shown::Signed,
        UNSTAMPED,
        "signed\nversion 1 agrees\ndigests 1\ntype 1.2.840.113549.1.7.1\ncontent 3\ncertificates 0\ncrls 0\n\
signers 1\nsigner 1 version 1 agrees\nissuer 300c310a300806035504030c0141 serial 05\n\
digest 2.16.840.1.101.3.4.2.1\nsignature 2.999.1\nattributes 2\ntokens 0\n",
    ),
    // (its time-stamp is an empty SEQUENCE)
    (
        Shown::Evidence,
        "30250201013000a1050603883702301730153013a0050603883701a20830060401610401623000",
        "evidence\nversion 1\nalgorithms 0\nencryption 2.999.2\nchains 1\n\
chain 1 stamp 1 algorithm 2.999.1 time - lists 1 values 2\n",
    ),
];

/// The text that shows octets.
fn text_shown(alloc: Global, kind: Shown, octets: &[u8]) -> Option<String> {
    match kind {
        Shown::Request => show_request::text_of(alloc, octets).ok(),
        Shown::Response => show_response::text_of(alloc, octets).ok(),
        Shown::Tst => show_tst::text_of(alloc, octets).ok(),
        Shown::Certificate => show_certificate::text_of(alloc, octets).ok(),
        Shown::Signed => show_signed::text_of(alloc, octets).ok(),
        Shown::Evidence => show_evidence::text_of(alloc, octets).ok(),
    }
}

/// The same, if memory may be refused once.
fn text_given(alloc: Global, kind: Shown, octets: &[u8]) -> Option<String> {
    match text_shown(alloc, kind, octets) {
        Some(text) => Some(text),
        None => text_shown(alloc, kind, octets),
    }
}

/// Whether octets are shown by this text.
fn shows(alloc: Global, kind: Shown, octets: &[u8], expected: &str) -> bool {
    match text_given(alloc, kind, octets) {
        Some(text) => text.as_str() == expected,
        None => false,
    }
}

/// Whether the octets that digits spell are shown by this text.
fn is_shown(rt: &HostRuntime, kind: Shown, digits: &str, expected: &str) -> bool {
    match octets_of(rt, digits) {
        Some(octets) => shows(rt.alloc(), kind, &octets, expected),
        None => false,
    }
}

#[test]
fn the_next_call_gives_all(rt: HostRuntime) {
    must_hold(&rt, lists_are_read(&rt), "lists");
    must_hold(&rt, requests_are_made(&rt), "request");
    for (text, contents) in &SPELLED {
        must_hold(&rt, is_spelled(rt.alloc(), text, contents), text);
    }
    for (kind, digits, expected) in &TEXTS {
        must_hold(&rt, is_shown(&rt, *kind, digits, expected), expected);
    }
}
