//! How a call says that it failed, or what it made.

ghost use Rattle.std.specs.Prelude.{◌≡◌, IfSome, MatchResult};
ghost use Rattle.cli_failures.specs.Failures.{failure_text};
ghost use Rattle.library_answers.specs.Failures.{fault_numbers, message_number, compare_rule_numbers};
ghost use Rattle.library_answers.specs.Failures.{uncompared_numbers};
ghost use Rattle.library_answers.specs.Failures.{match_numbers, attach_numbers, failure_numbers, status_number};
ghost use Rattle.library_answers.specs.Failures.{stamping_numbers, making_numbers, leaf_numbers};
ghost use Rattle.library_answers.specs.Failures.{failure_status, IsLine, IsMade, IsUnmade};

use crate::answer::{
    Answer, IS_MALFORMED, REFUSES, WRITTEN, evidence_answer, kind_number, refused_answer,
    signer_rule_number, token_answer,
};
use crate::text::{
    DONE, FAILED, MALFORMED, NO_MEMORY, REFUSED, Told, USAGE, put, tell_line, tell_text,
};
use cli_failures::{Failure, Message, Status};
use cms_compare::{CompareFault, CompareRule, Which};
use cms_types::CmsFault;
use der_core::Fault;
use evidence_making::{LeafFault, MakeFault, StampFault};
use std::alloc::Global;
use tsp_requester::{AttachFault, MatchFault};

/// Signers sign different octets.
const DIFFERENT: u32 = 8;

/// Signers sign the same octets, and the contents differ.
const COLLISION: u32 = 9;

/// The numbers of octets that are not of their form.
fn fault_answer(fault: Fault) -> Answer
    ensures { result ≡ fault_numbers fault }
{
    Answer::ruled(IS_MALFORMED, b'M', kind_number(fault.kind)).with_fault(fault)
}

/// The numbers of a message that is not of its form.
fn message_answer(message: Message, fault: Fault) -> Answer
    ensures { result ≡ record (fault_numbers fault) { line = message_number message } }
{
    let line = match message {
        Message::Request => 1,
        Message::Response => 2,
    };
    Answer {
        line,
        ..fault_answer(fault)
    }
}

/// The rule that a file fails which is to be compared, in numbers.
fn compare_rule_answer(rule: CompareRule) -> Answer
    ensures { result ≡ compare_rule_numbers rule }
{
    match rule {
        CompareRule::Malformed(CmsFault::Malformed(fault)) => {
            Answer::ruled(IS_MALFORMED, b'E', 1).with_fault(fault)
        }
        CompareRule::Malformed(_) => Answer::ruled(REFUSES, b'E', 1),
        CompareRule::NoSuchSigner => Answer::ruled(REFUSES, b'E', 2),
        CompareRule::NoContent => Answer::ruled(REFUSES, b'E', 3),
        CompareRule::Rule(rule) => Answer {
            inner: signer_rule_number(rule),
            ..Answer::ruled(REFUSES, b'E', 4)
        },
    }
}

/// Why two files are not compared, in numbers.
fn uncompared_answer(fault: CompareFault) -> Answer
    ensures { result ≡ uncompared_numbers fault }
{
    let line = match fault.which {
        Which::First => 1,
        Which::Second => 2,
    };
    Answer {
        line,
        ..compare_rule_answer(fault.rule)
    }
}

/// The rule by which a response does not answer, in numbers.
fn match_answer(fault: MatchFault) -> Answer
    ensures { result ≡ match_numbers fault }
{
    let number = match fault {
        MatchFault::Status => 1,
        MatchFault::NoToken => 2,
        MatchFault::TokenMalformed => 3,
        MatchFault::Imprint => 4,
        MatchFault::Nonce => 5,
        MatchFault::Policy => 6,
        MatchFault::CertMissing => 7,
    };
    Answer::ruled(REFUSES, b'P', number)
}

/// The rule by which a token is not attached, in numbers.
fn attach_answer(fault: AttachFault) -> Answer
    ensures { result ≡ attach_numbers fault }
{
    match fault {
        AttachFault::Malformed(CmsFault::Malformed(fault)) => {
            Answer::ruled(IS_MALFORMED, b'A', 1).with_fault(fault)
        }
        AttachFault::Malformed(_) => Answer::ruled(REFUSES, b'A', 1),
        AttachFault::NoSuchSigner => Answer::ruled(REFUSES, b'A', 2),
        AttachFault::TokenMalformed => Answer::ruled(REFUSES, b'A', 3),
        AttachFault::ImprintDiffers => Answer::ruled(REFUSES, b'A', 4),
        AttachFault::TooLong => Answer::ruled(REFUSES, b'A', 5),
        AttachFault::WriteFailed => Answer::nothing(),
    }
}

/// The rule by which a token isn't the stamp of a root, in numbers.
fn stamping_answer(fault: StampFault) -> Answer
    ensures { result ≡ stamping_numbers fault }
{
    let number = match fault {
        StampFault::TokenMalformed => 7,
        StampFault::ImprintDiffers => 8,
        StampFault::Order => 9,
    };
    Answer::ruled(REFUSES, b'U', number)
}

/// Why no evidence record was made, in numbers.
fn making_answer(fault: MakeFault) -> Answer
    ensures { result ≡ making_numbers fault }
{
    match fault {
        MakeFault::TooLong => Answer::ruled(REFUSES, b'U', 10),
        MakeFault::OutOfMemory => Answer::nothing(),
    }
}

/// Why there is nothing on which the renewal of an evidence record stands, in numbers.
fn leaf_answer(fault: LeafFault) -> Answer
    ensures { result ≡ leaf_numbers fault }
{
    match fault {
        LeafFault::Malformed(fault) => Answer::ruled(IS_MALFORMED, b'V', 1).with_fault(fault),
        LeafFault::NoStamp => Answer::ruled(REFUSES, b'U', 3),
        LeafFault::Unnamed => Answer::ruled(REFUSES, b'U', 11),
        LeafFault::OutOfMemory => Answer::nothing(),
    }
}

/// The numbers of a failure.
pub fn failure_answer(failure: &Failure) -> Answer
    ensures { result ≡ failure_numbers failure.now }
{
    match failure {
        Failure::Malformed(fault) => fault_answer(*fault),
        Failure::MalformedMessage(message, fault) => message_answer(*message, *fault),
        Failure::NotSignedData => Answer::ruled(REFUSES, 0, 0),
        Failure::Unmatched(fault) => match_answer(*fault),
        Failure::Refused(refused) => refused_answer(*refused),
        Failure::Different => Answer::ruled(DIFFERENT, 0, 0),
        Failure::Collision => Answer::ruled(COLLISION, 0, 0),
        Failure::Uncompared(fault) => uncompared_answer(*fault),
        Failure::Unattached(fault) => attach_answer(*fault),
        Failure::Unstamped(rule) => token_answer(*rule),
        Failure::Unshown(refused) => evidence_answer(*refused),
        Failure::Unevidenced(record) => Answer {
            line: 2,
            ..evidence_answer(record.refused)
        },
        Failure::Unstamping(fault) => stamping_answer(*fault),
        Failure::Unmade(fault) => making_answer(*fault),
        Failure::Unrenewable(fault) => leaf_answer(*fault),
        Failure::Mixed => Answer::ruled(REFUSES, b'U', 4),
        _ => Answer::nothing(),
    }
}

/// The status of a call that ends as the program does with this one.
fn status_number(status: Status) -> u32
    ensures { result ≡ status_number status }
{
    match status {
        Status::Done => DONE,
        Status::Refused => REFUSED,
        Status::Malformed => MALFORMED,
        Status::Usage => USAGE,
        Status::Failed => FAILED,
    }
}

/// The status of a call that fails.
pub fn failure_status(failure: &Failure) -> u32
    ensures { result ≡ failure_status failure.now }
{
    match failure {
        Failure::Memory => NO_MEMORY,
        _ => status_number(failure.status()),
    }
}

/// The line of a failure, if there is memory.
fn failure_line(alloc: Global, failure: &Failure) -> Option<Vec<u8>>
    ensures { IfSome result (λ line. line.items ≡ failure_text failure.now) }
{
    let Ok(line) = format!(in alloc; "{failure}") else {
        return None;
    };
    Some(line.into_bytes())
}

/// Says a failure in numbers, and puts its line into the room, if there is any.
pub fn tell_failure(alloc: Global, failure: &Failure, room: &mut [u8]) -> Told
    // The numbers are those of the failure.
    ensures said { result.said ≡ failure_numbers failure.now }
    // The status is the failure's, and its line is in the room, if there is any; or it is 6 or 7, and the room is as it
    // was.
    ensures line { IsLine (failure_text failure.now) (failure_status failure.now) result.status room.old result.size
        room.new }
{
    let said = failure_answer(failure);
    if room.is_empty() {
        return Told::without_text(failure_status(failure), said);
    }
    match failure_line(alloc, failure) {
        Some(line) => tell_line(&line, failure_status(failure), said, room),
        None => Told::without_text(NO_MEMORY, said),
    }
}

/// Puts what a call made into its room.
pub fn tell_made(octets: &[u8], room: &mut [u8]) -> Told
    ensures { IsMade octets.now result.said result.status room.old result.size room.new }
{
    tell_text(octets, DONE, Answer::ruled(WRITTEN, 0, 0), room)
}

/// Says why a call made nothing.
pub fn tell_unmade(alloc: Global, failure: &Failure, room: &mut [u8]) -> Told
    ensures { IsUnmade failure.now result.said result.status room.old result.size room.new }
{
    let (status, said) = (failure_status(failure), failure_answer(failure));
    let Some(line) = failure_line(alloc, failure) else {
        return Told::without_text(status, said);
    };
    let _ = put(&line, room);
    Told {
        status,
        size: line.len(),
        said,
    }
}

/// Puts what was made into its room, or says why nothing was.
pub fn tell_result(alloc: Global, made: Result<Vec<u8>, Failure<'static>>, room: &mut [u8]) -> Told
    ensures { MatchResult made.entry
        (λ octets. IsMade octets.items result.said result.status room.old result.size room.new)
        (λ why. IsUnmade why result.said result.status room.old result.size room.new) }
{
    match made {
        Ok(octets) => tell_made(&octets, room),
        Err(why) => tell_unmade(alloc, &why, room),
    }
}
