ghost use Rattle.std.specs.Prelude.{◌≡◌, IfErr, IfOk, MatchBool};
ghost use Rattle.cli_failures.specs.Failures.{failure_of_message};
ghost use Rattle.cli_failures.specs.Stamps.{HoldsNoStamp, IsOfNoResponse, IsOfResponse, IsResponseByForm};
ghost use Rattle.cli_failures.specs.Stamps.{IsStampIn};
ghost use Rattle.cli_failures.specs.Tokens.{Answers, AnswersNot};

use crate::failure::{Failure, Message};
use der_core::octets::has_tag;
use der_core::tags::SEQUENCE;
use der_core::{Cursor, ReadFault};
use der_lists::Opaque;
use tsp_requester::{answers, granted_token};
use tsp_types::{Request, Response};

/// Why octets that should be this message can't be read as one. Reading allocates nothing.
fn malformed<'a>(message: Message, fault: ReadFault) -> Failure<'a>
    ensures { result ≡ failure_of_message message fault }
{
    match fault {
        ReadFault::Malformed(fault) => Failure::MalformedMessage(message, fault),
        ReadFault::OutOfMemory => Failure::Memory,
    }
}

/// The token of the response that these octets encode, which answers the request that the other octets encode.
///
/// Errors: `MalformedMessage` and `Unmatched`.
#[tactic(auto, using(crate::proofs::Messages::no_request, crate::proofs::Messages::no_response))]
pub fn token_of<'o, 'a>(request: &[u8], response: &'o [u8]) -> Result<&'o [u8], Failure<'a>>
    // Returns the token of a response that answers the request by the definitions.
    ensures answers { IfOk result (λ token. Answers request.now response.now token.now) }
    // An error says of which message the octets aren't the encoding, or by which rule the response doesn't answer.
    ensures refused { IfErr result (AnswersNot request.now response.now) }
{
    let asked = match Request::read(request) {
        Ok(asked) => asked,
        Err(fault) => return Err(malformed(Message::Request, fault)),
    };
    let given = match Response::read(response) {
        Ok(given) => given,
        Err(fault) => return Err(malformed(Message::Response, fault)),
    };
    match answers(&asked, &given) {
        Ok(()) => match given.token() {
            Some(token) => Ok(token),
            None => unreachable!(),
        },
        Err(rule) => Err(Failure::Unmatched(rule)),
    }
}

/// Whether octets begin as a response does.
fn is_response(octets: &[u8]) -> bool
    ensures { MatchBool result (IsResponseByForm octets.now) (IsResponseByForm octets.now → ⊥) }
{
    let mut front = Cursor::new(octets, 0);
    match front.expect(SEQUENCE) {
        Ok(element) => has_tag(element.body, SEQUENCE),
        Err(_) => false,
    }
}

/// The token of the response that these octets encode, which was granted.
fn token_granted<'o, 'a>(octets: &'o [u8]) -> Result<&'o [u8], Failure<'a>>
    ensures held { IfOk result (λ token. IsOfResponse octets.now token.now) }
    ensures refused { IfErr result (IsOfNoResponse octets.now) }
{
    let given = match Response::read(octets) {
        Ok(given) => given,
        Err(ReadFault::Malformed(fault)) => return Err(Failure::Malformed(fault)),
        Err(ReadFault::OutOfMemory) => unreachable!(),
    };
    match granted_token(&given) {
        Ok(token) => Ok(token),
        Err(lacks) => Err(Failure::Unmatched(lacks)),
    }
}

/// The token of a stamp that stands beside a file: that of a response which was granted, if these octets begin as one,
/// and otherwise the octets themselves, one whole element (RFC 3161 2.4.2). Whether that is a token isn't asked, and
/// nothing else of a response counts.
///
/// Errors: `Malformed` and `Unmatched`, with P1 or P2.
pub fn stamp_in<'o, 'a>(octets: &'o [u8]) -> Result<&'o [u8], Failure<'a>>
    // Returns the token of the response, or the octets.
    ensures held { IfOk result (λ token. IsStampIn octets.now token.now) }
    // An error says what the octets aren't, or by which rule the response has no token.
    ensures refused { IfErr result (HoldsNoStamp octets.now) }
{
    if is_response(octets) {
        return token_granted(octets);
    }
    match Opaque::read(Cursor::new(octets, 0)) {
        Ok(element) => Ok(element.whole()),
        Err(fault) => Err(Failure::Malformed(fault)),
    }
}
