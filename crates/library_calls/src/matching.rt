ghost use Rattle.library_calls.specs.Matching.{IsMatch, IsTokenOf};

use cli_failures::token::token_of;
use library_answers::{Answer, DONE, Told, tell_failure, tell_line, tell_made, tell_unmade};
use std::alloc::Global;

/// A response answers a request.
const ANSWERS: u32 = 6;

/// Whether a response answers a request.
pub fn tell_match(alloc: Global, request: &[u8], response: &[u8], room: &mut [u8]) -> Told
    // Whether it answers by the definitions, or the first rule that fails, in numbers and as the line.
    ensures { IsMatch request.now response.now result.said result.status room.old result.size room.new }
{
    match token_of(request, response) {
        Ok(_) => {
            let said = Answer::ruled(ANSWERS, 0, 0);
            tell_line("answers\n".as_bytes(), DONE, said, room)
        }
        Err(why) => tell_failure(alloc, &why, room),
    }
}

/// The token of a response that answers a request.
pub fn tell_token(alloc: Global, request: &[u8], response: &[u8], room: &mut [u8]) -> Told
    // The token of a response that answers by the definitions, or the first rule that fails, in numbers and as the
    // line.
    ensures { IsTokenOf request.now response.now result.said result.status room.old result.size room.new }
{
    match token_of(request, response) {
        Ok(token) => tell_made(token, room),
        Err(why) => tell_unmade(alloc, &why, room),
    }
}
