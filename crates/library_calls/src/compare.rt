ghost use Rattle.std.specs.Prelude.{◌≡◌};
ghost use Rattle.library_calls.specs.Comparing.{IsComparison, compared_numbers, compared_status, compared_line};

use cli_failures::Failure;
use cms_compare::{Compared, compare};
use library_answers::{Answer, DONE, REFUSED, Told, failure_answer, tell_failure, tell_line};
use std::alloc::Global;

/// Signers sign the same.
const SAME: u32 = 7;

/// How two signers compare, in numbers.
fn compared_answer(compared: Compared) -> Answer
    ensures { result ≡ compared_numbers compared }
{
    match compared {
        Compared::Same => Answer::ruled(SAME, 0, 0),
        Compared::Different => failure_answer(&Failure::Different),
        Compared::Collision => failure_answer(&Failure::Collision),
    }
}

/// The status of that.
fn compared_status(compared: Compared) -> u32
    ensures { result ≡ compared_status compared }
{
    match compared {
        Compared::Same => DONE,
        _ => REFUSED,
    }
}

/// The line of that.
fn compared_line(compared: Compared) -> &'static str
    ensures { result.now ≡ compared_line compared }
{
    match compared {
        Compared::Same => "same\n",
        Compared::Different => "different\n",
        Compared::Collision => "collision\n",
    }
}

/// Whether a signer of one file and a signer of another sign the same.
pub fn tell_comparison(
    alloc: Global,
    first: &[u8],
    first_signer: u64,
    second: &[u8],
    second_signer: u64,
    room: &mut [u8],
) -> Told
    // How they compare by the definitions, or why they are not compared, in numbers and as the line.
    ensures { IsComparison first.now first_signer second.now second_signer result.said result.status room.old
        result.size room.new }
{
    match compare(first, first_signer, second, second_signer) {
        Ok(compared) => {
            let line = compared_line(compared).as_bytes();
            let said = compared_answer(compared);
            tell_line(line, compared_status(compared), said, room)
        }
        Err(fault) => tell_failure(alloc, &Failure::Uncompared(fault), room),
    }
}
