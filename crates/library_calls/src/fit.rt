ghost use Rattle.std.specs.Prelude.{◌≡◌, ◌++◌, ◌∷◌, [], codes, IfSome};
ghost use Rattle.std.specs.Fmt.{decimal};
ghost use Rattle.library_calls.specs.Checked.{handed};
ghost use Rattle.library_calls.specs.Fit.{FitsHanded, IsFit};
ghost use Rattle.library_answers.specs.Failures.{IsLine};
ghost use Rattle.library_answers.specs.Numbers.{ruled};
ghost use Rattle.check_fit.specs.Fitting.{with_sha1};

use crate::check::{Input, source_of};
use check_fit::{Policy, Refused, fits};
use cli_failures::Failure;
use library_answers::{Answer, DONE, NO_MEMORY, Told, tell_failure, tell_line};
use std::alloc::Global;

/// Each signer fits.
const FITS: u32 = 5;

/// Whether the signers of a file fit its content.
fn fit_verdict(input: Input, sha1: bool) -> Result<usize, Refused>
    ensures { FitsHanded (with_sha1 sha1) input.entry.file.now (handed input.entry.given
        input.entry.content.now) result }
{
    let mut source = source_of(input.given, input.content);
    fits(input.file, &mut source, &Policy::with_sha1(sha1))
}

/// The line of that many signers that fit, if there is memory.
fn fits_line(alloc: Global, count: usize) -> Option<Vec<u8>>
    ensures { IfSome result (λ line. line.items ≡ codes "fits " ++ decimal count ++ (10 ∷ [])) }
{
    let Ok(line) = format!(in alloc; "fits {count}\n") else {
        return None;
    };
    Some(line.into_bytes())
}

/// Says that many signers fit.
fn tell_count(alloc: Global, count: usize, room: &mut [u8]) -> Told
    ensures said { result.said ≡ record (ruled 5 0 0) { signer = count } }
    ensures line { IsLine (codes "fits " ++ decimal count ++ (10 ∷ [])) 1 result.status room.old result.size room.new }
{
    let said = Answer {
        signer: count as u64,
        ..Answer::ruled(FITS, 0, 0)
    };
    if room.is_empty() {
        return Told::without_text(DONE, said);
    }
    match fits_line(alloc, count) {
        Some(line) => tell_line(&line, DONE, said, room),
        None => Told::without_text(NO_MEMORY, said),
    }
}

/// Whether the content and the signed attributes of each signer of a file in memory belong together.
pub fn tell_fit(alloc: Global, input: Input, sha1: bool, room: &mut [u8]) -> Told
    // How many signers fit, or the first rule that fails, in numbers and as the line.
    ensures { IsFit input.entry.file.now (handed input.entry.given input.entry.content.now) sha1 result.said
        result.status room.old
        result.size room.new }
{
    match fit_verdict(input, sha1) {
        Ok(count) => tell_count(alloc, count, room),
        Err(why) => tell_failure(alloc, &Failure::Refused(why), room),
    }
}
