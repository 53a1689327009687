ghost use Rattle.std.specs.Prelude.{◌≡◌, ◌≤◌, ◌<◌, true, false, length, IfSome};
ghost use Rattle.lines_report.specs.VerdictLine.{IsVerdictLine};
ghost use Rattle.library_answers.specs.Failures.{Holds, IsPut, IsLine};
ghost use Rattle.library_answers.specs.Numbers.{numbers_of};
ghost use Rattle.library_answers.specs.Verdicts.{Tells, status_of};

use crate::answer::{Answer, accepted_answer, refused_answer};
use check_fit::{FileRule, Refused};
use check_verdict::Accepted;
use devices::FromWrite;
use lines_report::report;
use std::alloc::Global;

/// It did what was asked; of a check: accepted.
pub const DONE: u32 = 1;

/// A rule refuses.
pub const REFUSED: u32 = 2;

/// Octets are not of their form.
pub const MALFORMED: u32 = 3;

/// A value is not as it must be.
pub const USAGE: u32 = 4;

/// A device failed, or a content is too long.
pub const FAILED: u32 = 5;

/// A text is longer than its room.
pub(crate) const NO_ROOM: u32 = 6;

/// Memory was refused.
pub const NO_MEMORY: u32 = 7;

/// A list that was handed in holds none.
pub const NO_LIST: u32 = 8;

/// How a call ends, beside the text in its room.
#[derive(Clone, Copy)]
pub struct Told {
    /// The status.
    pub status: u32,
    /// The length of the text.
    pub size: usize,
    /// What was found, in numbers.
    pub said: Answer,
}

impl Told {
    /// There is no text.
    pub fn without_text(status: u32, said: Answer) -> Told
        // The status is this one.
        ensures status { result.status ≡ status }
        // The text has no octet.
        ensures size { result.size ≡ 0 }
        // The answer is this one.
        ensures said { result.said ≡ said }
    {
        Told {
            status,
            size: 0,
            said,
        }
    }
}

/// Puts a text to the front of its room, if it fits there.
pub(crate) fn put(text: &[u8], room: &mut [u8]) -> bool
    ensures fits { result ≡ true → (length text.now ≤ length room.old)
        × Holds text.now room.old (length text.now) room.new }
    ensures whole { result ≡ false → (length room.old < length text.now) × (room.new ≡ room.old) }
{
    if text.len() > room.len() {
        return false;
    }
    room[..text.len()].copy_from_slice(text);
    true
}

/// Says this in numbers and by this status, and puts a text into its room, if it fits there.
pub(crate) fn tell_text(text: &[u8], status: u32, said: Answer, room: &mut [u8]) -> Told
    ensures said { result.said ≡ said }
    ensures text { IsPut text.now status result.status room.old result.size room.new }
{
    let size = text.len();
    if put(text, room) {
        Told { status, size, said }
    } else {
        Told {
            status: NO_ROOM,
            size,
            said,
        }
    }
}

/// Says this in numbers, and puts the line of a verdict with this status into its room, if there is any.
pub fn tell_line(line: &[u8], verdict: u32, said: Answer, room: &mut [u8]) -> Told
    // The numbers are those.
    ensures said { result.said ≡ said }
    // The line is in the room, if there is any; or the status is 6, and the room is as it was.
    ensures line { IsLine line.now verdict result.status room.old result.size room.new }
{
    if room.is_empty() {
        Told::without_text(verdict, said)
    } else {
        tell_text(line, verdict, said, room)
    }
}

/// The line of an answer, if there is memory.
fn line_of(alloc: Global, answer: &Result<Accepted, Refused>) -> Option<Vec<u8>>
    ensures { IfSome result (λ v. IsVerdictLine answer.now v.items) }
{
    let mut sink = FromWrite::new(Vec::new(alloc));
    let Ok(()) = report(answer, &mut sink) else {
        return None;
    };
    Some(sink.into_inner())
}

/// The status of an answer.
fn status_of(answer: &Result<Accepted, Refused>) -> u32
    ensures { result ≡ status_of answer.now }
{
    match answer {
        Ok(_) => DONE,
        Err(Refused::File(FileRule::Malformed(_))) => MALFORMED,
        Err(Refused::Device(_)) => FAILED,
        Err(_) => REFUSED,
    }
}

/// An answer in numbers.
fn numbers_of(answer: &Result<Accepted, Refused>) -> Answer
    ensures { result ≡ numbers_of answer.now }
{
    match answer {
        Ok(accepted) => accepted_answer(accepted.moment),
        Err(refused) => refused_answer(*refused),
    }
}

/// Says an answer in numbers and by its status, and puts its line into the room, if there is any.
pub fn tell_verdict(alloc: Global, answer: &Result<Accepted, Refused>, room: &mut [u8]) -> Told
    // The answer in numbers.
    ensures said { result.said ≡ numbers_of answer.now }
    // Its status, and its line if there is room for it.
    ensures line { Tells answer.now result.status room.old result.size room.new }
{
    let said = numbers_of(answer);
    if room.is_empty() {
        return Told::without_text(status_of(answer), said);
    }
    match line_of(alloc, answer) {
        Some(line) => tell_line(&line, status_of(answer), said, room),
        None => Told::without_text(NO_MEMORY, said),
    }
}
