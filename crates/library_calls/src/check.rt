ghost use Rattle.std.specs.Prelude.{◌≡◌, IfSome, option_map};
ghost use Rattle.trust_lists.specs.Asking.{is_among};
ghost use Rattle.check_verdict.specs.Checkers.{terms_for};
ghost use Rattle.library_calls.specs.Checked.{handed, terms_under, IsKnownVerdict, IsChecked};

use crate::held::HeldTrust;
use check_fit::Refused;
use check_verdict::{Accepted, Checker, judge_file};
use devices::{Slice, Source};
use library_answers::{Told, tell_verdict};
use list_answers::Answers;
use std::alloc::Global;

/// A file, and the content beside it, if it is given.
#[derive(Clone, Copy)]
pub struct Input<'i> {
    /// The file.
    pub file: &'i [u8],
    /// The content.
    pub content: &'i [u8],
    /// Whether the content is given.
    pub given: bool,
}

/// The source of a content, if it is given.
pub(crate) fn source_of<'a>(given: bool, content: &'a [u8]) -> Option<Slice<'a>>
    ensures rest { option_map ⟦<Slice<'a> as Source>⟧.rest result ≡ handed given content.now }
    ensures tells { IfSome result ⟦<Slice<'a> as Source>⟧.tells }
{
    if given {
        Some(Slice::new(content))
    } else {
        None
    }
}

/// The verdict about a file and its content by a checker, with an answers list.
pub fn judge_input(
    input: Input,
    checker: &mut Checker,
    asked: &mut Answers,
) -> Result<Accepted, Refused>
    // The verdict of the definitions; no device fails, but a content can be too long.
    ensures verdict { IsKnownVerdict (terms_for checker.old (is_among asked.old)) input.entry.file.now
        (handed input.entry.given input.entry.content.now) result }
    // What the check goes by stays the same.
    ensures stays { checker.new ≡ checker.old }
    // The answers list vouches for what it vouched for.
    ensures same { is_among asked.new ≡ is_among asked.old }
{
    let mut source = source_of(input.given, input.content);
    judge_file(input.file, &mut source, checker, asked)
}

/// The verdict about a file and its content under these lists.
fn file_verdict(
    list: &mut HeldTrust,
    asked: &mut Answers,
    input: Input,
    sha1: bool,
) -> Result<Accepted, Refused>
    ensures verdict { IsKnownVerdict (terms_under list.old asked.old sha1) input.entry.file.now
        (handed input.entry.given input.entry.content.now) result }
    ensures list { list.new ≡ list.old }
    ensures same { is_among asked.new ≡ is_among asked.old }
{
    let mut checker = list.checker(sha1);
    let verdict = judge_input(input, &mut checker, asked);
    let kept = checker.into_kept();
    list.keep(kept);
    verdict
}

/// Says whether each signature of a file existed by a moment, under these lists.
pub fn tell_check(
    alloc: Global,
    list: &mut HeldTrust,
    asked: &mut Answers,
    input: Input,
    sha1: bool,
    room: &mut [u8],
) -> Told
    // The verdict of the definitions, in numbers and as its line.
    ensures verdict { IsChecked (terms_under list.old asked.old sha1) input.entry.file.now
        (handed input.entry.given input.entry.content.now) result.said result.status room.old result.size room.new }
    // The trust list stays as it was.
    ensures list { list.new ≡ list.old }
    // The answers list vouches for what it vouched for.
    ensures same { is_among asked.new ≡ is_among asked.old }
{
    let verdict = file_verdict(list, asked, input, sha1);
    tell_verdict(alloc, &verdict, room)
}
