//! What a line of sums states.
ghost use Rattle.std.specs.Prelude.{◌≡◌};
ghost use Rattle.evidence_sums.specs.SumLines.{digits_of, is_marked, body_of, digits_in, mode_in, escaped_in};
ghost use Rattle.evidence_sums.specs.SumLines.{is_mode, is_just, is_sum_line};
ghost use Rattle.evidence_sums.specs.LineTests.{is_continued, is_line, part_of};
ghost use Rattle.evidence_sums.specs.Records.{continues};

use crate::lines::{behind, front};
use crate::names::{has_pair, is_escaped};
use der_core::octets::is_same;
use digests::Alg;
use list_answers::are_pairs;

fn digits_of(alg: Alg) -> usize
    ensures { result ≡ digits_of alg }
{
    2 * alg.length()
}

/// Whether a backslash begins the line.
pub(crate) fn is_marked(line: &[u8]) -> bool
    ensures { result ≡ is_marked line.now }
{
    !line.is_empty() && line[0] == b'\\'
}

fn body_of(line: &[u8]) -> &[u8]
    ensures { result.now ≡ body_of line.now }
{
    if is_marked(line) {
        behind(line, 1)
    } else {
        line
    }
}

/// The digits of a line.
pub(crate) fn digits_in(alg: Alg, line: &[u8]) -> &[u8]
    ensures { result.now ≡ digits_in alg line.now }
{
    front(body_of(line), digits_of(alg))
}

fn mode_in(alg: Alg, line: &[u8]) -> &[u8]
    ensures { result.now ≡ mode_in alg line.now }
{
    front(behind(body_of(line), digits_of(alg)), 2)
}

/// The name as it stands in a line.
pub(crate) fn escaped_in(alg: Alg, line: &[u8]) -> &[u8]
    ensures { result.now ≡ escaped_in alg line.now }
{
    behind(body_of(line), digits_of(alg) + 2)
}

fn is_mode(octets: &[u8]) -> bool
    ensures { result ≡ is_mode octets.now }
{
    is_same(octets, b"  ") || is_same(octets, b" *")
}

fn is_just(wanted: bool, holds: bool) -> bool
    ensures { result ≡ is_just wanted holds }
{
    if wanted { holds } else { !holds }
}

/// Whether a line is one of sums. It takes no memory.
pub(crate) fn is_sum_line(alg: Alg, line: &[u8]) -> bool
    ensures { result ≡ is_sum_line alg line.now }
{
    let name = escaped_in(alg, line);
    are_pairs(digits_in(alg, line))
        && is_mode(mode_in(alg, line))
        && is_escaped(name)
        && is_just(is_marked(line), has_pair(name))
}

/// Whether a line begins with a space.
pub(crate) fn continues(line: &[u8]) -> bool
    ensures { result ≡ continues line.now }
{
    !line.is_empty() && line[0] == b' '
}

/// Whether a line continues the one before it, if a line may.
pub(crate) fn is_continued(may_continue: bool, line: &[u8]) -> bool
    ensures { result ≡ is_continued may_continue line.now }
{
    may_continue && continues(line)
}

/// A line without the space by which it continues the one before it.
pub(crate) fn part_of(may_continue: bool, line: &[u8]) -> &[u8]
    ensures { result.now ≡ part_of may_continue line.now }
{
    if is_continued(may_continue, line) {
        behind(line, 1)
    } else {
        line
    }
}

/// Whether a line is one of sums, or one that continues the line before it.
pub(crate) fn is_line(alg: Alg, may_continue: bool, line: &[u8]) -> bool
    ensures { result ≡ is_line may_continue alg line.now }
{
    is_sum_line(alg, part_of(may_continue, line))
}
