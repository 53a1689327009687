//! The tests of the lines of a text, of which some may continue those before them, or none may. They take no memory.
ghost use Rattle.std.specs.Prelude.{◌≡◌, true, not, None, Ok, IfOk, if◌then◌else◌};
ghost use Rattle.std.specs.List.{list_all};
ghost use Rattle.evidence_sums.specs.LineTests.{is_line, is_named, unless_faulty};
ghost use Rattle.evidence_sums.specs.Lines.{lines_of, first_number};
ghost use Rattle.evidence_sums.specs.Records.{first_continues};

use crate::lines::first_line;
use crate::names::is_name;
use crate::sum_lines::{continues, escaped_in, is_continued, is_line};
use crate::sums_fault::{SumsFault, SumsRule};
use digests::Alg;

// The number of the first line, if it continues another though none is before it.
fn first_continued(may_continue: bool, text: &[u8]) -> Option<usize>
    ensures { result ≡ (if may_continue then first_continues (lines_of text.now) else None) }
{
    if !may_continue || text.is_empty() {
        return None;
    }
    let (line, _others) = first_line(text);
    if continues(line) { Some(1) } else { None }
}

// The number of the first line of another form.
fn other_line(alg: Alg, may_continue: bool, text: &[u8]) -> Option<usize>
    ensures { result ≡ first_number (λ l. not (is_line may_continue alg l)) 1 (lines_of text.now) }
{
    let mut number = 1;
    let mut left = text;
    while !left.is_empty() {
        let (line, others) = first_line(left);
        if !is_line(alg, may_continue, line) {
            return Some(number);
        }
        number += 1;
        left = others;
    }
    None
}

// Whether a line has the name of a file below a folder, or continues the one before it. No name is unescaped: this adds
// and takes away no slash, no point and no octet 0.
#[tactic(auto, using(crate::proofs::GoodLines::name_there, crate::proofs::LineParts::head_line))]
fn is_named(alg: Alg, may_continue: bool, line: &[u8]) -> bool
    requires { is_line may_continue alg line.now ≡ true }
    ensures { result ≡ is_named may_continue alg line.now }
{
    is_continued(may_continue, line) || is_name(escaped_in(alg, line))
}

// The number of the first line whose name isn't that of a file below a folder.
fn other_name(alg: Alg, may_continue: bool, text: &[u8]) -> Option<usize>
    requires { list_all (is_line may_continue alg) (lines_of text.now) ≡ true }
    ensures { result ≡ first_number (λ l. not (is_named may_continue alg l)) 1 (lines_of text.now) }
{
    let mut number = 1;
    let mut left = text;
    while !left.is_empty() {
        let (line, others) = first_line(left);
        if !is_named(alg, may_continue, line) {
            return Some(number);
        }
        number += 1;
        left = others;
    }
    None
}

/// Tests the forms of the lines, and then the names.
pub(crate) fn test(alg: Alg, may_continue: bool, text: &[u8]) -> Result<(), SumsFault>
    ensures tested { result ≡ unless_faulty may_continue alg (lines_of text.now) (Ok tt) }
    ensures lines { IfOk result (λ _. list_all (is_line may_continue alg) (lines_of text.now) ≡ true) }
{
    if let Some(line) = first_continued(may_continue, text) {
        return Err(SumsFault {
            rule: SumsRule::Line,
            line,
        });
    }
    if let Some(line) = other_line(alg, may_continue, text) {
        return Err(SumsFault {
            rule: SumsRule::Line,
            line,
        });
    }
    if text.is_empty() {
        return Err(SumsFault {
            rule: SumsRule::Empty,
            line: 0,
        });
    }
    match other_name(alg, may_continue, text) {
        Some(line) => Err(SumsFault {
            rule: SumsRule::Name,
            line,
        }),
        None => Ok(()),
    }
}
