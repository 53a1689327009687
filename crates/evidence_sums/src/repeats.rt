//! Names that are there twice.
ghost use Rattle.std.specs.Prelude.{◌≡◌, true, [], IfOk};
ghost use Rattle.std.specs.List.{list_all};
ghost use Rattle.evidence_sums.specs.LineTests.{is_line, named_again};
ghost use Rattle.evidence_sums.specs.Lines.{lines_of};
ghost use Rattle.evidence_sums.specs.Marks.{next_mark, mark_of};

use crate::lines::first_line;
use crate::sum_lines::{escaped_in, is_continued};
use digests::Alg;
use std::alloc::{AllocError, Global};
use std::collections::BTreeSet;

/// By what a mark is multiplied at each octet: an odd number, 2^64 by the golden ratio.
const FACTOR: u64 = 0x9e37_79b9_7f4a_7c15;

fn next_mark(mark: u64, octet: u8) -> u64
    ensures { result ≡ next_mark mark octet }
{
    mark.wrapping_add(u64::from(octet)).wrapping_mul(FACTOR)
}

// The mark of a name. Names mostly begin alike, and their marks differ.
fn mark_of(octets: &[u8]) -> u64
    ensures { result ≡ mark_of octets.now }
{
    let mut mark = 0;
    for octet in octets {
        mark = next_mark(mark, *octet);
    }
    mark
}

/// The number of the first line whose name is that of a line before it, of the lines that continue none. A set of the
/// names as they stand in the lines is kept, each with its mark: two of these are the same exactly if the names are.
///
/// Errors: memory is refused.
pub(crate) fn name_again(
    alloc: Global,
    alg: Alg,
    may_continue: bool,
    text: &[u8],
) -> Result<Option<usize>, AllocError>
    requires { list_all (is_line may_continue alg) (lines_of text.now) ≡ true }
    ensures { IfOk result (λ r. r ≡ named_again may_continue alg [] 1 (lines_of text.now)) }
{
    let mut names = BTreeSet::new(alloc);
    let mut number = 1;
    let mut left = text;
    while !left.is_empty() {
        let (line, others) = first_line(left);
        if !is_continued(may_continue, line) {
            let name = escaped_in(alg, line);
            if !names.insert((mark_of(name), name))? {
                return Ok(Some(number));
            }
        }
        number += 1;
        left = others;
    }
    Ok(None)
}
