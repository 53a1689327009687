ghost use Rattle.std.specs.Prelude.{◌≡◌, ◌≢◌, ◌∷◌, [], ℕ, List, Some, All, IfOk, IfSome, IfNone, IsOk, IsSome, IsTrue};
ghost use Rattle.std.specs.Prelude.{◌↔◌, length, unwrap_or};
ghost use Rattle.std.specs.Option.{option_copied};
ghost use Rattle.digests.specs.Algorithms.{length_of};
ghost use Rattle.digests.specs.Digests.{alg_of, octets_of};
ghost use Rattle.check_evidence.specs.CoveredValues.{AreValues, AreGiven};
ghost use Rattle.check_evidence.specs.Roots.{IsAscending, IsGroupOf, IsNode, IsRoot, IsCovered};
ghost use Rattle.check_evidence.specs.Standing.{HasLengths};
ghost use Rattle.check_evidence.specs.FirstValues.{HasFirst};

use crate::covered::Covered;
use crate::hashing::{group_of, group_with, is_ascending};
use crate::list_tests::only;
use crate::sorting::{sorted_group, sorted_group_with};
use digests::{Alg, Digest};
use evidence_types::{HashList, HashLists, HashValue};
use std::alloc::{AllocError, Global};

// The hash value of a group of values, through the index if they don't stand in ascending order.
fn group<'a>(
    alg: Alg,
    values: &HashList<'a>,
    index: &mut Vec<HashValue<'a>>,
) -> Result<Digest, AllocError>
    ensures algorithm { IfOk result (λ d. alg_of d ≡ alg) }
    ensures group { IfOk result (λ d. IsGroupOf alg values.now (octets_of d)) }
    ensures memory { IsAscending values.now → IsOk result }
{
    if is_ascending(values) {
        return Ok(group_of(alg, values));
    }
    sorted_group(alg, values, index)
}

// The digest with these octets.
fn given(alg: Alg, octets: &[u8]) -> Digest
    requires { length octets.now ≡ length_of alg }
    ensures algorithm { alg_of result ≡ alg }
    ensures octets { octets_of result ≡ octets.now }
{
    match Digest::given(alg, octets) {
        Some(digest) => digest,
        None => unreachable!(),
    }
}

// The node of the values of the first list.
fn first_node<'a>(
    alg: Alg,
    values: &HashList<'a>,
    index: &mut Vec<HashValue<'a>>,
) -> Result<Digest, AllocError>
    requires some { values.now ≢ [] }
    requires lengths { All (λ v. length v ≡ length_of alg) values.now }
    ensures algorithm { IfOk result (λ d. alg_of d ≡ alg) }
    ensures node { IfOk result (λ d. IsNode alg values.now (octets_of d)) }
    ensures memory { IsAscending values.now → IsOk result }
{
    let Some((value, others)) = values.next() else {
        unreachable!();
    };
    if others.is_empty() {
        return Ok(given(alg, value.bytes()));
    }
    group(alg, values, index)
}

// The node of a node and the values of the next list. A list without values changes nothing.
fn next_node<'a>(
    alg: Alg,
    node: Digest,
    values: &HashList<'a>,
    index: &mut Vec<HashValue<'a>>,
) -> Result<Digest, AllocError>
    requires { alg_of node ≡ alg }
    ensures algorithm { IfOk result (λ d. alg_of d ≡ alg) }
    ensures node { IfOk result (λ d. IsNode alg (octets_of node ∷ values.now) (octets_of d)) }
    ensures memory { IsAscending values.now → IsOk result }
{
    if values.is_empty() {
        return Ok(node);
    }
    if is_ascending(values) {
        return Ok(group_with(alg, node.bytes(), values));
    }
    sorted_group_with(alg, node.bytes(), values, index)
}

/// The root of the lists of an archive time-stamp (RFC 4998 4.3, step 3). The first list must have a value
/// (`has_first`) and each value as many octets as a digest by the algorithm (`have_lengths`). A list in ascending order
/// is hashed as it stands. For the others there is one index, in which the values of one list at a time are sorted: 16
/// octets for each value of the longest.
///
/// Errors: `AllocError` if memory is refused.
pub fn root_of_lists(alloc: Global, alg: Alg, lists: &HashLists) -> Result<Digest, AllocError>
    requires first { HasFirst lists.now }
    requires lengths { HasLengths (Some lists.now) alg }
    // It is by this algorithm.
    ensures algorithm { IfOk result (λ d. alg_of d ≡ alg) }
    // It is the root, whatever the lists cover.
    ensures root { IfOk result (λ d. (covered : List (List ℕ)) → IsRoot alg (Some lists.now) covered (octets_of d)) }
    // No memory is asked for if each list stands in ascending order.
    ensures memory { All IsAscending lists.now → IsOk result }
{
    let Some((first, mut left)) = lists.next() else {
        unreachable!();
    };
    let mut index = Vec::new(alloc);
    let mut node = first_node(alg, &first, &mut index)?;
    while let Some((values, others)) = left.next() {
        node = next_node(alg, node, &values, &mut index)?;
        left = others;
    }
    Ok(node)
}

/// Whether the first list has a value. That of a record that was read has one, and so has one that covers a digest.
pub fn has_first(lists: &HashLists) -> bool
    ensures { IsTrue result ↔ HasFirst lists.now }
{
    match lists.next() {
        Some((first, _)) => !first.is_empty(),
        None => false,
    }
}

/// The root of an archive time-stamp with these lists that covers these values (RFC 4998 4.3, steps 3 and 4). With
/// lists it is that of `root_of_lists`, whichever they are. Without lists it is the one value that must be covered,
/// which may occur more than once, and there is none if they aren't one.
///
/// Errors: `AllocError` if memory is refused.
pub fn root_of(
    alloc: Global,
    alg: Alg,
    lists: Option<&HashLists>,
    covered: &Covered,
) -> Result<Option<Digest>, AllocError>
    requires lengths { HasLengths (option_copied lists) alg }
    // The values can be computed by this algorithm.
    requires given { AreGiven alg covered.now }
    // It is by this algorithm.
    ensures algorithm { IfOk result (λ o. IfSome o (λ d. alg_of d ≡ alg)) }
    // It is the root of the lists.
    ensures root { (due : List (List ℕ)) → AreValues alg covered.now due
        → IfOk result (λ o. IfSome o (λ d. IsRoot alg (option_copied lists.entry) due (octets_of d))) }
    // If there is none, nothing is the root.
    ensures none { (due : List (List ℕ)) → AreValues alg covered.now due
        → IfOk result (λ o. IfNone o ((root : List ℕ) → IsRoot alg (option_copied lists.entry) due root → ⊥)) }
    // There is one if values are covered.
    ensures some { (due : List (List ℕ)) → AreValues alg covered.now due → IsCovered (option_copied lists.entry) due
        → due ≢ [] → IfOk result (λ o. IsSome o) }
    // No memory is asked for if each list stands in ascending order.
    ensures memory { All IsAscending (unwrap_or (option_copied lists.entry) []) → IsOk result }
{
    let Some(lists) = lists else {
        return Ok(only(alg, covered));
    };
    if !has_first(lists) {
        return Ok(None);
    }
    Ok(Some(root_of_lists(alloc, alg, lists)?))
}
