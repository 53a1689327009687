ghost use Rattle.std.specs.Prelude.{◌≡◌, ◌≢◌, ◌↔◌, ◌<◌, ℕ, List, [], true, false, length, IsTrue, IfSome, MatchOption};
ghost use Rattle.std.specs.List.{list_all};
ghost use Rattle.std.specs.Option.{option_copied};
ghost use Rattle.der_core.specs.Lists.{is_same};
ghost use Rattle.digests.specs.Digests.{alg_of, octets_of};
ghost use Rattle.check_evidence.specs.CoveredValues.{AreValues, AreGiven};
ghost use Rattle.check_evidence.specs.FirstValues.{HasFirst};
ghost use Rattle.check_evidence.specs.ListTests.{is_among, are_long, IsSearchable, AreMarked};
ghost use Rattle.check_evidence.specs.Roots.{AreOne, IsCovered, HasNoOthers};
ghost use Rattle.check_evidence.specs.Standing.{HasLengths};

use crate::covered::Covered;
use crate::hashing::is_ascending;
use crate::search::find;
use der_core::octets::is_same;
use digests::{Alg, Digest};
use evidence_types::{HashList, HashLists};

// For so many values a list is only walked.
const FEW: usize = 4;

// So many values of a list have marks at a time.
const MARKS: usize = 16_384;

// Whether the value is one of these.
fn is_among(values: &HashList, value: &[u8]) -> bool
    ensures { result ≡ is_among values.now value.now }
{
    let mut left = values.again();
    while let Some((other, others)) = left.next() {
        if is_same(value, other.bytes()) {
            return true;
        }
        left = others;
    }
    false
}

// Whether a list is searched for this many values: it has values with so many octets in ascending order, and the two
// walks that tell this take less than a walk for each value.
#[tactic(auto, using(crate::proofs::Tests::long_says))]
fn is_searched(values: &HashList, size: usize, count: usize) -> bool
    ensures { IsTrue result ↔ (4 < count) × IsSearchable size values.now }
{
    if count <= FEW {
        return false;
    }
    if !are_long(values, size) {
        return false;
    }
    is_ascending(values)
}

// Whether the value is one of these, which are searched if they can be.
fn is_listed(values: &HashList, size: usize, searched: bool, value: &[u8]) -> bool
    requires short { size < 128 }
    requires searchable { searched ≡ true → IsSearchable size values.now }
    ensures { result ≡ is_among values.now value.now }
{
    if searched {
        find(values, size, value).is_some()
    } else {
        is_among(values, value)
    }
}

// Whether each value that must be covered is one of these.
#[tactic(auto, using(crate::proofs::Strides::digests_are_short))]
fn are_among(alg: Alg, covered: &Covered, values: &HashList) -> bool
    requires { AreGiven alg covered.now }
    ensures { (due : List (List ℕ)) → AreValues alg covered.now due → result ≡ list_all (is_among values.now) due }
{
    let size = alg.length();
    let searched = is_searched(values, size, covered.len());
    let mut left = *covered;
    while let Some((value, others)) = left.next(alg) {
        if !is_listed(values, size, searched, value.bytes()) {
            return false;
        }
        left = others;
    }
    true
}

// Whether the value is one that must be covered.
fn is_of(value: &[u8], alg: Alg, covered: &Covered) -> bool
    requires { AreGiven alg covered.now }
    ensures { (due : List (List ℕ)) → AreValues alg covered.now due → result ≡ is_among due value.now }
{
    let mut left = *covered;
    while let Some((other, others)) = left.next(alg) {
        if is_same(value, other.bytes()) {
            return true;
        }
        left = others;
    }
    false
}

// Whether each value is one that must be covered, among which it is looked for.
fn are_of(values: &HashList, alg: Alg, covered: &Covered) -> bool
    requires { AreGiven alg covered.now }
    ensures { (due : List (List ℕ)) → AreValues alg covered.now due → result ≡ list_all (is_among due) values.now }
{
    let mut left = values.again();
    while let Some((value, others)) = left.next() {
        if !is_of(value.bytes(), alg, covered) {
            return false;
        }
        left = others;
    }
    true
}

// Marks the value, if it stands at a place that has a mark.
fn mark(values: &HashList, size: usize, value: &[u8], marks: &mut [bool; MARKS])
    requires short { size < 128 }
    requires searchable { IsSearchable size values.now }
    ensures { (due : List (List ℕ)) → is_among due value.now ≡ true → AreMarked due values.now marks.old
        → AreMarked due values.now marks.new }
{
    let Some(place) = find(values, size, value) else {
        return;
    };
    if place < MARKS {
        marks[place] = true;
    }
}

// Marks the values that must be covered.
fn mark_covered(
    values: &HashList,
    size: usize,
    alg: Alg,
    covered: &Covered,
    marks: &mut [bool; MARKS],
)
    requires short { size < 128 }
    requires searchable { IsSearchable size values.now }
    requires given { AreGiven alg covered.now }
    ensures { (due : List (List ℕ)) → AreValues alg covered.now due → AreMarked due values.now marks.old
        → AreMarked due values.now marks.new }
{
    let mut left = *covered;
    while let Some((value, others)) = left.next(alg) {
        mark(values, size, value.bytes(), marks);
        left = others;
    }
}

// The values behind those that have marks, if each of these is one that must be covered. It is not inlined, so that
// the frame of no other call has the marks.
#[inline(never)]
fn pass_marked<'a>(
    values: &HashList<'a>,
    size: usize,
    alg: Alg,
    covered: &Covered,
) -> Option<HashList<'a>>
    requires short { size < 128 }
    requires searchable { IsSearchable size values.now }
    requires given { AreGiven alg covered.now }
    ensures searchable { IfSome result (IsSearchable size) }
    ensures fewer { IfSome result (λ left. 0 < length values.now → length left < length values.now) }
    ensures passed { (due : List (List ℕ)) → AreValues alg covered.now due
        → MatchOption result (list_all (is_among due) values.now ≡ false)
        (λ left. list_all (is_among due) values.now ≡ list_all (is_among due) left) }
{
    let mut marks = [false; MARKS];
    mark_covered(values, size, alg, covered, &mut marks);
    let mut left = values.again();
    for marked in &marks {
        let Some((value, behind)) = left.next() else {
            return Some(left);
        };
        if !*marked && !is_of(value.bytes(), alg, covered) {
            return None;
        }
        left = behind;
    }
    Some(left)
}

// Whether each value of a list that is searched is one that must be covered: each of these is marked in the list, and
// only a value without a mark is looked for among them.
fn are_marked(values: &HashList, size: usize, alg: Alg, covered: &Covered) -> bool
    requires short { size < 128 }
    requires searchable { IsSearchable size values.now }
    requires given { AreGiven alg covered.now }
    ensures { (due : List (List ℕ)) → AreValues alg covered.now due → result ≡ list_all (is_among due) values.now }
{
    let mut left = values.again();
    while !left.is_empty() {
        let Some(further) = pass_marked(&left, size, alg, covered) else {
            return false;
        };
        left = further;
    }
    true
}

// Whether each value is one that must be covered.
#[tactic(auto, using(crate::proofs::Strides::digests_are_short))]
fn are_all_of(values: &HashList, alg: Alg, covered: &Covered) -> bool
    requires { AreGiven alg covered.now }
    ensures { (due : List (List ℕ)) → AreValues alg covered.now due → result ≡ list_all (is_among due) values.now }
{
    let size = alg.length();
    if is_searched(values, size, covered.len()) {
        are_marked(values, size, alg, covered)
    } else {
        are_of(values, alg, covered)
    }
}

// Whether each value that must be covered has these octets.
fn are_same(octets: &[u8], alg: Alg, covered: &Covered) -> bool
    requires { AreGiven alg covered.now }
    ensures { (due : List (List ℕ)) → AreValues alg covered.now due → result ≡ list_all (is_same octets.now) due }
{
    let mut left = *covered;
    while let Some((value, others)) = left.next(alg) {
        if !is_same(octets, value.bytes()) {
            return false;
        }
        left = others;
    }
    true
}

// The value that must be covered, if they are one, which may occur more than once.
pub(crate) fn only(alg: Alg, covered: &Covered) -> Option<Digest>
    requires { AreGiven alg covered.now }
    ensures algorithm { IfSome result (λ d. alg_of d ≡ alg) }
    ensures one { (due : List (List ℕ)) → AreValues alg covered.now due
        → MatchOption result ((value : List ℕ) → AreOne due value → ⊥) (λ d. AreOne due (octets_of d)) }
{
    let (first, others) = covered.next(alg)?;
    if are_same(first.bytes(), alg, &others) {
        Some(first)
    } else {
        None
    }
}

// Whether each value has this many octets.
fn are_long(values: &HashList, count: usize) -> bool
    ensures { result ≡ are_long count values.now }
{
    let mut left = values.again();
    while let Some((value, others)) = left.next() {
        if value.bytes().len() != count {
            return false;
        }
        left = others;
    }
    true
}

// Whether each value of each list has this many octets.
fn are_all_long(lists: &HashLists, count: usize) -> bool
    ensures { result ≡ list_all (are_long count) lists.now }
{
    let mut left = lists.again();
    while let Some((values, others)) = left.next() {
        if !are_long(&values, count) {
            return false;
        }
        left = others;
    }
    true
}

/// Whether each hash value of an archive time-stamp's lists has as many octets as a digest by the algorithm (RFC 4998
/// 4.2; rule W2). It allocates nothing.
pub fn have_lengths(lists: Option<&HashLists>, alg: Alg) -> bool
    ensures { IsTrue result ↔ HasLengths (option_copied lists.entry) alg }
{
    match lists {
        Some(lists) => are_all_long(lists, alg.length()),
        None => true,
    }
}

/// Whether an archive time-stamp with these lists covers what it must (RFC 4998 4.3, step 2, and 5.3; rule W3): each
/// value stands in the first list; without lists they are one, which may occur more than once. It allocates nothing.
/// For many values a first list in ascending order is searched by bisection; one in another order is gone through once
/// for each value.
pub fn are_covered(lists: Option<&HashLists>, alg: Alg, covered: &Covered) -> bool
    // The values can be computed by this algorithm.
    requires { AreGiven alg covered.now }
    // Returns whether they are covered.
    ensures covered { (due : List (List ℕ)) → AreValues alg covered.now due
        → IsTrue result ↔ IsCovered (option_copied lists.entry) due }
    // Lists that cover a value have a first list with a value.
    ensures first { (due : List (List ℕ)) → AreValues alg covered.now due → IsTrue result → due ≢ []
        → IfSome (option_copied lists.entry) HasFirst }
{
    let Some(lists) = lists else {
        return only(alg, covered).is_some();
    };
    match lists.next() {
        Some((first, _)) => are_among(alg, covered, &first),
        None => false,
    }
}

/// Whether the first of an archive time-stamp's lists has no value but those that must be covered, as where there are
/// no lists (rule W8). It allocates nothing. Of many values that must be covered each is searched for by bisection in a
/// list in ascending order, once for each 16,384 of its values; for each value of another list, and for one that occurs
/// again, all are computed anew.
pub fn has_no_others(lists: Option<&HashLists>, alg: Alg, covered: &Covered) -> bool
    // The values can be computed by this algorithm.
    requires { AreGiven alg covered.now }
    // Returns whether no others stand there.
    ensures { (due : List (List ℕ)) → AreValues alg covered.now due
        → IsTrue result ↔ HasNoOthers (option_copied lists.entry) due }
{
    let Some(lists) = lists else {
        return true;
    };
    match lists.next() {
        Some((first, _)) => are_all_of(&first, alg, covered),
        None => true,
    }
}
