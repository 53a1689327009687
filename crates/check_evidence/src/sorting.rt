ghost use Rattle.std.specs.Prelude.{◌≡◌, ◌≤◌, ◌++◌, ◌∷◌, ℕ, List, take, drop, length, OnOk, IfOk};
ghost use Rattle.std.specs.List.{concat};
ghost use Rattle.std.specs.Ordering.{nat_cmp};
ghost use Rattle.std.specs.Cmp.Lexicographic.{slice_cmp};
ghost use Rattle.digests.specs.Digests.{alg_of, octets_of};
ghost use Rattle.digests.specs.Messages.{digest_of};
ghost use Rattle.digests.specs.Selection.{FedWanted, set_of};
ghost use Rattle.check_evidence.specs.Roots.{InOrder, IsGroupOf};
ghost use Rattle.check_evidence.specs.Joining.{put_in};

use crate::hashing::finish;
use der_core::octets::is_less;
use digests::{Alg, Algs, Digest, Wanted};
use evidence_types::{HashList, HashValue};
use std::alloc::AllocError;
use std::cmp::Ordering;

// Which of two hash values is the first, octet by octet.
fn order(first: &HashValue, second: &HashValue) -> Ordering
    ensures { result ≡ slice_cmp nat_cmp first.now second.now }
{
    first.bytes().cmp(second.bytes())
}

// Writes the values into the index, in place of what it had.
fn fill<'a>(values: &HashList<'a>, index: &mut Vec<HashValue<'a>>) -> Result<(), AllocError>
    ensures { OnOk result (index.new.items ≡ values.now) }
{
    index.clear();
    index.reserve(values.len())?;
    let mut left = values.again();
    while let Some((value, others)) = left.next() {
        index.push(value)?;
        left = others;
    }
    Ok(())
}

// Puts the values into the index in ascending order, in place of what it had.
fn sort<'a>(values: &HashList<'a>, index: &mut Vec<HashValue<'a>>) -> Result<(), AllocError>
    ensures { OnOk result (InOrder values.now index.new.items) }
{
    fill(values, index)?;
    index.sort_unstable_by(order);
    Ok(())
}

// How many of the values are before the node.
fn place_of(node: &[u8], values: &[HashValue]) -> usize
    ensures within { result ≤ length values.now }
    ensures place { put_in node.now values.now ≡ take result values.now ++ node.now ∷ drop result values.now }
{
    for (place, value) in values.iter().enumerate() {
        if !is_less(value.bytes(), node) {
            return place;
        }
    }
    values.len()
}

// Feeds the values, one after the other.
fn feed(hashers: &mut Wanted, values: &[HashValue])
    ensures set { set_of hashers.new ≡ set_of hashers.old }
    ensures fed { (m : List ℕ) → FedWanted hashers.old m → FedWanted hashers.new (m ++ concat values.now) }
{
    for value in values {
        hashers.update(value.bytes());
    }
}

// The digest of the values, one after the other.
fn hashed(alg: Alg, values: &[HashValue]) -> Digest
    ensures algorithm { alg_of result ≡ alg }
    ensures octets { octets_of result ≡ digest_of alg (concat values.now) }
{
    let mut hashers = Wanted::new(Algs::none().with(alg));
    feed(&mut hashers, values);
    finish(alg, hashers)
}

// The same with one more value put in at its place.
fn hashed_with(alg: Alg, node: &[u8], values: &[HashValue]) -> Digest
    ensures algorithm { alg_of result ≡ alg }
    ensures octets { octets_of result ≡ digest_of alg (concat (put_in node.now values.now)) }
{
    let mut hashers = Wanted::new(Algs::none().with(alg));
    let (before, after) = values.split_at(place_of(node, values));
    feed(&mut hashers, before);
    hashers.update(node);
    feed(&mut hashers, after);
    finish(alg, hashers)
}

// The hash value of a group of values in any order. The values are put in order in the index.
pub(crate) fn sorted_group<'a>(
    alg: Alg,
    values: &HashList<'a>,
    index: &mut Vec<HashValue<'a>>,
) -> Result<Digest, AllocError>
    ensures algorithm { IfOk result (λ d. alg_of d ≡ alg) }
    ensures group { IfOk result (λ d. IsGroupOf alg values.now (octets_of d)) }
{
    sort(values, index)?;
    Ok(hashed(alg, index))
}

// The hash value of a node and values in any order. The values are put in order in the index.
pub(crate) fn sorted_group_with<'a>(
    alg: Alg,
    node: &[u8],
    values: &HashList<'a>,
    index: &mut Vec<HashValue<'a>>,
) -> Result<Digest, AllocError>
    ensures algorithm { IfOk result (λ d. alg_of d ≡ alg) }
    ensures group { IfOk result (λ d. IsGroupOf alg (node.now ∷ values.now) (octets_of d)) }
{
    sort(values, index)?;
    Ok(hashed_with(alg, node, index))
}
