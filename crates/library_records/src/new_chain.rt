//! An evidence record that gets a new chain (Hash-Tree Renewal, RFC 4998 5.2), and the leaf of a tree on which that
//! stands.
ghost use Rattle.std.specs.Prelude.{◌≡◌, ◌<◌, ◌⊎◌, false, All, IfErr, IfOk, MatchOption, length, option_map};
ghost use Rattle.digests.specs.Digests.{alg_of, octets_of};
ghost use Rattle.evidence_making.specs.Done.{IsDoneAnewBy};
ghost use Rattle.evidence_making.specs.Groups.{StandsInNewChain};
ghost use Rattle.library_records.specs.Trees.{IsToldOf};
ghost use Rattle.library_records.specs.Renewals.{token_in};
ghost use Rattle.library_records.specs.NewChains.{AreGiven, BecomesAnew, GivesNone, HasNoNewLeaf, IsFoundAnew};
ghost use Rattle.library_records.specs.NewChains.{IsNewLeafOf, IsNotDoneAnew, IsRehashed, RehashesNot};
ghost use Rattle.library_records.specs.NewChains.{StandsAnewOnNothing};

use crate::renewal::{failure_of, lists_after};
use crate::tree::digests_in;
use cli_failures::Failure;
use digests::{Alg, Digest};
use evidence_making::{NewLeaf, rehash_leaf, rehash_record, rehashed_by};
use evidence_trees::Tree;
use library_answers::{Told, tell_made, tell_unmade};
use library_calls::alg_of;
use std::alloc::{AllocError, Global};

/// What a renewal by a hash tree stands on, and whether the record is renewed by the token already.
#[derive(Drop)]
struct NewStanding {
    /// What it stands on.
    on: NewLeaf,
    /// Whether the record is renewed already.
    done: bool,
}

/// The digests by this algorithm that the octets are, one after the other.
fn digests_given(alloc: Global, alg: Alg, octets: &[u8]) -> Result<Vec<Digest>, Failure<'static>>
    ensures found { IfOk result (λ v. AreGiven alg octets.now v.items) }
    ensures refused { IfErr result (λ f. (f ≡ Failure.Memory) ⊎ GivesNone alg octets.now f) }
{
    match digests_in(alloc, alg, octets) {
        Ok(Some(digests)) => Ok(digests),
        Ok(None) => Err(Failure::Usage("digest")),
        Err(_) => Err(Failure::Memory),
    }
}

/// What the renewal of a record by this token stood on, if there is a token and the record is renewed by it already.
fn done_by(
    alloc: Global,
    octets: &[u8],
    alg: Alg,
    digests: &[Digest],
    token: &[u8],
) -> Result<Option<NewLeaf>, AllocError>
    requires some { 0 < length digests.now }
    requires algorithm { All (λ d. alg_of d ≡ alg) digests.now }
    ensures { IfOk result (λ o. MatchOption o (IsNotDoneAnew token.now octets.now alg digests.now)
        (λ r. IsDoneAnewBy (token_in token.now) octets.now alg digests.now r.group r.after)) }
{
    if token.is_empty() {
        return Ok(None);
    }
    rehashed_by(alloc, octets, alg, digests, token)
}

/// What the renewal of a record by a hash tree stands on, for the data objects of these digests, with this token if
/// there is one already.
fn standing_of(
    alloc: Global,
    octets: &[u8],
    alg: Alg,
    digests: &[Digest],
    alone: bool,
    token: &[u8],
) -> Result<NewStanding, Failure<'static>>
    requires some { 0 < length digests.now }
    requires algorithm { All (λ d. alg_of d ≡ alg) digests.now }
    ensures found { IfOk result (λ s.
        IsFoundAnew token.now octets.now alone alg digests.now s.done s.on.group s.on.after) }
    ensures stands { IfOk result (λ s. s.done ≡ false
        → StandsInNewChain octets.now alg digests.now s.on.group s.on.after) }
    ensures refused { IfErr result (λ f.
        (f ≡ Failure.Memory) ⊎ StandsAnewOnNothing octets.now alone digests.now f) }
{
    if let Some(on) = done_by(alloc, octets, alg, digests, token)? {
        return Ok(NewStanding { on, done: true });
    }
    match rehash_leaf(alloc, octets, alg, digests, alone) {
        Ok(on) => Ok(NewStanding { on, done: false }),
        Err(fault) => Err(Failure::from(fault)),
    }
}

/// The leaf that the new time-stamp of a record must cover.
fn leaf_of(
    alloc: Global,
    name: &[u8],
    digests: &[u8],
    octets: &[u8],
    alone: bool,
    token: &[u8],
) -> Result<Digest, Failure<'static>>
    ensures found { IfOk result (λ leaf.
        IsNewLeafOf name.now digests.now octets.now alone token.now (octets_of leaf)) }
    ensures refused { IfErr result (HasNoNewLeaf name.now digests.now octets.now alone) }
{
    let alg = alg_of(name)?;
    let its = digests_given(alloc, alg, digests)?;
    let standing = standing_of(alloc, octets, alg, &its, alone, token)?;
    Ok(standing.on.group.node())
}

/// The leaf of a hash tree that the new time-stamp of a record must cover, if it gets a new chain for the data objects
/// of these digests by the algorithm of this name, which stand one after the other.
pub fn tell_rehash_leaf(
    alloc: Global,
    name: &[u8],
    digests: &[u8],
    octets: &[u8],
    alone: bool,
    token: &[u8],
    room: &mut [u8],
) -> Told
    // The octets of the leaf, or the first reason why there is none, in numbers and as the line.
    ensures { IsToldOf (IsNewLeafOf name.now digests.now octets.now alone token.now)
        (HasNoNewLeaf name.now digests.now octets.now alone) result.said result.status room.old result.size room.new }
{
    match leaf_of(alloc, name, digests, octets, alone, token) {
        Ok(leaf) => tell_made(leaf.bytes(), room),
        Err(why) => tell_unmade(alloc, &why, room),
    }
}

/// The octets of a record with a new chain by the token, or `None` if it has it already.
fn rehashed_of(
    alloc: Global,
    tree: &Tree,
    digests: &[u8],
    octets: &[u8],
    alone: bool,
    token: &[u8],
) -> Result<Option<Vec<u8>>, Failure<'static>>
    ensures rehashed { IfOk result (λ new.
        BecomesAnew tree.now digests.now alone token.now octets.now (option_map (λ v. v.items) new)) }
    ensures refused { IfErr result (RehashesNot tree.now digests.now alone token.now octets.now) }
{
    let alg = tree.root().alg();
    let its = digests_given(alloc, alg, digests)?;
    let standing = standing_of(alloc, octets, alg, &its, alone, token)?;
    let on = &standing.on;
    let node = on.group.node();
    let values = lists_after(tree, &node, on.after, token)?;
    if standing.done {
        return Ok(None);
    }
    match rehash_record(alloc, octets, alg, &on.group, &values, token) {
        Ok(rehashed) => Ok(Some(rehashed)),
        Err(fault) => Err(failure_of(fault)),
    }
}

/// An evidence record with a new chain by a token over the root of a tree with its leaf, for the data objects of these
/// digests, which stand one after the other.
pub fn tell_rehashed(
    alloc: Global,
    tree: &Tree,
    digests: &[u8],
    octets: &[u8],
    alone: bool,
    token: &[u8],
    room: &mut [u8],
) -> Told
    // The octets of the new record, or of the old one if it has this chain already; or the first reason why it gets
    // none, in numbers and as the line.
    ensures { IsToldOf (IsRehashed tree.now digests.now alone token.now octets.now)
        (RehashesNot tree.now digests.now alone token.now octets.now) result.said result.status room.old result.size
        room.new }
{
    match rehashed_of(alloc, tree, digests, octets, alone, token) {
        Ok(Some(rehashed)) => tell_made(&rehashed, room),
        Ok(None) => tell_made(octets, room),
        Err(why) => tell_unmade(alloc, &why, room),
    }
}
