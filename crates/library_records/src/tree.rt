//! Hash trees over digests that a caller states, and what a token is to stamp of them (RFC 4998 4.2).
ghost use Rattle.std.specs.Prelude.{◌≡◌, ◌⊎◌, ◌↔◌, ℕ, List, Some, None, All, IfErr, IfOk, IfSome, IsSome, MatchOption};
ghost use Rattle.std.specs.Prelude.{length, map};
ghost use Rattle.digests.specs.Algorithms.{length_of};
ghost use Rattle.digests.specs.Digests.{alg_of, octets_of};
ghost use Rattle.evidence_types.specs.StampValue.{IsSequence};
ghost use Rattle.library_answers.specs.Failures.{IsMade};
ghost use Rattle.library_records.specs.TreeRenewals.{StampsTree};
ghost use Rattle.library_records.specs.Trees.{AreDigests, IsDigestBy, IsTreeStated, ReadsTree, StampsNot, StatesNoTree};

use cli_failures::Failure;
use der_time::Moment;
use digests::{Alg, Digest};
use evidence_making::stamp_of_root;
use evidence_trees::Tree;
use library_answers::{Answer, NO_MEMORY, Told, USAGE, WRITTEN, tell_made};
use library_calls::alg_of;
use std::alloc::{AllocError, Global};

/// The digests by this algorithm that the octets are, one after the other; `None` if they are none.
pub(crate) fn digests_in(
    alloc: Global,
    alg: Alg,
    octets: &[u8],
) -> Result<Option<Vec<Digest>>, AllocError>
    ensures { IfOk result (λ found. MatchOption found
        ((digests : List (List ℕ)) → AreDigests alg octets.now digests → ⊥)
        (λ v. AreDigests alg octets.now (map octets_of v.items) × All (λ d. alg_of d ≡ alg) v.items)) }
{
    let size = alg.length();
    let mut digests = Vec::with_capacity(alloc, octets.len() / size)?;
    let mut left = octets;
    while left.len() >= size {
        let (first, others) = left.split_at(size);
        let Some(digest) = Digest::given(alg, first) else {
            unreachable!();
        };
        digests.push(digest)?;
        left = others;
    }
    if left.is_empty() && !octets.is_empty() {
        Ok(Some(digests))
    } else {
        Ok(None)
    }
}

/// The tree over the digests that a caller states, or the status that says why there is none.
fn tree_in(alloc: Global, name: &[u8], octets: &[u8]) -> Result<Tree, u32>
    ensures found { IfOk result (IsTreeStated name.now octets.now) }
    ensures refused { IfErr result (λ status. ((status ≡ 4) × StatesNoTree name.now octets.now) ⊎ (status ≡ 7)) }
{
    let Ok(alg) = alg_of(name) else {
        return Err(USAGE);
    };
    let Ok(found) = digests_in(alloc, alg, octets) else {
        return Err(NO_MEMORY);
    };
    let Some(digests) = found else {
        return Err(USAGE);
    };
    match Tree::of(alloc, alg, &digests) {
        Ok(tree) => Ok(tree),
        Err(_) => Err(NO_MEMORY),
    }
}

/// The tree over the digests that a caller states, or the status of the call, which says why there is none.
pub fn read_tree(alloc: Global, name: &[u8], digests: &[u8], said: &mut Answer) -> Result<Tree, u32>
    // The tree over these digests.
    ensures read { IfOk result (λ tree. ReadsTree name.now digests.now (Some tree) said.new 1) }
    // None is stated, or memory was refused.
    ensures refused { IfErr result (ReadsTree name.now digests.now None said.new) }
{
    match tree_in(alloc, name, digests) {
        Ok(tree) => {
            *said = Answer::ruled(WRITTEN, 0, 0);
            Ok(tree)
        }
        Err(status) => {
            *said = Answer::nothing();
            Err(status)
        }
    }
}

/// Puts the root of a tree into its room.
pub fn tell_root(tree: &Tree, room: &mut [u8]) -> Told
    // The octets of the root, or how many they are if there is too little room.
    ensures { IsMade tree.now.root result.said result.status room.old result.size room.new }
{
    tell_made(tree.root().bytes(), room)
}

/// The digest by the algorithm of a tree that has these octets.
pub(crate) fn digest_by(tree: &Tree, octets: &[u8]) -> Option<Digest>
    ensures some { IsSome result ↔ (length octets.now ≡ length_of tree.now.algorithm) }
    ensures is { IfSome result (IsDigestBy tree.now octets.now) }
{
    let alg = tree.root().alg();
    Digest::given(alg, octets)
}

/// The moment with which a token stamps the root of a tree.
pub(crate) fn moment_of(tree: &Tree, token: &[u8]) -> Result<Moment, Failure<'static>>
    ensures found { IfOk result (StampsTree tree.now token.now) }
    ensures sequence { IfOk result (λ _. IsSequence token.now) }
    ensures refused { IfErr result (StampsNot tree.now token.now) }
{
    let root = tree.root();
    match stamp_of_root(token, &root) {
        Ok(moment) => Ok(moment),
        Err(fault) => Err(Failure::Unstamping(fault)),
    }
}
