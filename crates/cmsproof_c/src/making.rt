ghost use Rattle.std.specs.Prelude.{◌≡◌};
ghost use Rattle.library_records.specs.Trees.{IsToldOf};
ghost use Rattle.library_records.specs.Records.{IsRecordOf, MakesNoRecord};
ghost use Rattle.library_records.specs.Renewals.{HasNoLast, HasNoLeaf, IsAlgorithmOf, IsLeafOf, IsRenewed, RenewsNot};
ghost use Rattle.library_records.specs.NewChains.{HasNoNewLeaf, IsNewLeafOf, IsRehashed, RehashesNot};
ghost use Rattle.cmsproof_c.specs.Trees.{TellsBy};

use crate::tree_handle::TreeHandle;
use library_answers::{Answer, NO_LIST};
use library_records::{
    tell_record, tell_rehash_leaf, tell_rehashed, tell_renewal_algorithm, tell_renewal_leaf,
    tell_renewed,
};
use std::alloc::Global;

/// The evidence record of a digest, a leaf of the tree of a handle, with a token over its root.
#[unsafe(no_mangle)]
pub extern "C" fn cmsproof_evidence_make(
    alloc: Global,
    tree: &mut TreeHandle,
    digest: &[u8],
    token: &[u8],
    text: &mut [u8],
    size: &mut usize,
    said: &mut Answer,
) -> u32
    // The octets of the record, or the first reason why none is made; without a tree nothing.
    ensures record { TellsBy tree.old.inside.kept (λ t. IsRecordOf t digest.now token.now)
        (λ t. MakesNoRecord t digest.now token.now) said.new result text.old size.new text.new }
    // The tree stays as it was.
    ensures tree { tree.new.inside.kept ≡ tree.old.inside.kept }
{
    put_by!(alloc, tree: TreeHandle, held => tell_record(alloc, &held, digest, token, text) => size, said)
}

/// The algorithm of the tree by which an evidence record is renewed.
#[unsafe(no_mangle)]
pub extern "C" fn cmsproof_evidence_renew_algorithm(
    alloc: Global,
    evidence: &[u8],
    text: &mut [u8],
    size: &mut usize,
    said: &mut Answer,
) -> u32
    // The name of the algorithm of the record's last chain, or why there is none.
    ensures { IsToldOf (IsAlgorithmOf evidence.now) (HasNoLast evidence.now) said.new result text.old size.new
        text.new }
{
    put!(tell_renewal_algorithm(alloc, evidence, text) => size, said)
}

/// The leaf of the tree by which an evidence record is renewed.
#[unsafe(no_mangle)]
pub extern "C" fn cmsproof_evidence_renew_leaf(
    alloc: Global,
    evidence: &[u8],
    algorithm: &[u8],
    token: &[u8],
    text: &mut [u8],
    size: &mut usize,
    said: &mut Answer,
) -> u32
    // The digest of the record's last time-stamp, or if the token has renewed it already of the one before; or the
    // first reason why there is none by the algorithm of this name.
    ensures { IsToldOf (IsLeafOf algorithm.now evidence.now token.now)
        (HasNoLeaf algorithm.now evidence.now token.now) said.new result text.old size.new text.new }
{
    put!(tell_renewal_leaf(alloc, algorithm, evidence, token, text) => size, said)
}

/// An evidence record, renewed by a token over the root of the tree of a handle.
#[unsafe(no_mangle)]
pub extern "C" fn cmsproof_evidence_renew(
    alloc: Global,
    tree: &mut TreeHandle,
    evidence: &[u8],
    token: &[u8],
    text: &mut [u8],
    size: &mut usize,
    said: &mut Answer,
) -> u32
    // The octets of the new record, or of the old one if the token has renewed it already; or the first reason why it
    // isn't renewed; without a tree nothing.
    ensures renewed { TellsBy tree.old.inside.kept (λ t. IsRenewed t token.now evidence.now)
        (λ t. RenewsNot t token.now evidence.now) said.new result text.old size.new text.new }
    // The tree stays as it was.
    ensures tree { tree.new.inside.kept ≡ tree.old.inside.kept }
{
    put_by!(alloc, tree: TreeHandle, held => tell_renewed(alloc, &held, evidence, token, text) => size, said)
}

/// The leaf of the tree by which an evidence record gets a new chain, for the data objects of these digests.
#[unsafe(no_mangle)]
pub extern "C" fn cmsproof_evidence_rehash_leaf(
    alloc: Global,
    evidence: &[u8],
    algorithm: &[u8],
    digests: &[u8],
    alone: bool,
    token: &[u8],
    text: &mut [u8],
    size: &mut usize,
    said: &mut Answer,
) -> u32
    // The node of the digests of each of these digests and of that of the record's chains, or if it has the new chain
    // already of those before; or the first reason why there is none.
    ensures { IsToldOf (IsNewLeafOf algorithm.now digests.now evidence.now alone token.now)
        (HasNoNewLeaf algorithm.now digests.now evidence.now alone) said.new result text.old size.new text.new }
{
    put!(tell_rehash_leaf(alloc, algorithm, digests, evidence, alone, token, text) => size, said)
}

/// An evidence record with a new chain by a token over the root of the tree of a handle, for the data objects of these
/// digests.
#[unsafe(no_mangle)]
pub extern "C" fn cmsproof_evidence_rehash(
    alloc: Global,
    tree: &mut TreeHandle,
    evidence: &[u8],
    digests: &[u8],
    alone: bool,
    token: &[u8],
    text: &mut [u8],
    size: &mut usize,
    said: &mut Answer,
) -> u32
    // The octets of the new record, or of the old one if it has this chain already; or the first reason why it gets
    // none; without a tree nothing.
    ensures rehashed { TellsBy tree.old.inside.kept (λ t. IsRehashed t digests.now alone token.now evidence.now)
        (λ t. RehashesNot t digests.now alone token.now evidence.now) said.new result text.old size.new text.new }
    // The tree stays as it was.
    ensures tree { tree.new.inside.kept ≡ tree.old.inside.kept }
{
    put_by!(
        alloc,
        tree: TreeHandle,
        held => tell_rehashed(alloc, &held, digests, evidence, alone, token, text) => size,
        said
    )
}
