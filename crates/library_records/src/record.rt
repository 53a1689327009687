//! The evidence record of a leaf of a hash tree (RFC 4998 4.2).
ghost use Rattle.std.specs.Prelude.{◌↔◌, IfErr, IfOk, IfSome, IsSome};
ghost use Rattle.library_records.specs.TreeRenewals.{LeadUp};
ghost use Rattle.library_records.specs.Trees.{IsToldOf};
ghost use Rattle.library_records.specs.Records.{IsLeaf, IsRecordOf, MakesNoRecord};

use crate::tree::{digest_by, moment_of};
use cli_failures::Failure;
use evidence_making::make_record;
use evidence_trees::{LeafLists, Tree};
use library_answers::{Told, tell_result};
use std::alloc::Global;

/// The values that lead from a digest to the root, if it is a leaf of the tree.
fn lists_in<'t>(tree: &'t Tree, digest: &[u8]) -> Option<LeafLists<'t>>
    ensures leaf { IsSome result ↔ IsLeaf tree.now digest.now }
    ensures up { IfSome result (LeadUp tree.now digest.now) }
{
    match digest_by(tree, digest) {
        Some(leaf) => tree.lists_of(&leaf),
        None => None,
    }
}

/// The octets of the record of a digest, a leaf of a tree, with a token over its root.
fn record_of(
    alloc: Global,
    tree: &Tree,
    digest: &[u8],
    token: &[u8],
) -> Result<Vec<u8>, Failure<'static>>
    ensures made { IfOk result (λ octets. IsRecordOf tree.now digest.now token.now octets.items) }
    ensures refused { IfErr result (MakesNoRecord tree.now digest.now token.now) }
{
    let Some(values) = lists_in(tree, digest) else {
        return Err(Failure::Usage("digest"));
    };
    moment_of(tree, token)?;
    match make_record(alloc, tree.root().alg(), &values, token) {
        Ok(octets) => Ok(octets),
        Err(fault) => Err(Failure::from(fault)),
    }
}

/// The evidence record of a digest, a leaf of a tree, with a token over its root.
pub fn tell_record(alloc: Global, tree: &Tree, digest: &[u8], token: &[u8], room: &mut [u8]) -> Told
    // The octets of the record, or the first reason why none is made, in numbers and as the line.
    ensures { IsToldOf (IsRecordOf tree.now digest.now token.now) (MakesNoRecord tree.now digest.now token.now)
        result.said result.status room.old result.size room.new }
{
    let made = record_of(alloc, tree, digest, token);
    tell_result(alloc, made, room)
}
