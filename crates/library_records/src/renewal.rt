//! An evidence record that is renewed by a time-stamp (Time-Stamp Renewal, RFC 4998 5.2), and the leaf of a tree on
//! which that stands.
ghost use Rattle.std.specs.Prelude.{◌≡◌, ◌≢◌, [], IfErr, IfOk, MatchOption, option_map};
ghost use Rattle.digests.specs.Digests.{octets_of};
ghost use Rattle.evidence_types.specs.StampValue.{IsSequence};
ghost use Rattle.evidence_making.specs.Done.{IsDoneBy};
ghost use Rattle.evidence_making.specs.Leaves.{IsLastStamp};
ghost use Rattle.library_records.specs.TreeRenewals.{LeadUp};
ghost use Rattle.library_records.specs.Trees.{IsToldOf};
ghost use Rattle.library_records.specs.Renewals.{Becomes, HasNoLast, HasNoLeaf, IsAlgorithmOf, IsFound, IsLeafOf};
ghost use Rattle.library_records.specs.Renewals.{IsNotDone};
ghost use Rattle.library_records.specs.Renewals.{IsNotStamped, IsRenewed, IsStampedAfter, RenewsNot, StandsOnNothing};
ghost use Rattle.library_records.specs.Renewals.{failure_of_renewal, token_in};

use crate::tree::moment_of;
use cli_failures::Failure;
use der_time::Moment;
use digests::Digest;
use evidence_making::{
    LastStamp, MakeFault, RenewFault, StampFault, last_stamp, renew_record, renewed_by,
};
use evidence_trees::{LeafLists, Tree};
use library_answers::{Told, tell_made, tell_unmade};
use library_calls::alg_of;
use std::alloc::{AllocError, Global};

/// What a renewal by a time-stamp stands on, and whether the record is renewed by the token already.
#[derive(Clone, Copy)]
struct Standing {
    /// What it stands on.
    last: LastStamp,
    /// Whether the record is renewed already.
    done: bool,
}

/// What the renewal of a record by this token stood on, if there is a token and the record is renewed by it already.
fn done_by(alloc: Global, octets: &[u8], token: &[u8]) -> Result<Option<LastStamp>, AllocError>
    ensures done { IfOk result (λ o. MatchOption o (IsNotDone token.now octets.now)
        (IsDoneBy (token_in token.now) octets.now)) }
    // Memory is asked for only where a token is handed in.
    ensures memory { IfErr result (λ _. token.now ≢ []) }
{
    if token.is_empty() {
        return Ok(None);
    }
    renewed_by(alloc, octets, token)
}

/// What the renewal of a record that isn't renewed already stands on.
fn last_of(octets: &[u8]) -> Result<LastStamp, Failure<'static>>
    ensures found { IfOk result (IsLastStamp octets.now) }
    ensures refused { IfErr result (HasNoLast octets.now) }
{
    match last_stamp(octets) {
        Ok(last) => Ok(last),
        Err(fault) => Err(Failure::from(fault)),
    }
}

/// What the renewal of a record stands on, with this token if there is one already.
fn standing_of(alloc: Global, octets: &[u8], token: &[u8]) -> Result<Standing, Failure<'static>>
    ensures found { IfOk result (λ s. IsFound token.now octets.now s.done s.last) }
    ensures refused { IfErr result (StandsOnNothing octets.now token.now) }
{
    match done_by(alloc, octets, token) {
        Ok(Some(last)) => Ok(Standing { last, done: true }),
        Ok(None) => match last_of(octets) {
            Ok(last) => Ok(Standing { last, done: false }),
            Err(why) => Err(why),
        },
        Err(_) => Err(Failure::Memory),
    }
}

/// The leaf that the new time-stamp of a record must cover, if it is by the algorithm of this name.
fn leaf_of(
    alloc: Global,
    name: &[u8],
    octets: &[u8],
    token: &[u8],
) -> Result<Digest, Failure<'static>>
    ensures found { IfOk result (λ leaf. IsLeafOf name.now octets.now token.now (octets_of leaf)) }
    ensures refused { IfErr result (HasNoLeaf name.now octets.now token.now) }
{
    let alg = alg_of(name)?;
    let standing = standing_of(alloc, octets, token)?;
    if standing.last.leaf.alg() == alg {
        Ok(standing.last.leaf)
    } else {
        Err(Failure::Mixed)
    }
}

/// The leaf of a hash tree, by the algorithm of this name, that the new time-stamp of a record must cover: the digest
/// of its last `timeStamp`.
pub fn tell_renewal_leaf(
    alloc: Global,
    name: &[u8],
    octets: &[u8],
    token: &[u8],
    room: &mut [u8],
) -> Told
    // The octets of the leaf, or the first reason why there is none, in numbers and as the line.
    ensures { IsToldOf (IsLeafOf name.now octets.now token.now) (HasNoLeaf name.now octets.now token.now) result.said
        result.status room.old result.size room.new }
{
    match leaf_of(alloc, name, octets, token) {
        Ok(leaf) => tell_made(leaf.bytes(), room),
        Err(why) => tell_unmade(alloc, &why, room),
    }
}

/// The algorithm by which the tree must be, that of the last chain of a record.
pub fn tell_renewal_algorithm(alloc: Global, octets: &[u8], room: &mut [u8]) -> Told
    // The name of the algorithm, or why there is none, in numbers and as the line.
    ensures { IsToldOf (IsAlgorithmOf octets.now) (HasNoLast octets.now) result.said result.status room.old result.size
        room.new }
{
    match last_of(octets) {
        Ok(last) => tell_made(last.alg.name().as_bytes(), room),
        Err(why) => tell_unmade(alloc, &why, room),
    }
}

/// The lists of a leaf of a tree whose root a token stamps after this moment.
pub(crate) fn lists_after<'t>(
    tree: &'t Tree,
    leaf: &Digest,
    last: Moment,
    token: &[u8],
) -> Result<LeafLists<'t>, Failure<'static>>
    ensures stamped { IfOk result (λ _. IsStampedAfter tree.now leaf.now last token.now) }
    ensures up { IfOk result (LeadUp tree.now (octets_of leaf.now)) }
    ensures sequence { IfOk result (λ _. IsSequence token.now) }
    ensures refused { IfErr result (IsNotStamped tree.now leaf.now last token.now) }
{
    if leaf.alg() != tree.root().alg() {
        return Err(Failure::Mixed);
    }
    let Some(values) = tree.lists_of(leaf) else {
        return Err(Failure::Usage("record"));
    };
    match moment_of(tree, token) {
        Ok(moment) => {
            if moment <= last {
                return Err(Failure::Unstamping(StampFault::Order));
            }
            Ok(values)
        }
        Err(why) => Err(why),
    }
}

/// Why a record isn't renewed, as a failure.
pub(crate) fn failure_of(fault: RenewFault) -> Failure<'static>
    ensures { result ≡ failure_of_renewal fault }
{
    match fault {
        RenewFault::Malformed(fault) => Failure::Malformed(fault),
        RenewFault::TooLong => Failure::Unmade(MakeFault::TooLong),
        RenewFault::OutOfMemory => Failure::Memory,
    }
}

/// The octets of a record, renewed by the token, or `None` if it is renewed by it already.
fn renewed_of(
    alloc: Global,
    tree: &Tree,
    octets: &[u8],
    token: &[u8],
) -> Result<Option<Vec<u8>>, Failure<'static>>
    ensures renewed { IfOk result (λ new.
        Becomes tree.now token.now octets.now (option_map (λ v. v.items) new)) }
    ensures refused { IfErr result (RenewsNot tree.now token.now octets.now) }
{
    let standing = standing_of(alloc, octets, token)?;
    let last = standing.last;
    let values = lists_after(tree, &last.leaf, last.moment, token)?;
    if standing.done {
        return Ok(None);
    }
    match renew_record(alloc, octets, last.alg, &values, token) {
        Ok(renewed) => Ok(Some(renewed)),
        Err(fault) => Err(failure_of(fault)),
    }
}

/// An evidence record, renewed by a token over the root of a tree with its leaf.
pub fn tell_renewed(
    alloc: Global,
    tree: &Tree,
    octets: &[u8],
    token: &[u8],
    room: &mut [u8],
) -> Told
    // The octets of the new record, or of the old one if the token has renewed it already; or the first reason why it
    // isn't renewed, in numbers and as the line.
    ensures { IsToldOf (IsRenewed tree.now token.now octets.now) (RenewsNot tree.now token.now octets.now) result.said
        result.status room.old result.size room.new }
{
    match renewed_of(alloc, tree, octets, token) {
        Ok(Some(renewed)) => tell_made(&renewed, room),
        Ok(None) => tell_made(octets, room),
        Err(why) => tell_unmade(alloc, &why, room),
    }
}
