//! What the renewal of an evidence record stands on: the leaf that its new time-stamp must cover (RFC 4998 5.2).
ghost use Rattle.std.specs.Prelude.{◌≡◌, ◌≢◌, ◌↔◌, ◌<◌, ℕ, [], Some, None, Err, length, All, IfErr, IfOk, IsTrue};
ghost use Rattle.std.specs.Prelude.{MatchOption};
ghost use Rattle.std.specs.List.{last_or, AllZip};
ghost use Rattle.der_core.specs.declared.fault.Fault.{Fault};
ghost use Rattle.der_core.specs.Faults.{Faults};
ghost use Rattle.der_core.specs.Grammar.{file};
ghost use Rattle.der_core.specs.Values.{HasLength};
ghost use Rattle.digests.specs.declared.algorithm.Alg.{Alg};
ghost use Rattle.evidence_types.specs.EvidenceTable.{evidence_record};
ghost use Rattle.evidence_types.specs.EvidenceValue.{chains_parts};
ghost use Rattle.digests.specs.Digests.{alg_of};
ghost use Rattle.check_evidence.specs.Places.{first_of, stamps_of};
ghost use Rattle.check_evidence.specs.StampStates.{HasTime, HasAlg};
ghost use Rattle.evidence_making.specs.Groups.{AreAll, first_count, values_in, IsRehashLeaf, LeavesOthers};
ghost use Rattle.evidence_making.specs.Groups.{IsDueInNewChain, StandsInNewChain};
ghost use Rattle.evidence_making.specs.Leaves.{IsLastOf, IsLastStamp, IsOfLast};
ghost use Rattle.evidence_making.specs.Leaves.{HasNoMoment, HasNoStamp, IsDueInChain, StandsInChain};
ghost use Rattle.evidence_making.specs.LeafSteps.{AreEndsOf, IsOpened, IsNewLeaf, IsNewLeafOf, EndWithoutEither};

use crate::fault::LeafFault;
use crate::renewing::record_in;
use check_evidence::{covered_after, covered_later, digest_of_chains};
use der_time::Moment;
use digests::{Alg, Digest};
use evidence_stamps::{TokenState, alg_of};
use evidence_trees::Group;
use evidence_types::{ArchiveTimeStamp, Chain, Chains, EvidenceRecord, HashLists};
use std::alloc::{AllocError, Global};

/// What a renewal by a time-stamp stands on (RFC 4998 5.2).
#[derive(Clone, Copy, Debug, PartialEq, Eq)]
pub struct LastStamp {
    /// The algorithm of the last chain, by which the tree must be.
    pub alg: Alg,
    /// The digest of the whole last `timeStamp`, a leaf of the tree.
    pub leaf: Digest,
    /// The moment of the last `timeStamp`, after which the new one must be.
    pub moment: Moment,
}

/// What a renewal by a hash tree stands on (RFC 4998 5.2).
#[derive(Debug, Drop)]
pub struct NewLeaf {
    /// What the new time-stamp must cover: the first list of its archive time-stamp. Its node is a leaf of the tree.
    pub group: Group,
    /// The moment of the last `timeStamp`, after which the new one must be.
    pub after: Moment,
}

// The record that the octets encode, whose data are open.
pub(crate) fn opened<'a>(octets: &'a [u8]) -> Result<EvidenceRecord<'a>, LeafFault>
    ensures { IsOpened octets.now result }
{
    let record = match record_in(octets) {
        Ok(record) => record,
        Err(fault) => return Err(LeafFault::Malformed(fault)),
    };
    match record.encryption() {
        Some(_) => Err(LeafFault::NoStamp),
        None => Ok(record),
    }
}

// The first and the last archive time-stamp of a chain.
#[derive(Drop)]
struct ChainEnds<'a> {
    first: ArchiveTimeStamp<'a>,
    last: ArchiveTimeStamp<'a>,
}

// The last chain.
pub(crate) fn last_chain<'a>(chains: &Chains<'a>) -> Chain<'a>
    requires { chains.now ≢ [] }
    ensures { last_or None chains.now ≡ Some result }
{
    let Some((mut last, mut left)) = chains.next() else {
        unreachable!()
    };
    while let Some((chain, others)) = left.next() {
        last = chain;
        left = others;
    }
    last
}

// The last archive time-stamp of a chain.
pub(crate) fn last_in<'a>(chain: &Chain<'a>) -> ArchiveTimeStamp<'a>
    requires { chain.now ≢ [] }
    ensures { last_or None chain.now ≡ Some result }
{
    let Some((mut last, mut left)) = chain.next() else {
        unreachable!()
    };
    while let Some((stamp, others)) = left.next() {
        last = stamp;
        left = others;
    }
    last
}

// The first archive time-stamp of a chain.
pub(crate) fn first_in<'a>(chain: &Chain<'a>) -> ArchiveTimeStamp<'a>
    requires { chain.now ≢ [] }
    ensures { first_of chain.now ≡ Some result }
{
    match chain.next() {
        Some((first, _)) => first,
        None => unreachable!(),
    }
}

// The ends of the last chain.
fn ends_of<'a>(chains: &Chains<'a>) -> ChainEnds<'a>
    requires { chains.now ≢ [] }
    ensures { AreEndsOf chains.now result.first result.last }
{
    // So no chain is empty.
    let _octets = chains.bytes();
    let chain = last_chain(chains);
    let first = first_in(&chain);
    let last = last_in(&chain);
    ChainEnds { first, last }
}

// The algorithm of an archive time-stamp.
pub(crate) fn alg_in(stamp: &ArchiveTimeStamp) -> Option<Alg>
    ensures { MatchOption result ((alg : Alg) → HasAlg stamp.now alg → ⊥) (HasAlg stamp.now) }
{
    let state = TokenState::read(stamp.stamp());
    alg_of(stamp, state.as_ref())
}

// The moment of an archive time-stamp.
pub(crate) fn moment_in(stamp: &ArchiveTimeStamp) -> Option<Moment>
    ensures { MatchOption result ((m : ℕ) → HasTime stamp.now m → ⊥) (HasTime stamp.now) }
{
    let state = TokenState::read(stamp.stamp())?;
    Some(state.moment())
}

// What a renewal of these chains by a time-stamp stands on.
fn last_stamp_of(chains: &Chains) -> Option<LastStamp>
    requires { chains.now ≢ [] }
    ensures { MatchOption result (EndWithoutEither chains.now) (IsLastOf chains.now) }
{
    let ends = ends_of(chains);
    let moment = moment_in(&ends.last)?;
    let alg = alg_in(&ends.first)?;
    let leaf = covered_after(alg, &ends.last);
    Some(LastStamp { alg, leaf, moment })
}

// How many hash values the first list of the first archive time-stamp has; without lists it is on one.
fn first_count(chains: &Chains) -> usize
    requires { chains.now ≢ [] }
    ensures { result ≡ first_count (stamps_of chains.now) }
{
    // So no chain is empty.
    let _octets = chains.bytes();
    let Some((chain, _)) = chains.next() else {
        unreachable!()
    };
    let stamp = first_in(&chain);
    match stamp.lists() {
        Some(lists) => values_in(lists),
        None => 1,
    }
}

// How many hash values the first list has.
fn values_in(lists: &HashLists) -> usize
    ensures { result ≡ values_in (Some lists.now) }
{
    match lists.next() {
        Some((values, _)) => values.len(),
        None => 0,
    }
}

// Whether so many digests are all that a record is of.
fn are_all(alone: bool, chains: &Chains, count: usize) -> bool
    requires { chains.now ≢ [] }
    ensures { IsTrue result ↔ AreAll alone chains.now count }
{
    alone || count == first_count(chains)
}

// What a new chain must cover for the data objects of these digests, a leaf each.
fn leaves_on(
    alloc: Global,
    chains: &Chains,
    alg: Alg,
    digests: &[Digest],
) -> Result<Vec<Digest>, AllocError>
    requires { HasLength (chains_parts chains.now) }
    ensures { IfOk result (λ leaves. AllZip (IsNewLeafOf alg (chains_parts chains.now)) digests.now leaves.items) }
{
    let sequence = digest_of_chains(alg, chains.bytes());
    let mut leaves = Vec::with_capacity(alloc, digests.len())?;
    let mut left = digests;
    while let Some((digest, others)) = left.split_first() {
        leaves.push(covered_later(alg, digest, &sequence))?;
        left = others;
    }
    Ok(leaves)
}

// What a renewal of these chains by a hash tree stands on, for the data objects of these digests.
fn new_leaf_of(
    alloc: Global,
    chains: &Chains,
    alg: Alg,
    digests: &[Digest],
    alone: bool,
) -> Result<NewLeaf, LeafFault>
    requires some { chains.now ≢ [] }
    requires room { HasLength (chains_parts chains.now) }
    requires named { 0 < length digests.now }
    requires algorithm { All (λ d. alg_of d ≡ alg) digests.now }
    ensures { IsNewLeaf alone chains.now alg digests.now result }
{
    let ends = ends_of(chains);
    let Some(after) = moment_in(&ends.last) else {
        return Err(LeafFault::NoStamp);
    };
    if !are_all(alone, chains, digests.len()) {
        return Err(LeafFault::Unnamed);
    }
    let leaves = leaves_on(alloc, chains, alg, digests)?;
    let group = Group::of(alloc, alg, leaves.as_slice())?;
    Ok(NewLeaf { group, after })
}

/// What a renewal by a time-stamp stands on (Time-Stamp Renewal, RFC 4998 5.2): the algorithm of the last chain, which
/// is that of its first archive time-stamp; the digest by it of the last `timeStamp`, the whole element, which the new
/// time-stamp must cover; and the moment that this `timeStamp` states. Whether it is good is not tested. It allocates
/// nothing.
///
/// Errors: `Malformed`, with a fault that the octets have, if they don't encode a record. `NoStamp` if the record is
/// encrypted, its last `timeStamp` is no token, or its last chain has no algorithm that is known.
pub fn last_stamp(octets: &[u8]) -> Result<LastStamp, LeafFault>
    // It is of the record that the octets encode.
    ensures found { IfOk result (IsLastStamp octets.now) }
    // `NoStamp` is returned exactly if there is no such thing.
    ensures no_stamp { (result ≡ Err LeafFault.NoStamp) ↔ HasNoStamp octets.now }
    // A fault that is reported is one that the octets have.
    ensures malformed { (fault : Fault) → result ≡ Err (LeafFault.Malformed fault)
        → Faults (file evidence_record) octets.now fault }
    // There is no other error.
    ensures other { IfErr result IsOfLast }
    // The leaf is what the new time-stamp must cover of which `renew_record` makes a record, and nothing else.
    ensures due { IfOk result (IsDueInChain octets.now) }
    // There the new time-stamp stands, if its token stands on the root of a tree with the leaf, and is later.
    ensures stands { IfOk result (StandsInChain octets.now) }
{
    match opened(octets) {
        Ok(record) => match last_stamp_of(record.chains()) {
            Some(last) => Ok(last),
            None => Err(LeafFault::NoStamp),
        },
        Err(fault) => Err(fault),
    }
}

/// What a renewal by a hash tree stands on (Hash-Tree Renewal, RFC 4998 5.2), for the data objects of these digests, a
/// group: of each the digest of its digest and of that of the ArchiveTimeStampSequence so far, in this order, which the
/// new time-stamp must cover; their node, a leaf of the tree; and the moment that the last `timeStamp` states. Whether
/// that is good is not tested.
///
/// Errors, the first of these: `Malformed`, with a fault that the octets have, if they don't encode a record. `NoStamp`
/// if the record is encrypted, or its last `timeStamp` is no token. `Unnamed` if its first list has another number of
/// hash values than there are digests, so that data objects would be lost, unless the user says that the others are of
/// neighbours in its tree: `alone`. `OutOfMemory` if memory is refused.
pub fn rehash_leaf(
    alloc: Global,
    octets: &[u8],
    alg: Alg,
    digests: &[Digest],
    alone: bool,
) -> Result<NewLeaf, LeafFault>
    // There is a digest.
    requires some { 0 < length digests.now }
    // All are by this algorithm.
    requires algorithm { All (λ d. alg_of d ≡ alg) digests.now }
    // It is of the record that the octets encode, and all its data objects are named.
    ensures found { IfOk result (λ r. IsRehashLeaf octets.now alone alg digests.now r.group r.after) }
    // `NoStamp` is returned exactly if there is no moment.
    ensures no_stamp { (result ≡ Err LeafFault.NoStamp) ↔ HasNoMoment octets.now }
    // `Unnamed` is returned exactly if there is one, but others are left.
    ensures unnamed { (result ≡ Err LeafFault.Unnamed) ↔ LeavesOthers octets.now alone digests.now }
    // A fault that is reported is one that the octets have.
    ensures malformed { (fault : Fault) → result ≡ Err (LeafFault.Malformed fault)
        → Faults (file evidence_record) octets.now fault }
    // The group is what the new time-stamp must cover of which `rehash_record` makes a record, and nothing else.
    ensures due { IfOk result (λ r. IsDueInNewChain octets.now alg digests.now r.group) }
    // There the new time-stamp stands, if its token stands on the root of a tree with the node, and is later.
    ensures stands { IfOk result (λ r. StandsInNewChain octets.now alg digests.now r.group r.after) }
{
    match opened(octets) {
        Ok(record) => new_leaf_of(alloc, record.chains(), alg, digests, alone),
        Err(fault) => Err(fault),
    }
}
