//! Whether an evidence record has been renewed by a token already (RFC 4998 5.2).
ghost use Rattle.std.specs.Prelude.{◌≡◌, ◌≢◌, ◌⊎◌, ◌<◌, ◌↔◌, ◌∷◌, ℕ, List, [], All, IfOk, IsOk, IsErr, IsTrue};
ghost use Rattle.std.specs.List.{AllZip};
ghost use Rattle.digests.specs.Digests.{alg_of};
ghost use Rattle.evidence_trees.specs.Groups.{GroupValue};
ghost use Rattle.std.specs.Prelude.{MatchOption, length, unwrap_or};
ghost use Rattle.digests.specs.declared.value.Digest.{Digest};
ghost use Rattle.der_core.specs.Values.{HasLength};
ghost use Rattle.digests.specs.Named.{is_alg};
ghost use Rattle.check_evidence.specs.Roots.{IsAscending};
ghost use Rattle.check_evidence.specs.StampStates.{HasAlg};
ghost use Rattle.judge_evidence.specs.Ordering.{HasOutOfOrder, IsRecordOutOfOrder};
ghost use Rattle.evidence_types.specs.StampValue.{StampValue};
ghost use Rattle.evidence_types.specs.EvidenceValue.{chains_parts};
ghost use Rattle.evidence_making.specs.declared.leaves.LastStamp.{LastStamp};
ghost use Rattle.evidence_making.specs.Done.{AreRehashed, AreRenewed, FitsOver, IsRootOver, StampsAfter};
ghost use Rattle.evidence_making.specs.Done.{IsRehashedBy, IsRehashedFor, IsRenewedBy};
ghost use Rattle.evidence_making.specs.DoneSteps.{AreLastTwo, AreTwo, EndsAlone, IsForIt, IsNotForAll};

use crate::kept;
use crate::leaves::{LastStamp, NewLeaf, alg_in, first_in, last_chain, last_in, moment_in, opened};
use crate::stamping::stamp_of_root;
use check_evidence::{
    Covered, are_covered, covered_after, covered_later, digest_of_chains, have_lengths, root_of,
    roots_are_unique,
};
use der_time::Moment;
use digests::{Alg, Digest};
use evidence_trees::Group;
use evidence_types::{ArchiveTimeStamp, Chain, Chains};
use std::alloc::{AllocError, Global};

// Whether two algorithms are the same.
fn are_same(its: Alg, alg: Alg) -> bool
    ensures { result ≡ is_alg its alg }
{
    its == alg
}

// Whether an archive time-stamp has this algorithm.
fn is_by(stamp: &ArchiveTimeStamp, alg: Alg) -> bool
    ensures { IsTrue result ↔ HasAlg stamp.now alg }
{
    match alg_in(stamp) {
        Some(its) => are_same(its, alg),
        None => false,
    }
}

// Whether an archive time-stamp has this token.
fn has_token(stamp: &ArchiveTimeStamp, token: &[u8]) -> bool
    ensures { IsTrue result ↔ (stamp.now.stamp ≡ token.now) }
{
    stamp.stamp() == token
}

// The root of an archive time-stamp that covers a leaf, if it does by the leaf's algorithm.
fn root_over(
    alloc: Global,
    stamp: &ArchiveTimeStamp,
    leaf: &Digest,
) -> Result<Option<Digest>, AllocError>
    ensures root { IfOk result (λ o. MatchOption o ((root : Digest) → IsRootOver stamp.now leaf.now root → ⊥)
        (IsRootOver stamp.now leaf.now)) }
    ensures memory { All IsAscending (unwrap_or stamp.now.lists []) → IsOk result }
{
    let alg = leaf.alg();
    if !is_by(stamp, alg) {
        return Ok(None);
    }
    let lists = stamp.lists();
    if !have_lengths(lists, alg) {
        return Ok(None);
    }
    let covered = Covered::One(*leaf);
    if !are_covered(lists, alg, &covered) {
        return Ok(None);
    }
    root_of(alloc, alg, lists, &covered)
}

// Whether a moment is later than another.
fn is_later(moment: Moment, last: Moment) -> bool
    ensures { IsTrue result ↔ (last < moment) }
{
    last < moment
}

// Whether a token stamps a root after a moment.
fn is_stamped(token: &[u8], root: &Digest, last: Moment) -> bool
    ensures { IsTrue result ↔ StampsAfter token.now root.now last }
{
    match stamp_of_root(token, root) {
        Ok(moment) => is_later(moment, last),
        Err(_) => false,
    }
}

// Whether an archive time-stamp fits over a leaf, and after a moment, whoever signed it.
fn fits_over(
    alloc: Global,
    stamp: &ArchiveTimeStamp,
    leaf: &Digest,
    last: Moment,
) -> Result<bool, AllocError>
    ensures fits { IfOk result (λ fits. IsTrue fits ↔ FitsOver stamp.now leaf.now last) }
    ensures memory { All IsAscending (unwrap_or stamp.now.lists []) → IsOk result }
{
    // So no other root counts.
    roots_are_unique();
    match root_over(alloc, stamp, leaf)? {
        Some(root) => Ok(is_stamped(stamp.stamp(), &root, last)),
        None => Ok(false),
    }
}

// Of the last chain the first archive time-stamp, the one before the last, and the last.
#[derive(Drop)]
struct LastTwo<'a> {
    first: ArchiveTimeStamp<'a>,
    before: ArchiveTimeStamp<'a>,
    last: ArchiveTimeStamp<'a>,
}

// The last two archive time-stamps of a chain.
fn two_in<'a>(chain: &Chain<'a>) -> Option<(ArchiveTimeStamp<'a>, ArchiveTimeStamp<'a>)>
    ensures { MatchOption result ((before last : StampValue) → AreTwo chain.now before last → ⊥)
        (λ two. AreTwo chain.now two.0 two.1) }
{
    let (mut before, left) = chain.next()?;
    let (mut last, mut left) = left.next()?;
    while let Some((stamp, others)) = left.next() {
        before = last;
        last = stamp;
        left = others;
    }
    Some((before, last))
}

// The last two archive time-stamps of the last chain, and its first, if it has more than one.
fn last_two<'a>(chains: &Chains<'a>) -> Option<LastTwo<'a>>
    requires { chains.now ≢ [] }
    ensures { MatchOption result (EndsAlone chains.now) (λ l. AreLastTwo chains.now l.first l.before l.last) }
{
    // So no chain is empty.
    let _octets = chains.bytes();
    let chain = last_chain(chains);
    let first = first_in(&chain);
    let (before, last) = two_in(&chain)?;
    Some(LastTwo {
        first,
        before,
        last,
    })
}

// What the renewal of chains by a token stood on, if they are renewed by it.
fn renewed_in(alloc: Global, chains: &Chains, token: &[u8]) -> Result<Option<LastStamp>, AllocError>
    requires { chains.now ≢ [] }
    ensures renewed { IfOk result (λ o. MatchOption o ((last : LastStamp) → AreRenewed chains.now token.now last → ⊥)
        (AreRenewed chains.now token.now)) }
    ensures memory { IsErr result → HasOutOfOrder chains.now }
{
    let Some(two) = last_two(chains) else {
        return Ok(None);
    };
    if !has_token(&two.last, token) {
        return Ok(None);
    }
    let Some(moment) = moment_in(&two.before) else {
        return Ok(None);
    };
    let Some(alg) = alg_in(&two.first) else {
        return Ok(None);
    };
    let leaf = covered_after(alg, &two.before);
    if fits_over(alloc, &two.last, &leaf, moment)? {
        Ok(Some(LastStamp { alg, leaf, moment }))
    } else {
        Ok(None)
    }
}

/// What the renewal of a record by a time-stamp with this token stood on (RFC 4998 5.2), if the record is renewed by
/// it: its last `timeStamp` is the token, and stands behind another one in its chain, which it covers, by the root of
/// its lists; and the other one is earlier. So the work on many records that was cut off goes on where it was. Who
/// signed the token is not asked. Memory is asked for only to bring hash values into ascending order.
///
/// Errors: memory is refused. Octets that don't encode a record, or an encrypted one, are not renewed.
pub fn renewed_by(
    alloc: Global,
    octets: &[u8],
    token: &[u8],
) -> Result<Option<LastStamp>, AllocError>
    // Returns it exactly if the record is renewed by the token.
    ensures renewed { IfOk result (λ o. MatchOption o ((last : LastStamp) → IsRenewedBy octets.now token.now last → ⊥)
        (IsRenewedBy octets.now token.now)) }
    // Memory is refused only where a list of the record is out of order.
    ensures memory { IsErr result → IsRecordOutOfOrder octets.now }
{
    match opened(octets) {
        Ok(record) => renewed_in(alloc, record.chains(), token),
        Err(_) => Ok(None),
    }
}

// The last two chains.
fn two_chains<'a>(chains: &Chains<'a>) -> Option<(Chain<'a>, Chain<'a>)>
    ensures { MatchOption result ((before last : List StampValue) → AreTwo chains.now before last → ⊥)
        (λ two. AreTwo chains.now two.0 two.1) }
{
    let (mut before, left) = chains.next()?;
    let (mut last, mut left) = left.next()?;
    while let Some((chain, others)) = left.next() {
        before = last;
        last = chain;
        left = others;
    }
    Some((before, last))
}

// The one archive time-stamp of a chain, if it has no other.
fn only_in<'a>(chain: &Chain<'a>) -> Option<ArchiveTimeStamp<'a>>
    ensures { MatchOption result ((s : StampValue) → chain.now ≡ s ∷ [] → ⊥) (λ s. chain.now ≡ s ∷ []) }
{
    let (stamp, others) = chain.next()?;
    if others.is_empty() { Some(stamp) } else { None }
}

// What the renewal of chains by a hash tree and a token stood on, for the data object of this digest, if they are
// renewed so.
fn rehashed_in(
    alloc: Global,
    chains: &Chains,
    digest: &Digest,
    token: &[u8],
) -> Result<Option<(Digest, Moment)>, AllocError>
    requires { HasLength (chains_parts chains.now) }
    ensures rehashed { IfOk result (λ o. MatchOption o
        ((leaf : Digest) (m : ℕ) → AreRehashed chains.now token.now digest.now leaf m → ⊥)
        (λ r. AreRehashed chains.now token.now digest.now r.0 r.1)) }
    ensures memory { IsErr result → HasOutOfOrder chains.now }
{
    // So no chain is empty.
    let _octets = chains.bytes();
    let Some((before, last)) = two_chains(chains) else {
        return Ok(None);
    };
    let Some(stamp) = only_in(&last) else {
        return Ok(None);
    };
    if !has_token(&stamp, token) {
        return Ok(None);
    }
    let Some(moment) = moment_in(&last_in(&before)) else {
        return Ok(None);
    };
    let alg = digest.alg();
    let sequence = digest_of_chains(alg, kept::last_chain(chains).before);
    let leaf = covered_later(alg, digest, &sequence);
    if fits_over(alloc, &stamp, &leaf, moment)? {
        Ok(Some((leaf, moment)))
    } else {
        Ok(None)
    }
}

// What the renewal of a record by a hash tree and this token stood on, for the data object of this digest, if it is
// renewed so.
fn rehashed_for(
    alloc: Global,
    octets: &[u8],
    digest: &Digest,
    token: &[u8],
) -> Result<Option<(Digest, Moment)>, AllocError>
    ensures rehashed { IfOk result (λ o. MatchOption o
        ((leaf : Digest) (m : ℕ) → IsRehashedFor octets.now token.now digest.now leaf m → ⊥)
        (λ r. IsRehashedFor octets.now token.now digest.now r.0 r.1)) }
    ensures memory { IsErr result → IsRecordOutOfOrder octets.now }
{
    match opened(octets) {
        Ok(record) => rehashed_in(alloc, record.chains(), digest, token),
        Err(_) => Ok(None),
    }
}

// The leaves of the data objects of these digests, behind that of the first, if the record is renewed so for each.
fn leaves_of(
    alloc: Global,
    octets: &[u8],
    first: Digest,
    others: &[Digest],
    token: &[u8],
) -> Result<Option<Vec<Digest>>, AllocError>
    ensures { IfOk result (λ o. MatchOption o (IsNotForAll octets.now token.now others.now)
        (λ leaves. (rest : List Digest) × (leaves.items ≡ first ∷ rest)
        × AllZip (IsForIt octets.now token.now) others.now rest)) }
{
    let mut leaves = Vec::with_capacity(alloc, others.len() + 1)?;
    leaves.push(first)?;
    let mut left = others;
    while let Some((digest, behind)) = left.split_first() {
        let Some((leaf, _)) = rehashed_for(alloc, octets, digest, token)? else {
            return Ok(None);
        };
        leaves.push(leaf)?;
        left = behind;
    }
    Ok(Some(leaves))
}

/// What the renewal of a record by a hash tree and this token stood on, for the data objects of these digests (RFC 4998
/// 5.2), if the record is renewed so for each: its last chain has one `timeStamp`, the token, and covers the digest of
/// this digest and of that of the chains before, by the root of its lists; and the last `timeStamp` of these is
/// earlier.
/// Who signed the token is not asked. It takes the time of so many readings as there are digests.
///
/// Errors: memory is refused. Octets that don't encode a record, or an encrypted one, are not renewed.
pub fn rehashed_by(
    alloc: Global,
    octets: &[u8],
    alg: Alg,
    digests: &[Digest],
    token: &[u8],
) -> Result<Option<NewLeaf>, AllocError>
    // There is a digest.
    requires some { 0 < length digests.now }
    // All are by this algorithm.
    requires algorithm { All (λ d. alg_of d ≡ alg) digests.now }
    // Returns it exactly if the record is renewed so.
    ensures rehashed { IfOk result (λ o. MatchOption o
        ((group : GroupValue) (m : ℕ) → IsRehashedBy octets.now token.now alg digests.now group m → ⊥)
        (λ r. IsRehashedBy octets.now token.now alg digests.now r.group r.after)) }
    // Memory is refused only where a list of the record is out of order, or the record is renewed for one of them.
    ensures memory { IsErr result → IsRecordOutOfOrder octets.now
        ⊎ ((digest : Digest) × (leaf : Digest) × (m : ℕ) × IsRehashedFor octets.now token.now digest leaf m) }
{
    let Some((digest, others)) = digests.split_first() else {
        unreachable!()
    };
    let Some((first, after)) = rehashed_for(alloc, octets, digest, token)? else {
        return Ok(None);
    };
    let Some(leaves) = leaves_of(alloc, octets, first, others, token)? else {
        return Ok(None);
    };
    let group = Group::of(alloc, alg, leaves.as_slice())?;
    Ok(Some(NewLeaf { group, after }))
}
