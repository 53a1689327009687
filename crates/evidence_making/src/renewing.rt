ghost use Rattle.std.specs.Prelude.{IfOk, IfErr, vec_items};
ghost use Rattle.der_core.specs.Faults.{Faults};
ghost use Rattle.der_core.specs.Grammar.{file};
ghost use Rattle.evidence_types.specs.EvidenceTable.{evidence_record};
ghost use Rattle.evidence_types.specs.StampValue.{IsSequence};
ghost use Rattle.evidence_types.specs.EvidenceValue.{EvidenceValue, EncodesEvidence, chains_parts};
ghost use Rattle.evidence_making.specs.Made.{group_lists, stamp_of, stamp_with};
ghost use Rattle.evidence_making.specs.Frames.{frame_value, its_lists, record_inside};
ghost use Rattle.evidence_making.specs.Renewed.{renewed, rehashed};
ghost use Rattle.evidence_making.specs.Renewing.{IsAnswer, IsWritten, StandIn, ChainsStandIn};
ghost use Rattle.evidence_making.specs.RenewalLaws.{ShowsStill};

use crate::fault::{MakeFault, RenewFault};
use crate::frame::Frame;
use crate::kept::{kept_of, last_chain};
use crate::naming::is_named;
use crate::putting::record_of;
use der_core::{Fault, ReadFault};
use digests::Alg;
use evidence_trees::{Group, LeafLists};
use evidence_types::EvidenceRecord;
use std::alloc::Global;

// The record that the octets encode.
pub(crate) fn record_in<'a>(octets: &'a [u8]) -> Result<EvidenceRecord<'a>, Fault>
    ensures found { IfOk result (λ v. EncodesEvidence octets.now v) }
    ensures fault { IfErr result (Faults (file evidence_record) octets.now) }
{
    match EvidenceRecord::read(octets) {
        Ok(old) => Ok(old),
        Err(ReadFault::Malformed(fault)) => Err(fault),
        Err(ReadFault::OutOfMemory) => unreachable!(),
    }
}

// The octets of a record with this token in this frame.
fn renewed_in(
    alloc: Global,
    frame: &Frame,
    values: &LeafLists,
    token: &[u8],
) -> Result<Vec<u8>, RenewFault>
    ensures { IsWritten (record_inside (frame_value frame.now) (its_lists frame.now values.now) token.now) vec_items
        result }
{
    match record_of(alloc, frame, values, token) {
        Ok(octets) => Ok(octets),
        Err(MakeFault::TooLong) => Err(RenewFault::TooLong),
        Err(MakeFault::OutOfMemory) => Err(RenewFault::OutOfMemory),
    }
}

/// The octets of an evidence record that is renewed by a time-stamp (Time-Stamp Renewal, RFC 4998 5.2): a new archive
/// time-stamp in the last chain, by the algorithm of that chain, with the token, and the lists of the digest of the
/// last `timeStamp`, each of one value. `digestAlgorithms` gains the algorithm where none of them names it. All else is
/// as it was, octet for octet, but for the lengths around it. Nothing is tested of the token nor of the lists.
///
/// Errors: `Malformed`, with a fault that the octets have, if they don't encode a record. `TooLong`, exactly if some
/// length exceeds 4,294,967,295. `OutOfMemory` if memory is refused: it is requested once, for all the octets.
pub fn renew_record(
    alloc: Global,
    octets: &[u8],
    alg: Alg,
    values: &LeafLists,
    token: &[u8],
) -> Result<Vec<u8>, RenewFault>
    // The token is one SEQUENCE.
    requires { IsSequence token.now }
    // What is made encodes exactly the record with the new time-stamp; or the reason holds why nothing was made.
    ensures answer { IsAnswer (λ v. renewed v alg values.now token.now) octets.now vec_items result }
    // The octets of the old chains, and of the time-stamps of the last one, stand in it.
    ensures kept { IfOk result (λ w. (v : EvidenceValue) → EncodesEvidence octets.now v
        → ChainsStandIn v.chains w.items) }
    // What the old record shows at the moment of the new time-stamp the new one shows, if that stands.
    ensures shows { IfOk result (λ w. (v : EvidenceValue) → EncodesEvidence octets.now v
        → ShowsStill octets.now (stamp_of alg values.now token.now)
        (renewed v alg values.now token.now).chains w.items) }
{
    let old = match record_in(octets) {
        Ok(old) => old,
        Err(fault) => return Err(RenewFault::Malformed(fault)),
    };
    let kept = kept_of(octets, old.chains().bytes().len());
    let last = last_chain(old.chains());
    let adds = !is_named(old.algorithms(), alg);
    let frame = Frame {
        alg,
        group: None,
        algorithms: kept.algorithms,
        adds,
        others: kept.others,
        chains: last.before,
        stamps: last.stamps,
    };
    renewed_in(alloc, &frame, values, token)
}

/// The octets of an evidence record that is renewed by a hash tree (Hash-Tree Renewal, RFC 4998 5.2): a new chain of
/// one archive time-stamp, by this algorithm, with the token. The first of its lists has the values of the group: for
/// each data object the digest of its digest and of that of the chains so far; then come these values but the first,
/// which is that of the group's node, each alone. `digestAlgorithms` gains the algorithm where none of them names it.
/// All else is as it was, octet for octet, but for the lengths around it. Nothing is tested of the token nor of the
/// lists.
///
/// Errors: those of `renew_record`.
pub fn rehash_record(
    alloc: Global,
    octets: &[u8],
    alg: Alg,
    group: &Group,
    values: &LeafLists,
    token: &[u8],
) -> Result<Vec<u8>, RenewFault>
    // The token is one SEQUENCE.
    requires { IsSequence token.now }
    // What is made encodes exactly the record with the new chain; or the reason holds why nothing was made.
    ensures answer { IsAnswer (λ v. rehashed v alg group.now.values values.now token.now) octets.now vec_items result }
    // The octets of the old chains stand in it.
    ensures kept { IfOk result (λ w. (v : EvidenceValue) → EncodesEvidence octets.now v
        → StandIn (chains_parts v.chains) w.items) }
    // What the old record shows at the moment of the new time-stamp the new one shows, if that stands.
    ensures shows { IfOk result (λ w. (v : EvidenceValue) → EncodesEvidence octets.now v
        → ShowsStill octets.now (stamp_with alg (group_lists group.now.values values.now) token.now)
        (rehashed v alg group.now.values values.now token.now).chains w.items) }
{
    // So the group has a value.
    let _values = group.values();
    let old = match record_in(octets) {
        Ok(old) => old,
        Err(fault) => return Err(RenewFault::Malformed(fault)),
    };
    let chains = old.chains().bytes();
    let kept = kept_of(octets, chains.len());
    let adds = !is_named(old.algorithms(), alg);
    let frame = Frame {
        alg,
        group: Some(group),
        algorithms: kept.algorithms,
        adds,
        others: kept.others,
        chains,
        stamps: &[],
    };
    renewed_in(alloc, &frame, values, token)
}
