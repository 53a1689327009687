ghost use Rattle.std.specs.Prelude.{◌≡◌, ◌^◌, ◌≤◌, ◌↔◌, length, IfOk, IsTrue, Err};
ghost use Rattle.evidence_types.specs.StampValue.{IsSequence};
ghost use Rattle.evidence_types.specs.EvidenceValue.{EncodesEvidence, evidence_parts};
ghost use Rattle.evidence_making.specs.Made.{made};
ghost use Rattle.evidence_making.specs.Laws.{ShowsLeaf, IsOfLeaf};

use crate::fault::MakeFault;
use crate::frame::Frame;
use crate::putting::record_of;
use der_core::Cursor;
use der_core::tags::SEQUENCE;
use digests::Alg;
use evidence_trees::LeafLists;
use std::alloc::Global;

/// Whether all of the octets are one SEQUENCE, as those of a token are (RFC 5652 3).
pub fn is_sequence(octets: &[u8]) -> bool
    ensures { IsTrue result ↔ IsSequence octets.now }
{
    let mut input = Cursor::new(octets, 0);
    match input.element(SEQUENCE) {
        Ok(_) => input.is_empty(),
        Err(_) => false,
    }
}

/// The octets of the evidence record of a leaf of a hash tree (RFC 4998 4.2): version 1, the one digest algorithm, and
/// one chain of one archive time-stamp with this algorithm, the lists of the leaf, `values`, each of which has one
/// value, and the token over the root, which is the whole time-stamp. The parameters of the algorithm are absent, and
/// so are attributes, and lists if there is no value. Nothing is tested of the token: whether its imprint is the root
/// of the tree is the caller's to see.
///
/// Errors: `TooLong`, exactly if some length exceeds 4,294,967,295. `OutOfMemory` if memory is refused: it is
/// requested once, for all the octets.
pub fn make_record(
    alloc: Global,
    alg: Alg,
    values: &LeafLists,
    token: &[u8],
) -> Result<Vec<u8>, MakeFault>
    // The token is one SEQUENCE.
    requires { IsSequence token.now }
    // It encodes exactly the record of these lists and this token.
    ensures made { IfOk result (λ octets. EncodesEvidence octets.items (made alg values.now token.now)) }
    // With a leaf's way up it is that leaf's record.
    ensures leaf { IfOk result (λ octets. IsOfLeaf alg values.now token.now octets.items) }
    // It shows the token's moment for the leaf's data object, if the token stands on the root.
    ensures shows { IfOk result (λ octets. ShowsLeaf alg values.now token.now octets.items) }
    // `TooLong` exactly if its contents have 2^32 octets or more.
    ensures too_long { (result ≡ Err MakeFault.TooLong)
        ↔ (2 ^ 32 ≤ length (evidence_parts (made alg values.now token.now))) }
{
    let frame = Frame {
        alg,
        group: None,
        algorithms: &[],
        adds: true,
        others: &[],
        chains: &[],
        stamps: &[],
    };
    record_of(alloc, &frame, values, token)
}
