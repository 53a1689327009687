//! Records of documents (RFC 4998 4.2, 5.2): those that another program made of the same trees.
ghost use Rattle.std.specs.Prelude.{◌≡◌, ◌<◌, length, IfOk, IfSome, All};
ghost use Rattle.digests.specs.Digests.{alg_of};
ghost use Rattle.evidence_types.specs.StampValue.{IsSequence};

use crate::asserts::must_hold;
use crate::documents::documents;
use crate::records::{
    NEW_CHAIN, NEW_STAMP, RECORDS, REHASH_LEAF, REHASHED, REHASHED_LEAF, RENEWED, SINGLE,
    STAMP_LEAF,
};
use crate::renewals::FIRST;
use crate::tokens::{FIRST_TOKEN, GEN_TIME, ROOT, octets_of, put, record_of};
use der_time::{Moment, generalized_text};
use digests::{Alg, Digest, digest};
use evidence_making::{
    LeafFault, NewLeaf, StampFault, is_sequence, last_stamp, make_record, rehash_leaf,
    rehash_record, renew_record, stamp_of_root,
};
use evidence_trees::{Group, LeafLists, Tree};
use std::alloc::{AllocError, Global};

/// The digests and one more.
fn with(alg: Alg, digests: Vec<Digest>, other: Digest) -> Result<Vec<Digest>, AllocError>
    requires all { All (λ d. alg_of d ≡ alg) digests.items }
    requires other { alg_of other ≡ alg }
    ensures { IfOk result (λ v. All (λ d. alg_of d ≡ alg) v.items) }
{
    let mut more = digests;
    more.push(other)?;
    Ok(more)
}

/// A SEQUENCE of so many octets, from 260 to 65,539, in place of a token.
fn token(alloc: Global, octets: usize) -> Result<Vec<u8>, AllocError> {
    let [.., high, low] = octets.saturating_sub(4).to_be_bytes();
    let mut token = Vec::new(alloc);
    token.extend_from_slice(&[0x30, 0x82, high, low])?;
    token.resize(octets, 0x55)?;
    Ok(token)
}

/// The octets of a record: what stands before each token, in hexadecimal digits, and the token.
fn record_with(alloc: Global, pieces: &[(&str, &[u8])]) -> Option<Vec<u8>> {
    let mut octets = Vec::new(alloc);
    for (before, token) in pieces {
        if !put(alloc, &mut octets, before) || octets.extend_from_slice(token).is_err() {
            return None;
        }
    }
    Some(octets)
}

/// Whether both were made, and are the same.
pub(crate) fn are_same(made: &Option<Vec<u8>>, expected: &Option<Vec<u8>>) -> bool {
    match (made, expected) {
        (Some(made), Some(expected)) => made.as_slice() == expected.as_slice(),
        _ => false,
    }
}

/// Which record is made.
#[derive(Clone, Copy)]
pub(crate) enum Way<'o> {
    /// The first one of a leaf.
    Made,
    /// This one, renewed by a time-stamp.
    Renewed(&'o [u8]),
    /// This one, renewed by a hash tree of which the node of the group is a leaf.
    Rehashed(&'o [u8], &'o Group),
}

/// The record with these lists of a leaf.
fn record_of_leaf(
    alloc: Global,
    way: Way,
    alg: Alg,
    lists: &LeafLists,
    token: &[u8],
) -> Option<Vec<u8>>
    requires { IsSequence token.now }
{
    match way {
        Way::Made => make_record(alloc, alg, lists, token).ok(),
        Way::Renewed(old) => renew_record(alloc, old, alg, lists, token).ok(),
        Way::Rehashed(old, group) => rehash_record(alloc, old, alg, group, lists, token).ok(),
    }
}

/// The record, with the lists of a leaf of the tree over these digests.
fn record(
    alloc: Global,
    way: Way,
    alg: Alg,
    leaves: &[Digest],
    leaf: &Digest,
    token: &[u8],
) -> Option<Vec<u8>>
    requires some { 0 < length leaves.now }
    requires algorithm { All (λ d. alg_of d ≡ alg) leaves.now }
    requires sequence { IsSequence token.now }
{
    let Ok(tree) = Tree::of(alloc, alg, leaves) else {
        return None;
    };
    match tree.lists_of(leaf) {
        Some(lists) => record_of_leaf(alloc, way, alg, &lists, token),
        None => None,
    }
}

/// The record of the document with this number of so many.
fn first_record(
    alloc: Global,
    alg: Alg,
    count: usize,
    number: usize,
    token: &[u8],
) -> Option<Vec<u8>>
    requires { IsSequence token.now }
{
    let Ok(documents) = documents(alloc, alg, 0, count) else {
        return None;
    };
    if documents.is_empty() {
        return None;
    }
    match documents.get(number) {
        Some(leaf) => record(alloc, Way::Made, alg, &documents, leaf, token),
        None => None,
    }
}

/// The record of a leaf, in a tree over that and over the documents from this number to the one before that.
pub(crate) fn record_beside(
    alloc: Global,
    way: Way,
    alg: Alg,
    numbers: (usize, usize),
    leaf: Digest,
    token: &[u8],
) -> Option<Vec<u8>>
    requires leaf { alg_of leaf ≡ alg }
    requires sequence { IsSequence token.now }
{
    let Ok(documents) = documents(alloc, alg, numbers.0, numbers.1) else {
        return None;
    };
    match with(alg, documents, leaf) {
        Ok(leaves) if !leaves.is_empty() => record(alloc, way, alg, &leaves, &leaf, token),
        _ => None,
    }
}

/// Whether the record of the document with this number of so many, with a token of so many octets, is what stands here
/// before the token, and the token.
fn is_made(
    alloc: Global,
    alg: Alg,
    count: usize,
    number: usize,
    octets: usize,
    front: &str,
) -> bool {
    let Ok(token) = token(alloc, octets) else {
        return false;
    };
    is_sequence(&token)
        && are_same(
            &first_record(alloc, alg, count, number, &token),
            &record_with(alloc, &[(front, &token)]),
        )
}

#[test]
fn records_are_those_of_another_program(rt: HostRuntime) {
    for (alg, count, number, octets, front) in &RECORDS {
        let is_made = is_made(rt.alloc(), *alg, *count, *number, *octets, front);
        must_hold(&rt, is_made, front);
    }
}

/// The digest with these octets in hexadecimal digits.
pub(crate) fn digest_of(alloc: Global, alg: Alg, digits: &str) -> Option<Digest>
    ensures { IfSome result (λ d. alg_of d ≡ alg) }
{
    match hex::decode(alloc, digits) {
        Ok(octets) => Digest::given(alg, &octets),
        Err(_) => None,
    }
}

/// A record with this token, and a new chain with that.
fn with_new_chain(alloc: Global, old_token: &[u8], new_token: &[u8]) -> Option<Vec<u8>>
    requires { IsSequence new_token.now }
{
    let leaf = digest_of(alloc, Alg::Sha512, REHASHED_LEAF)?;
    let group = Group::of(alloc, Alg::Sha512, &[leaf]).ok()?;
    let old = record_with(alloc, &[(SINGLE, old_token)])?;
    let way = Way::Rehashed(&old, &group);
    record_beside(alloc, way, Alg::Sha512, (1, 3), leaf, new_token)
}

/// Whether it is that of the other program.
fn is_new_chain(alloc: Global, old_token: &[u8], new_token: &[u8]) -> bool {
    is_sequence(new_token)
        && are_same(
            &with_new_chain(alloc, old_token, new_token),
            &record_with(alloc, &[(REHASHED, old_token), (NEW_CHAIN, new_token)]),
        )
}

#[test]
fn a_new_chain_is_that_of_another_program(rt: HostRuntime) {
    let tokens = (token(rt.alloc(), 906), token(rt.alloc(), 938));
    let is_new_chain = match &tokens {
        (Ok(old), Ok(new)) => is_new_chain(rt.alloc(), old, new),
        _ => false,
    };
    must_hold(&rt, is_new_chain, "new chain");
}

/// The record of the second of two documents, with this token, and a new time-stamp with that.
fn with_new_stamp(alloc: Global, old_token: &[u8], new_token: &[u8]) -> Option<Vec<u8>>
    requires old { IsSequence old_token.now }
    requires new { IsSequence new_token.now }
{
    let old = first_record(alloc, Alg::Sha256, 2, 1, old_token)?;
    let leaf = digest(Alg::Sha256, old_token);
    let way = Way::Renewed(&old);
    record_beside(alloc, way, Alg::Sha256, (2, 3), leaf, new_token)
}

/// Whether it is in the last chain.
fn is_new_stamp(alloc: Global, old_token: &[u8], new_token: &[u8]) -> bool {
    is_sequence(old_token)
        && is_sequence(new_token)
        && are_same(
            &with_new_stamp(alloc, old_token, new_token),
            &record_with(alloc, &[(RENEWED, old_token), (NEW_STAMP, new_token)]),
        )
}

#[test]
fn a_new_time_stamp_is_in_the_last_chain(rt: HostRuntime) {
    let tokens = (token(rt.alloc(), 835), token(rt.alloc(), 906));
    let is_new_stamp = match &tokens {
        (Ok(old), Ok(new)) => is_new_stamp(rt.alloc(), old, new),
        _ => false,
    };
    must_hold(&rt, is_new_stamp, "new time-stamp");
}

/// Whether this is the moment of the first token.
fn is_moment(moment: Moment) -> bool {
    generalized_text(moment).as_str() == GEN_TIME
}

/// Whether the token stamps this root, at its moment.
fn is_stamp(token: &[u8], root: &Digest) -> bool {
    match stamp_of_root(token, root) {
        Ok(moment) => is_moment(moment),
        Err(_) => false,
    }
}

/// Why a token doesn't stamp this root.
fn refused(token: &[u8], root: &Digest) -> Option<StampFault> {
    stamp_of_root(token, root).err()
}

/// Whether the token doesn't stamp this root, since its imprint differs.
fn differs(token: &[u8], root: &Digest) -> bool {
    matches!(refused(token, root), Some(StampFault::ImprintDiffers))
}

/// Whether these octets are no token.
fn is_malformed(token: &[u8], root: &Digest) -> bool {
    matches!(refused(token, root), Some(StampFault::TokenMalformed))
}

/// Whether the token stamps this root alone.
fn stamps_alone(token: &[u8], root: &Digest) -> bool {
    is_stamp(token, root)
        && differs(token, &digest(Alg::Sha256, b"document 0\n"))
        && differs(token, &digest(Alg::Sha512, b"document 0\n"))
        && is_malformed(token.get(1..).unwrap_or(token), root)
}

#[test]
fn a_token_stamps_its_root_alone(rt: HostRuntime) {
    let token = octets_of(rt.alloc(), &FIRST_TOKEN);
    let stamps_alone = match (&token, digest_of(rt.alloc(), Alg::Sha256, ROOT)) {
        (Some(token), Some(root)) => stamps_alone(token, &root),
        _ => false,
    };
    must_hold(&rt, stamps_alone, "stamps its root alone");
}

/// What a renewal of a record by a time-stamp stands on.
fn last_of(record: &[u8]) -> Result<(Alg, Digest, Moment), LeafFault> {
    match last_stamp(record) {
        Ok(last) => Ok((last.alg, last.leaf, last.moment)),
        Err(fault) => Err(fault),
    }
}

/// What a renewal of a record by a hash tree stands on, for the second document.
fn leaf_of(alloc: Global, record: &[u8]) -> Result<NewLeaf, LeafFault> {
    let document = digest(Alg::Sha512, b"document 1\n");
    rehash_leaf(alloc, record, Alg::Sha512, &[document], false)
}

/// Whether the leaves of the record are these.
fn are_leaves(alloc: Global, record: &[u8], stamp_leaf: &Digest, leaf: &Digest) -> bool {
    match (last_of(record), leaf_of(alloc, record)) {
        (Ok(last), Ok(found)) => {
            last.0 == Alg::Sha256
                && last.1 == *stamp_leaf
                && is_moment(last.2)
                && found.group.node() == *leaf
                && found.after == last.2
        }
        _ => false,
    }
}

/// Whether the record has no stamp to stand on.
fn has_no_stamp(alloc: Global, record: &[u8]) -> bool {
    matches!(last_of(record), Err(LeafFault::NoStamp))
        && matches!(leaf_of(alloc, record), Err(LeafFault::NoStamp))
}

/// Whether the leaves of the record are those of the other program.
fn has_leaves(alloc: Global, record: &[u8]) -> bool {
    let stamp_leaf = digest_of(alloc, Alg::Sha256, STAMP_LEAF);
    let leaf = digest_of(alloc, Alg::Sha512, REHASH_LEAF);
    match (stamp_leaf, leaf) {
        (Some(stamp_leaf), Some(leaf)) => are_leaves(alloc, record, &stamp_leaf, &leaf),
        _ => false,
    }
}

/// A record of which nothing stamps the time.
fn unstamped(alloc: Global) -> Option<Vec<u8>> {
    match token(alloc, 906) {
        Ok(token) => record_with(alloc, &[(SINGLE, &token)]),
        Err(_) => None,
    }
}

#[test]
fn leaves_are_those_of_another_program(rt: HostRuntime) {
    let records = (
        record_of(rt.alloc(), &[(FIRST, &FIRST_TOKEN)]),
        unstamped(rt.alloc()),
    );
    let are_those = match &records {
        (Some(record), Some(unstamped)) => {
            has_leaves(rt.alloc(), record)
                && has_no_stamp(rt.alloc(), unstamped)
                && matches!(
                    last_of(record.get(1..).unwrap_or(record)),
                    Err(LeafFault::Malformed(_))
                )
        }
        _ => false,
    };
    must_hold(&rt, are_those, "leaves");
}
