//! A record of a group of two documents (RFC 4998 4.2), and its renewal by a hash tree over both. What stands in them
//! before each token was written by Python from RFC 4998, with digests by its hashlib.
ghost use Rattle.evidence_types.specs.StampValue.{IsSequence};

use crate::asserts::must_hold;
use crate::documents::documents;
use crate::making::{Way, are_same, digest_of, record_beside};
use crate::tokens::{FIRST_TOKEN, GROUP_TOKEN, NODE, octets_of, record_of};
use digests::Alg;
use evidence_making::{LeafFault, NewLeaf, is_sequence, rehash_leaf, rehashed_by};
use std::alloc::Global;

/// The record, before `FIRST_TOKEN`.
const GROUP: &str =
    "308203b6020101300d300b0609608648016503040201308203a03082039c30820398a00b060960864801\
     6503040201a24630440420b30bb20e74f7a295aeaba71bedea2d4c63ebad7ded8d1d6368f9e70fa063d0\
     ad0420f6065ce8be732658ce43398ea1da159c98d57c15c9ff3832e91979db9cbe8bfd";

/// The renewed record, before the same token, and from there to `GROUP_TOKEN`.
const RENEWED_GROUP: [&str; 2] = [
    "308207c6020101301a300b0609608648016503040201300b0609608648016503040203308207a3308203\
     9c30820398a00b0609608648016503040201a24630440420b30bb20e74f7a295aeaba71bedea2d4c63eb\
     ad7ded8d1d6368f9e70fa063d0ad0420f6065ce8be732658ce43398ea1da159c98d57c15c9ff3832e919\
     79db9cbe8bfd",
    "308203ff308203fba00b0609608648016503040203a28187308184044058414b31442aac7f2d3d925602\
     f525a8d467aab48edd7eb542dccc11f096591426be071fd2bfc3213d73aaf098a1d251e12f414a3b9f3d\
     8dea6166633cb0eacb0440ac7b0d88557c8a53f27351811e3639cae160dd62f705d6585fe8fdea65339c\
     bccf1959479edb09d5d7580d43050e41411fb9465cf35b60864967f8f739535698",
];

/// From the first document to before which one, whether the record is of these alone, and the node that must be
/// covered, or `None` if a data object is not named.
static NODES: [(usize, bool, Option<&str>); 5] = [
    (2, false, Some(NODE)),
    (2, true, Some(NODE)),
    (1, false, None),
    (3, false, None),
    (
        1,
        true,
        Some(
            "58414b31442aac7f2d3d925602f525a8d467aab48edd7eb542dccc11f096591426be071fd2bfc3213d\
             73aaf098a1d251e12f414a3b9f3d8dea6166633cb0eacb",
        ),
    ),
];

/// What a renewal of the record stands on, for so many documents.
fn leaf_for(
    alloc: Global,
    record: &[u8],
    count: usize,
    is_alone: bool,
) -> Result<NewLeaf, LeafFault> {
    let documents = documents(alloc, Alg::Sha512, 0, count)?;
    if documents.is_empty() {
        return Err(LeafFault::OutOfMemory);
    }
    rehash_leaf(alloc, record, Alg::Sha512, &documents, is_alone)
}

/// Whether this is the node, or for `None` a data object is not named.
fn is_on(alloc: Global, leaf: &Result<NewLeaf, LeafFault>, node: Option<&str>) -> bool {
    match (leaf, node) {
        (Ok(leaf), Some(node)) => digest_of(alloc, Alg::Sha512, node) == Some(leaf.group.node()),
        (Err(fault), None) => *fault == LeafFault::Unnamed,
        _ => false,
    }
}

/// Whether the record needs each of its documents to be named.
fn needs_each(alloc: Global, record: &[u8]) -> bool {
    for (count, is_alone, node) in &NODES {
        let leaf = leaf_for(alloc, record, *count, *is_alone);
        if !is_on(alloc, &leaf, *node) {
            return false;
        }
    }
    true
}

#[test]
fn all_data_objects_are_named(rt: HostRuntime) {
    let needs_each = match &record_of(rt.alloc(), &[(GROUP, &FIRST_TOKEN)]) {
        Some(record) => needs_each(rt.alloc(), record),
        None => false,
    };
    must_hold(&rt, needs_each, "needs each");
}

/// The record renewed by this token, in a tree over its leaf alone.
fn with_new_chain(alloc: Global, record: &[u8], token: &[u8]) -> Option<Vec<u8>>
    requires { IsSequence token.now }
{
    let node = digest_of(alloc, Alg::Sha512, NODE)?;
    let leaf = leaf_for(alloc, record, 2, false).ok()?;
    let way = Way::Rehashed(record, &leaf.group);
    record_beside(alloc, way, Alg::Sha512, (0, 0), node, token)
}

/// Whether a record that is renewed for so many documents by this token stood on the node.
fn stood_on_node(alloc: Global, record: &[u8], count: usize, token: &[u8]) -> bool {
    let documents = match documents(alloc, Alg::Sha512, 0, count) {
        Ok(documents) if !documents.is_empty() => documents,
        _ => return false,
    };
    match rehashed_by(alloc, record, Alg::Sha512, &documents, token) {
        Ok(Some(leaf)) => digest_of(alloc, Alg::Sha512, NODE) == Some(leaf.group.node()),
        _ => false,
    }
}

/// Whether the record gets the new chain of the other program, and has it then for both documents, but for no other.
fn is_renewed(alloc: Global, record: &[u8], renewed: &Option<Vec<u8>>, token: &[u8]) -> bool {
    let Some(octets) = renewed else {
        return false;
    };
    is_sequence(token)
        && are_same(&with_new_chain(alloc, record, token), renewed)
        && stood_on_node(alloc, octets, 2, token)
        && !stood_on_node(alloc, record, 2, token)
        && !stood_on_node(alloc, octets, 3, token)
}

#[test]
fn the_new_chain_is_over_both(rt: HostRuntime) {
    let [front, between] = RENEWED_GROUP;
    let renewed = record_of(
        rt.alloc(),
        &[(front, &FIRST_TOKEN), (between, &GROUP_TOKEN)],
    );
    let octets = (
        record_of(rt.alloc(), &[(GROUP, &FIRST_TOKEN)]),
        octets_of(rt.alloc(), &GROUP_TOKEN),
    );
    let is_renewed = match &octets {
        (Some(record), Some(token)) => is_renewed(rt.alloc(), record, &renewed, token),
        _ => false,
    };
    must_hold(&rt, is_renewed, "over both");
}
