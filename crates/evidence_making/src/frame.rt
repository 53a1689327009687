use digests::Alg;
use evidence_trees::Group;

// What stands round a token that is the last of a record.
#[derive(Drop)]
pub(crate) struct Frame<'a> {
    // The algorithm of its archive time-stamp.
    pub(crate) alg: Alg,
    // What stands in the first list in place of its value, if that is the node of a group.
    pub(crate) group: Option<&'a Group>,
    // The contents of `digestAlgorithms`, and whether the algorithm is added to them.
    pub(crate) algorithms: &'a [u8],
    pub(crate) adds: bool,
    // The elements between `digestAlgorithms` and the chains.
    pub(crate) others: &'a [u8],
    // The chains before its own.
    pub(crate) chains: &'a [u8],
    // The archive time-stamps before it in its chain.
    pub(crate) stamps: &'a [u8],
}
