ghost use Rattle.std.specs.Prelude.{◌≡◌, ◌∷◌, [], ◌++◌, ℕ, List, length};
ghost use Rattle.der_core.specs.Element.{el, IsElement};
ghost use Rattle.der_core.specs.Values.{HasLength};
ghost use Rattle.cms_types.specs.AttributeValue.{optional_attributes};
ghost use Rattle.cms_types.specs.SignedDataValue.{algorithms_parts};
ghost use Rattle.evidence_types.specs.StampValue.{StampValue};
ghost use Rattle.evidence_types.specs.EvidenceValue.{EvidenceValue, EncodesEvidence, optional_encryption};
ghost use Rattle.evidence_types.specs.EvidenceValue.{chain_parts, chains_parts};

use der_core::{Cursor, header};
use evidence_types::Chains;

// What is kept of a record that is renewed, but for its chains: the contents of `digestAlgorithms`, and the elements
// between these and the chains.
#[derive(Drop)]
pub(crate) struct Kept<'a> {
    pub(crate) algorithms: &'a [u8],
    pub(crate) others: &'a [u8],
}

// The octets of the chains before the last one, and of the archive time-stamps of that one.
#[derive(Drop)]
pub(crate) struct LastChain<'a> {
    pub(crate) before: &'a [u8],
    pub(crate) stamps: &'a [u8],
}

// The contents of the first element of the octets, and what follows it.
fn first<'a>(octets: &'a [u8]) -> (&'a [u8], &'a [u8])
    ensures { (t : ℕ) (b r : List ℕ) → IsElement t b → octets.now ≡ el t b
        ++ r → (result.0.now ≡ b) × (result.1.now ≡ r) }
{
    let mut input = Cursor::new(octets, 0);
    match input.next() {
        Ok(element) => (element.body, input.rest()),
        Err(_) => (&[], &[]),
    }
}

// The octets before the last element, whose contents have this many octets.
fn before_last<'a>(octets: &'a [u8], contents: usize) -> &'a [u8]
    ensures { (f : List ℕ) (t : ℕ) (b : List ℕ) → HasLength b
        → length b ≡ contents → octets.now ≡ f ++ el t b → result.now ≡ f }
{
    let Ok(header) = header(0, contents as u64) else {
        return octets;
    };
    let size = header.bytes().len() + contents;
    &octets[..octets.len().saturating_sub(size)]
}

// What is kept of a record whose chains have this many octets.
pub(crate) fn kept_of<'a>(octets: &'a [u8], chains: usize) -> Kept<'a>
    ensures { (v : EvidenceValue) → EncodesEvidence octets.now v → length (chains_parts v.chains) ≡ chains
        → (result.algorithms.now ≡ algorithms_parts v.algorithms)
        × (result.others.now ≡ optional_attributes 0xa0 v.crypto_infos ++ optional_encryption 0xa1 v.encryption) }
{
    let (parts, _) = first(octets);
    let (_, behind_version) = first(before_last(parts, chains));
    let (algorithms, others) = first(behind_version);
    Kept { algorithms, others }
}

// The last of the chains.
pub(crate) fn last_chain<'a>(chains: &Chains<'a>) -> LastChain<'a>
    ensures { (front : List (List StampValue)) (last : List StampValue) → chains.now ≡ front ++ last ∷ []
        → (result.before.now ≡ chains_parts front) × (result.stamps.now ≡ chain_parts last) }
{
    let all = chains.bytes();
    let mut last = LastChain {
        before: &[],
        stamps: &[],
    };
    let mut left = chains.again();
    while let Some((chain, others)) = left.next() {
        last = LastChain {
            before: &all[..all.len().saturating_sub(left.bytes().len())],
            stamps: chain.bytes(),
        };
        left = others;
    }
    last
}
