//! What the renewal of one record by a hash tree stands on.
ghost use Rattle.std.specs.Prelude.{◌≡◌, ◌<◌, ◌⊎◌, All, IfErr, IfOk, IsUtf8, MatchOption, length};
ghost use Rattle.std.specs.Option.{option_copied};
ghost use Rattle.digests.specs.Digests.{alg_of};
ghost use Rattle.evidence_making.specs.Done.{IsDoneAnewBy};
ghost use Rattle.evidence_making.specs.Groups.{IsRehashLeaf};
ghost use Rattle.cli_rehashing.specs.Footings.{IsLineFooting};
ghost use Rattle.cli_rehashing.specs.Standing.{HasNoLeaf, IsFoundAnew, IsNodeOf, IsNotDoneAnew};
ghost use Rattle.cli_rehashing.specs.Unrehashed.{RefusesRecord};

use crate::folder::RecordFolder;
use crate::keeping::KeepsBelow;
use cli_failures::Failure;
use cli_making::text_of;
use cli_renewing::Footing;
use digests::{Alg, Digest};
use evidence_making::{NewLeaf, rehash_leaf, rehashed_by};
use evidence_sums::RecordSum;
use std::alloc::{AllocError, Global};

/// What a renewal by a hash tree stands on, and whether the record is renewed by the token already.
#[derive(Debug, Drop)]
pub struct Standing {
    /// What it stands on.
    pub leaf: NewLeaf,
    /// Whether the record is renewed already.
    pub done: bool,
}

/// The node of what it stands on, and the moment.
pub fn footing_on(leaf: &NewLeaf) -> Footing
    ensures node { IsNodeOf leaf.now.group result.leaf }
    ensures after { result.after ≡ leaf.now.after }
{
    Footing {
        leaf: leaf.group.node(),
        after: leaf.after,
    }
}

/// What the renewal of a record by this token stood on, if there is a token and the record is renewed by it already.
fn done_by(
    alloc: Global,
    octets: &[u8],
    alg: Alg,
    digests: &[Digest],
    token: Option<&[u8]>,
) -> Result<Option<NewLeaf>, AllocError>
    requires some { 0 < length digests.now }
    requires algorithm { All (λ d. alg_of d ≡ alg) digests.now }
    ensures { IfOk result (λ o. MatchOption o
        (IsNotDoneAnew (option_copied token.entry) octets.now alg digests.now)
        (λ r. IsDoneAnewBy (option_copied token.entry) octets.now alg digests.now r.group r.after)) }
{
    match token {
        Some(token) => rehashed_by(alloc, octets, alg, digests, token),
        None => Ok(None),
    }
}

/// What the renewal of a record that isn't renewed already stands on.
///
/// Errors: the octets don't encode a record; U3, U11; memory is refused.
fn leaf_of<'a>(
    alloc: Global,
    octets: &[u8],
    alg: Alg,
    digests: &[Digest],
    alone: bool,
) -> Result<NewLeaf, Failure<'a>>
    requires some { 0 < length digests.now }
    requires algorithm { All (λ d. alg_of d ≡ alg) digests.now }
    ensures found { IfOk result (λ r. IsRehashLeaf octets.now alone alg digests.now r.group r.after) }
    ensures refused { IfErr result (λ f. (f ≡ Failure.Memory) ⊎ HasNoLeaf octets.now alone digests.now f) }
{
    match rehash_leaf(alloc, octets, alg, digests, alone) {
        Ok(leaf) => Ok(leaf),
        Err(fault) => Err(Failure::from(fault)),
    }
}

/// What the renewal of a record by a hash tree stands on, for the data objects of these digests by one algorithm, with
/// this token if there is one already; `alone` says that other values of its first list are of neighbours in its tree.
///
/// Errors: the octets don't encode a record; U3, U11; memory is refused.
pub fn standing_of<'a>(
    alloc: Global,
    octets: &[u8],
    alg: Alg,
    digests: &[Digest],
    alone: bool,
    token: Option<&[u8]>,
) -> Result<Standing, Failure<'a>>
    requires some { 0 < length digests.now }
    requires algorithm { All (λ d. alg_of d ≡ alg) digests.now }
    ensures found { IfOk result (λ s. IsFoundAnew (option_copied token.entry) octets.now alone alg digests.now s.done
        s.leaf.group s.leaf.after) }
    ensures refused { IfErr result (λ f. (f ≡ Failure.Memory) ⊎ HasNoLeaf octets.now alone digests.now f) }
{
    match done_by(alloc, octets, alg, digests, token)? {
        Some(leaf) => Ok(Standing { leaf, done: true }),
        None => {
            let leaf = leaf_of(alloc, octets, alg, digests, alone)?;
            Ok(Standing { leaf, done: false })
        }
    }
}

/// What the renewal of a record stands on, with this token if there is one already.
///
/// Errors: the file can't be read; it doesn't hold a record; U3, U11; memory is refused.
pub fn footing_of<'a, K: KeepsBelow>(
    alloc: Global,
    keeps: &K,
    folder: &RecordFolder,
    sum: &RecordSum,
    token: Option<&[u8]>,
) -> Result<Footing, Failure<'a>>
    requires { IsUtf8 sum.now.name }
    ensures found { IfOk result (IsLineFooting K.ways (option_copied token.entry) folder.now sum.now) }
    ensures refused { IfErr result (λ f. (f ≡ Failure.Memory) ⊎ RefusesRecord K.ways folder.now sum.now f) }
{
    let name = sum.name(alloc)?;
    let octets = keeps.read_file(folder.path, text_of(name.as_slice()))?;
    let digests = sum.digests(alloc)?;
    let (octets, digests) = (octets.as_slice(), digests.as_slice());
    let standing = standing_of(alloc, octets, sum.alg(), digests, folder.alone, token)?;
    Ok(footing_on(&standing.leaf))
}
