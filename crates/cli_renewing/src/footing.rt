//! What the renewal of one record stands on.
ghost use Rattle.std.specs.Prelude.{◌≡◌, ◌⊎◌, IfErr, IfOk, MatchOption};
ghost use Rattle.std.specs.Option.{option_copied};
ghost use Rattle.evidence_making.specs.Done.{IsDoneBy};
ghost use Rattle.evidence_making.specs.Leaves.{IsLastStamp};
ghost use Rattle.cli_renewing.specs.Footings.{IsFootingRead};
ghost use Rattle.cli_renewing.specs.Standing.{HasNoFooting, IsFound, IsNotDone};
ghost use Rattle.cli_renewing.specs.Unrenewed.{RefusesRecord};

use crate::keeping::Keeps;
use cli_failures::Failure;
use der_time::Moment;
use digests::Digest;
use evidence_making::{LastStamp, last_stamp, renewed_by};
use std::alloc::{AllocError, Global};

/// What the renewal of a record stands on (RFC 4998 5.2).
#[derive(Clone, Copy)]
pub struct Footing {
    /// What the new time-stamp must cover, a leaf of the tree.
    pub leaf: Digest,
    /// The moment of the last time-stamp, after which the new one must be.
    pub after: Moment,
}

/// What a renewal by a time-stamp stands on, and whether the record is renewed by the token already.
#[derive(Clone, Copy)]
pub struct Standing {
    /// What it stands on.
    pub last: LastStamp,
    /// Whether the record is renewed already.
    pub done: bool,
}

/// What the renewal of a record by this token stood on, if there is a token and the record is renewed by it already.
fn done_by(
    alloc: Global,
    octets: &[u8],
    token: Option<&[u8]>,
) -> Result<Option<LastStamp>, AllocError>
    ensures { IfOk result (λ o. MatchOption o (IsNotDone (option_copied token.entry) octets.now)
        (IsDoneBy (option_copied token.entry) octets.now)) }
{
    match token {
        Some(token) => renewed_by(alloc, octets, token),
        None => Ok(None),
    }
}

/// What the renewal of a record that isn't renewed already stands on.
///
/// Errors: the octets don't encode a record; U3.
fn last_of<'a>(octets: &[u8]) -> Result<LastStamp, Failure<'a>>
    ensures found { IfOk result (IsLastStamp octets.now) }
    ensures refused { IfErr result (HasNoFooting octets.now) }
{
    match last_stamp(octets) {
        Ok(last) => Ok(last),
        Err(fault) => Err(Failure::from(fault)),
    }
}

/// What the renewal of a record by a time-stamp stands on, with this token if there is one already.
///
/// Errors: the octets don't encode a record; U3; memory is refused.
pub fn standing_of<'a>(
    alloc: Global,
    octets: &[u8],
    token: Option<&[u8]>,
) -> Result<Standing, Failure<'a>>
    ensures found { IfOk result (λ s. IsFound (option_copied token.entry) octets.now s.done s.last) }
    ensures refused { IfErr result (λ f. (f ≡ Failure.Memory) ⊎ HasNoFooting octets.now f) }
{
    match done_by(alloc, octets, token)? {
        Some(last) => Ok(Standing { last, done: true }),
        None => {
            let last = last_of(octets)?;
            Ok(Standing { last, done: false })
        }
    }
}

/// What the renewal of the record in the file of this path stands on, with this token if there is one already.
///
/// Errors: the file can't be read; it doesn't hold a record; U3; memory is refused.
pub fn footing_at<'a, K: Keeps>(
    alloc: Global,
    keeps: &K,
    path: &str,
    token: Option<&[u8]>,
) -> Result<Footing, Failure<'a>>
    ensures found { IfOk result (IsFootingRead K.ways (option_copied token.entry) path.now) }
    ensures refused { IfErr result (λ f. (f ≡ Failure.Memory) ⊎ RefusesRecord K.ways path.now f) }
{
    let octets = keeps.read_file(path)?;
    let standing = standing_of(alloc, octets.as_slice(), token)?;
    Ok(Footing {
        leaf: standing.last.leaf,
        after: standing.last.moment,
    })
}
