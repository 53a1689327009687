//! Data objects that stand one after the other in memory.
ghost use Rattle.std.specs.Prelude.{◌≡◌, ◌↔◌, IfOk, IsTrue, length, sum};
ghost use Rattle.std.specs.List.{AllByRecursion};
ghost use Rattle.digests.specs.Selection.{AreOfWanted, set_given};
ghost use Rattle.judge_evidence.specs.Data.{AreOfData};
ghost use Rattle.library_records.specs.Stated.{parts_of};

use digests::{Algs, Wanted, WantedDigests};
use std::alloc::{AllocError, Global};

/// Whether octets have parts of these lengths, and no octet besides.
pub(crate) fn have_lengths(joined: &[u8], lengths: &[u64]) -> bool
    ensures { IsTrue result ↔ sum lengths.now ≡ length joined.now }
{
    let mut left = joined.len() as u64;
    for length in lengths {
        if *length > left {
            return false;
        }
        left -= *length;
    }
    left == 0
}

/// The digests of a data object by these algorithms.
pub(crate) fn digests_by(wanted: Algs, data_object: &[u8]) -> WantedDigests
    ensures set { set_given result ≡ wanted }
    ensures digests { AreOfWanted result data_object.now }
{
    let mut hashers = Wanted::new(wanted);
    hashers.update(data_object);
    hashers.finish()
}

/// The digests of each of the parts of these lengths, in their order, by these algorithms.
pub(crate) fn digests_of(
    alloc: Global,
    wanted: Algs,
    joined: &[u8],
    lengths: &[u64],
) -> Result<Vec<WantedDigests>, AllocError>
    requires { sum lengths.now ≡ length joined.now }
    ensures of_data { IfOk result (λ v. AreOfData v.items (parts_of lengths.now joined.now)) }
    ensures of_wanted { IfOk result (λ v. AllByRecursion (λ d. set_given d ≡ wanted) v.items) }
{
    let mut digests = Vec::new(alloc);
    let mut octets = joined;
    let mut left = lengths;
    while let Some((length, others)) = left.split_first() {
        let (data_object, behind) = octets.split_at(*length as usize);
        digests.push(digests_by(wanted, data_object))?;
        octets = behind;
        left = others;
    }
    Ok(digests)
}
