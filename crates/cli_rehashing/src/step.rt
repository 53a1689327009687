//! The renewal of one record.
ghost use Rattle.std.specs.Prelude.{◌≡◌, ◌<◌, ◌⊎◌, [], All, IfErr, OnErr, OnOk, IsUtf8, length, vec_items};
ghost use Rattle.digests.specs.Digests.{alg_of};
ghost use Rattle.cli_failures.specs.Files.{IsUnread, path_below};
ghost use Rattle.cli_making.specs.Adding.{Adds};
ghost use Rattle.cli_making.specs.Stamps.{IsStamp};
ghost use Rattle.cli_renewing.specs.Records.{IsPutAt, IsTested, IsUnputAt, IsUntestedAt};
ghost use Rattle.cli_renewing.specs.Steps.{IsStep};
ghost use Rattle.cli_rehashing.specs.Rehashing.{BecomesAnew, IsOutsideAnew, IsTooLongAnew, rehashing};

use crate::folder::RecordFolder;
use crate::footing::{footing_on, standing_of};
use crate::keeping::KeepsBelow;
use cli_failures::{Failure, files};
use cli_making::{Stamp, text_of};
use cli_renewing::{Unrenewed, lists_of};
use digests::{Alg, Digest};
use evidence_making::{MakeFault as MakeRecordFault, RenewFault, rehash_record};
use evidence_sums::RecordSum;
use std::alloc::Global;

/// The octets of a record with a new chain by the token, for the data objects of these digests, or `None` if it is
/// renewed so already.
///
/// Errors: the octets don't encode a record that stands on a leaf of the tree, and is earlier; U10; memory is refused.
fn rehashed_of(
    alloc: Global,
    by: &Stamp,
    octets: &[u8],
    alg: Alg,
    digests: &[Digest],
    alone: bool,
) -> Result<Option<Vec<u8>>, Unrenewed>
    requires stamp { IsStamp by.now }
    requires some { 0 < length digests.now }
    requires algorithm { All (λ d. alg_of d ≡ alg) digests.now }
    ensures { IsStep vec_items
        (BecomesAnew by.now.tree.now by.now.token.now by.now.moment alone alg digests.now octets.now)
        (IsTooLongAnew by.now.tree.now by.now.token.now alone alg digests.now octets.now)
        (IsOutsideAnew by.now.tree.now by.now.token.now by.now.moment alone alg digests.now octets.now) result }
{
    let standing = match standing_of(alloc, octets, alg, digests, alone, Some(by.token)) {
        Ok(standing) => standing,
        Err(failure) => return Err(Unrenewed::of(&failure)),
    };
    let Some(values) = lists_of(by, &footing_on(&standing.leaf)) else {
        return Err(Unrenewed::Changed);
    };
    if standing.done {
        return Ok(None);
    }
    match rehash_record(alloc, octets, alg, &standing.leaf.group, &values, by.token) {
        Ok(rehashed) => Ok(Some(rehashed)),
        Err(RenewFault::TooLong) => Err(Unrenewed::TooLong),
        Err(RenewFault::OutOfMemory) => Err(Unrenewed::OutOfMemory),
        Err(RenewFault::Malformed(_)) => Err(Unrenewed::Changed),
    }
}

/// The failure that the file `FOLDER/NAME.ers` doesn't hold any more what it held.
fn changed<'a>(alloc: Global, folder: &str, name: &str) -> Failure<'a>
    ensures { (result ≡ Failure.Memory) ⊎ IsUnread (path_below folder.now name.now) result }
{
    match files::path_of(alloc, folder, name) {
        Ok(path) => files::changed(alloc, path.as_str()),
        Err(_) => Failure::Memory,
    }
}

/// Tests whether a record can be given a new chain by the token, and put into its place.
///
/// Errors: the file can't be read or replaced; its record isn't what it was when the tree was made; U10; memory is
/// refused.
pub fn test_line<'a, K: KeepsBelow>(
    alloc: Global,
    by: &Stamp,
    keeps: &K,
    folder: &RecordFolder,
    sum: &RecordSum,
) -> Result<(), Failure<'a>>
    requires named { IsUtf8 sum.now.name }
    requires stamp { IsStamp by.now }
    ensures tested { OnOk result (IsTested K.ways
        (rehashing folder.now by.now.tree.now by.now.token.now by.now.moment) sum.now) }
    ensures fails { IfErr result (IsUntestedAt K.ways
        (rehashing folder.now by.now.tree.now by.now.token.now by.now.moment) sum.now) }
{
    let name = sum.name(alloc)?;
    let name = text_of(name.as_slice());
    keeps.test_file(folder.path, name)?;
    let octets = keeps.read_file(folder.path, name)?;
    let digests = sum.digests(alloc)?;
    let (octets, digests) = (octets.as_slice(), digests.as_slice());
    match rehashed_of(alloc, by, octets, sum.alg(), digests, folder.alone) {
        Ok(_) => Ok(()),
        Err(Unrenewed::Changed) => Err(changed(alloc, folder.path, name)),
        Err(Unrenewed::TooLong) => Err(Failure::Unmade(MakeRecordFault::TooLong)),
        Err(Unrenewed::OutOfMemory) => Err(Failure::Memory),
    }
}

/// Gives a record a new chain by the token, unless it is renewed so already.
///
/// Errors: the file can't be read or replaced; its record isn't what it was when the tree was made; memory is refused.
/// Then no file was put.
pub fn put_line<'a, K: KeepsBelow>(
    alloc: Global,
    by: &Stamp,
    keeps: &mut K,
    folder: &RecordFolder,
    sum: &RecordSum,
) -> Result<(), Failure<'a>>
    requires named { IsUtf8 sum.now.name }
    requires stamp { IsStamp by.now }
    ensures put { OnOk result (IsPutAt K.ways (K.put keeps.old) (K.put keeps.new)
        (rehashing folder.now by.now.tree.now by.now.token.now by.now.moment) sum.now) }
    ensures fails { IfErr result (IsUnputAt K.ways
        (rehashing folder.now by.now.tree.now by.now.token.now by.now.moment) sum.now) }
    ensures none { OnErr result (Adds (K.put keeps.old) (K.put keeps.new) []) }
{
    let name = sum.name(alloc)?;
    let name = text_of(name.as_slice());
    let octets = keeps.read_file(folder.path, name)?;
    let digests = sum.digests(alloc)?;
    let (octets, digests) = (octets.as_slice(), digests.as_slice());
    match rehashed_of(alloc, by, octets, sum.alg(), digests, folder.alone) {
        Ok(Some(rehashed)) => keeps.put_file(folder.path, name, rehashed.as_slice()),
        Ok(None) => Ok(()),
        Err(Unrenewed::Changed) => Err(changed(alloc, folder.path, name)),
        Err(Unrenewed::TooLong) => Err(changed(alloc, folder.path, name)),
        Err(Unrenewed::OutOfMemory) => Err(Failure::Memory),
    }
}
