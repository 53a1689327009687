//! `evidence renew` with a token: records renewed by a time-stamp, each in its place (RFC 4998 5.2).
ghost use Rattle.std.specs.Prelude.{◌≡◌, List, ℕ, Option, [], IfErr, IfOk, OnOk};
ghost use Rattle.cli_making.specs.Stamps.{IsStamp};
ghost use Rattle.cli_renewing.specs.Records.{ArePut, AreTested, IsUntested, StopsAtPut};
ghost use Rattle.cli_renewing.specs.Renewing.{AreNoInput, AreRecordsRenewed, AreRenewed, renewal};
ghost use Rattle.cli_renewing.specs.Unrenewed.{AreUnrenewed, HaveInput, RenewsNot};

use crate::footings::footings_at;
use crate::keeping::Keeps;
use crate::stamp::later_stamp;
use crate::step::{put_record, test_record};
use crate::tree::tree_on;
use cli_failures::{Failure, files};
use cli_making::{Stamp, System};
use cli_tasks::RenewWords;
use std::alloc::Global;
use std::rt::Files;

/// Renews the evidence records in these files by the token that another file holds, each in its place: `renew_all` over
/// the files of the system. The token is read first.
///
/// Errors: a record is to be read from the standard input; the token can't be read; and those of `renew_all`.
#[inline(never)]
pub fn renew_records<'a, R: Files + AllocGlobal>(
    rt: &R,
    words: &RenewWords<'a>,
) -> Result<Vec<u8>, Failure<'a>>
    // Why not all records were renewed.
    ensures failed { IfErr result (RenewsNot R.File.remaining R.File.contents words.now) }
    // Nothing is printed.
    ensures quiet { IfOk result (λ text. text.items ≡ []) }
    // Of each record that wasn't renewed already a file that was opened took the octets of the new one, if it is known
    // what such a file holds.
    ensures renewed { OnOk result (AreRecordsRenewed R.File.remaining R.File.contents words.now) }
{
    test_paths(words.records.as_slice())?;
    let token = files::read_whole(rt, words.token)?;
    let mut keeps = System::new(rt);
    renew_all(
        rt.alloc(),
        &mut keeps,
        words.records.as_slice(),
        token.as_slice(),
    )?;
    Ok(Vec::new(rt.alloc()))
}

/// Tests that no record is to be read from the standard input, in whose place none can be put.
fn test_paths<'a>(paths: &[&str]) -> Result<(), Failure<'a>>
    ensures named { OnOk result (AreNoInput paths.now) }
    ensures refused { IfErr result (HaveInput paths.now) }
{
    for path in paths {
        if *path == "-" {
            return Err(Failure::Usage("RECORD"));
        }
    }
    Ok(())
}

/// Renews the evidence records in the files of these paths by a token over the root of the tree over their last
/// time-stamps, each in its place.
///
/// Each record is read for what its renewal stands on; once the token is judged, for a test whether it can be renewed;
/// and once all can, to be renewed. A file holds the old record or the new one, whenever the work is cut off. At the
/// next run with the same records and token, those that have been renewed already are left as they are, and count for
/// the tree as they stood before.
///
/// Errors: none is named; a file can't be read or replaced; it doesn't hold a record; U3, U4; U7 to U10; memory is
/// refused. No file is put if a rule refuses, or a test fails.
pub fn renew_all<'a, K: Keeps>(
    alloc: Global,
    keeps: &mut K,
    paths: &[&str],
    token: &[u8],
) -> Result<(), Failure<'a>>
    // All records are renewed: those that weren't were replaced by the new ones, in their order, and no other files.
    ensures renewed { OnOk result (AreRenewed K.ways (K.put keeps.old) (K.put keeps.new) paths.now token.now) }
    // After a failure no file was put; or nothing was refused, and the first records are renewed.
    ensures failed { IfErr result (AreUnrenewed K.ways (K.put keeps.old) (K.put keeps.new) paths.now token.now) }
{
    let found = footings_at(alloc, keeps, paths, Some(token))?;
    let footings = found.as_slice();
    let tree = tree_on(alloc, footings)?;
    let by = later_stamp(&tree, footings, token)?;
    test_records(alloc, &by, keeps, paths)?;
    put_records(alloc, &by, keeps, paths)
}

/// Tests whether each record can be renewed, and put into its place.
fn test_records<'a, K: Keeps>(
    alloc: Global,
    by: &Stamp,
    keeps: &K,
    paths: &[&str],
) -> Result<(), Failure<'a>>
    requires { IsStamp by.now }
    ensures tested { OnOk result (AreTested K.ways (renewal by.now.tree.now by.now.token.now by.now.moment) paths.now) }
    ensures failed { IfErr result (IsUntested K.ways (renewal by.now.tree.now by.now.token.now by.now.moment)
        paths.now) }
{
    for path in paths {
        test_record(alloc, by, keeps, path)?;
    }
    Ok(())
}

/// Renews each record in turn.
fn put_records<'a, K: Keeps>(
    alloc: Global,
    by: &Stamp,
    keeps: &mut K,
    paths: &[&str],
) -> Result<(), Failure<'a>>
    requires { IsStamp by.now }
    ensures put { OnOk result ((news : List (Option (List ℕ))) × ArePut K.ways (K.put keeps.old) (K.put keeps.new)
        (renewal by.now.tree.now by.now.token.now by.now.moment) paths.now news) }
    ensures failed { IfErr result (StopsAtPut K.ways (K.put keeps.old) (K.put keeps.new)
        (renewal by.now.tree.now by.now.token.now by.now.moment) paths.now) }
{
    for path in paths {
        put_record(alloc, by, keeps, path)?;
    }
    Ok(())
}
