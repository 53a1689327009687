//! `evidence rehash` with a token: records that get a new chain by one hash tree, each in its place (RFC 4998 5.2).
ghost use Rattle.std.specs.Prelude.{◌≡◌, List, ℕ, Option, [], IfErr, IfOk, OnOk};
ghost use Rattle.digests.specs.declared.algorithm.Alg.{Alg};
ghost use Rattle.cli_making.specs.Stamps.{IsStamp};
ghost use Rattle.cli_renewing.specs.Records.{ArePut, AreTested, IsUntested, StopsAtPut};
ghost use Rattle.cli_rehashing.specs.Lines.{AreLines, AreNamed};
ghost use Rattle.cli_rehashing.specs.Rehashing.{AreAnew, AreAnewOn, AreRecordsAnew, rehashing};
ghost use Rattle.cli_rehashing.specs.Unrehashed.{AreLinesNotAnew, AreNotAnew, RehashesNot};

use crate::folder::RecordFolder;
use crate::footings::{footings_of, tree_of};
use crate::keeping::KeepsBelow;
use crate::reading::lines_in;
use crate::step::{put_line, test_line};
use cli_failures::Failure;
use cli_making::{Stamp, System, given_by};
use cli_renewing::later_stamp;
use cli_tasks::RehashWords;
use digests::Alg;
use evidence_sums::RecordSums;
use std::alloc::Global;
use std::rt::Files;

/// Gives each evidence record that the sums in a file name a new chain, by the token that another file holds:
/// `rehash_all` over the files of the system. Both files are read before one is judged.
///
/// Errors: no algorithm has the name; a file can't be read; and those of `rehash_all`.
#[inline(never)]
pub fn rehash_records<'a, R: Files + AllocGlobal>(
    rt: &R,
    words: &RehashWords<'a>,
) -> Result<Vec<u8>, Failure<'a>>
    // Why not all records were renewed.
    ensures failed { IfErr result (RehashesNot R.File.remaining R.File.contents words.now) }
    // Nothing is printed.
    ensures quiet { IfOk result (λ text. text.items ≡ []) }
    // Of each record that wasn't renewed already a file that was opened took the octets of the new one, if it is known
    // what such a file holds.
    ensures renewed { OnOk result (AreRecordsAnew R.File.remaining R.File.contents words.now) }
{
    let given = given_by(rt, Some(words.alg), words.sums, words.token)?;
    let (text, token) = (given.text.as_slice(), given.token.as_slice());
    let mut keeps = System::new(rt);
    let folder = RecordFolder {
        path: words.into,
        alone: words.alone,
    };
    rehash_all(rt.alloc(), &mut keeps, &folder, given.alg, text, token)?;
    Ok(Vec::new(rt.alloc()))
}

/// Gives each evidence record of a text of sums by this algorithm, which is below this folder by its name, a new chain
/// by a token over the root of the tree over the leaves of all, in its place: for the data objects of the digests that
/// the text states of it.
///
/// Each record is read for what its renewal stands on; once the token is judged, for a test whether it can be renewed;
/// and once all can, to be renewed. A file holds the old record or the new one, whenever the work is cut off. At the
/// next run with the same sums and token, those that have been renewed already are left as they are, and count for the
/// tree as they stood before.
///
/// Errors: U1, U2, U5 and U6; a file can't be read or replaced; it doesn't hold a record; U3, U11; U7 to U10; memory is
/// refused. No file is put if a rule refuses, or a test fails.
pub fn rehash_all<'a, K: KeepsBelow>(
    alloc: Global,
    keeps: &mut K,
    folder: &RecordFolder,
    alg: Alg,
    text: &[u8],
    token: &[u8],
) -> Result<(), Failure<'a>>
    // All records are renewed: those that weren't were replaced by the new ones, in their order, and no other files.
    ensures renewed { OnOk result (AreAnew K.ways (K.put keeps.old) (K.put keeps.new) folder.now alg text.now
        token.now) }
    // After a failure no file was put; or nothing was refused, and the first records are renewed.
    ensures failed { IfErr result (AreNotAnew K.ways (K.put keeps.old) (K.put keeps.new) folder.now alg text.now
        token.now) }
{
    let sums = lines_in(alloc, alg, text)?;
    rehash_lines(alloc, keeps, folder, &sums, token)
}

/// Gives each of these records a new chain.
fn rehash_lines<'a, K: KeepsBelow>(
    alloc: Global,
    keeps: &mut K,
    folder: &RecordFolder,
    sums: &RecordSums,
    token: &[u8],
) -> Result<(), Failure<'a>>
    requires { (alg : Alg) × (text : List ℕ) × AreLines alg text sums.now }
    ensures renewed { OnOk result (AreAnewOn K.ways (K.put keeps.old) (K.put keeps.new) folder.now sums.now
        token.now) }
    ensures failed { IfErr result (AreLinesNotAnew K.ways (K.put keeps.old) (K.put keeps.new) folder.now sums.now
        token.now) }
{
    let found = footings_of(alloc, keeps, folder, sums, Some(token))?;
    let footings = found.as_slice();
    let tree = tree_of(alloc, footings)?;
    let by = later_stamp(&tree, footings, token)?;
    test_lines(alloc, &by, keeps, folder, sums)?;
    put_lines(alloc, &by, keeps, folder, sums)
}

/// Tests whether each record can be given a new chain, and put into its place.
fn test_lines<'a, K: KeepsBelow>(
    alloc: Global,
    by: &Stamp,
    keeps: &K,
    folder: &RecordFolder,
    sums: &RecordSums,
) -> Result<(), Failure<'a>>
    requires named { AreNamed sums.now }
    requires stamp { IsStamp by.now }
    ensures tested { OnOk result (AreTested K.ways
        (rehashing folder.now by.now.tree.now by.now.token.now by.now.moment) sums.now) }
    ensures failed { IfErr result (IsUntested K.ways
        (rehashing folder.now by.now.tree.now by.now.token.now by.now.moment) sums.now) }
{
    let mut left = sums.again();
    while let Some((sum, others)) = left.next() {
        test_line(alloc, by, keeps, folder, &sum)?;
        left = others;
    }
    Ok(())
}

/// Gives each record a new chain, one after the other.
fn put_lines<'a, K: KeepsBelow>(
    alloc: Global,
    by: &Stamp,
    keeps: &mut K,
    folder: &RecordFolder,
    sums: &RecordSums,
) -> Result<(), Failure<'a>>
    requires named { AreNamed sums.now }
    requires stamp { IsStamp by.now }
    ensures put { OnOk result ((news : List (Option (List ℕ))) × ArePut K.ways (K.put keeps.old) (K.put keeps.new)
        (rehashing folder.now by.now.tree.now by.now.token.now by.now.moment) sums.now news) }
    ensures failed { IfErr result (StopsAtPut K.ways (K.put keeps.old) (K.put keeps.new)
        (rehashing folder.now by.now.tree.now by.now.token.now by.now.moment) sums.now) }
{
    let mut left = sums.again();
    while let Some((sum, others)) = left.next() {
        put_line(alloc, by, keeps, folder, &sum)?;
        left = others;
    }
    Ok(())
}
