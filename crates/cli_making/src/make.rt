//! `evidence make`: the evidence records of many files, by the stamp of the root of the tree over their digests
//! (RFC 4998 4.2).
ghost use Rattle.std.specs.Prelude.{◌≡◌, [], IfErr, IfOk, OnOk};
ghost use Rattle.cli_making.specs.Adding.{Adds};
ghost use Rattle.cli_making.specs.Leaves.{AreReady};
ghost use Rattle.cli_making.specs.Making.{AreMade, ArePut, AreRecordsWritten, EachFile};
ghost use Rattle.cli_making.specs.Stamps.{IsStamp};
ghost use Rattle.cli_making.specs.Unmade.{FailsAt, IsUnmade, IsUntested, MakesNoRecords, StopsAt};

use crate::given::given_by;
use crate::lines::{test_line, write_line};
use crate::placing::Puts;
use crate::stamp::{Stamp, stamp_of};
use crate::sums::{sums_in, tree_over};
use crate::system::System;
use cli_failures::Failure;
use cli_tasks::MakeWords;
use digests::Alg;
use evidence_sums::Sums;
use std::alloc::Global;
use std::rt::Files;

/// Makes the record of each line of the sums that a file states, by the token that another file holds, and puts it
/// below a folder, as `FOLDER/NAME.ers`: `make_all` over the files of the system.
///
/// Both files are read before one is judged.
///
/// Errors: no algorithm has the name; a file can't be read; and those of `make_all`.
#[inline(never)]
pub fn make_records<'a, R: Files + AllocGlobal>(
    rt: &R,
    words: &MakeWords<'a>,
) -> Result<Vec<u8>, Failure<'a>>
    // Why not all records were made.
    ensures failed { IfErr result (MakesNoRecords R.File.remaining words.now) }
    // Nothing is printed.
    ensures quiet { IfOk result (λ text. text.items ≡ []) }
    // Of each line the octets of the record are in a file that was opened, if it is known what such a file holds.
    ensures made { OnOk result (AreRecordsWritten R.File.remaining R.File.contents words.now) }
{
    let given = given_by(rt, words.alg, words.sums, words.token)?;
    let (text, token) = (given.text.as_slice(), given.token.as_slice());
    let mut puts = System::new(rt);
    make_all(rt.alloc(), &mut puts, words.into, given.alg, text, token)?;
    Ok(Vec::new(rt.alloc()))
}

/// Makes the record of each line of a text of sums by this algorithm, by a token over the root of the tree over their
/// digests, and puts it below a folder, by the line's name.
///
/// Before the first record is put, all are made and tested. Then each is made again, and put in turn.
///
/// Errors: U1, U2, U5 and U6 of the sums; U7 and U8 of the token; U10; a record can't be put below the folder; memory
/// is refused. Nothing is put if the sums or the token are refused, or a test fails.
pub fn make_all<'a, P: Puts>(
    alloc: Global,
    puts: &mut P,
    folder: &str,
    alg: Alg,
    text: &[u8],
    token: &[u8],
) -> Result<(), Failure<'a>>
    // The records of all lines were put, each by its line's name, in their order, and no other files.
    ensures made { OnOk result (AreMade P.ways P.did (P.put puts.old) (P.put puts.new) folder.now alg text.now
        token.now) }
    // After a failure nothing was put; or a test found that all can be put, no rule refuses, and the first were.
    ensures failed { IfErr result (IsUnmade P.ways (P.put puts.old) (P.put puts.new) folder.now alg text.now
        token.now) }
{
    let sums = sums_in(alloc, alg, text)?;
    let tree = tree_over(alloc, alg, &sums)?;
    let by = stamp_of(&tree, token)?;
    test_records(alloc, &by, puts, folder, &sums)?;
    write_records(alloc, &by, puts, folder, &sums)
}

/// Makes the record of each line, and tests whether it can be put below a folder.
fn test_records<'a, P: Puts>(
    alloc: Global,
    by: &Stamp,
    puts: &P,
    folder: &str,
    sums: &Sums,
) -> Result<(), Failure<'a>>
    requires lines { AreReady by.now.tree.now sums.now }
    requires stamp { IsStamp by.now }
    ensures tested { OnOk result (EachFile P.ways.can folder.now by.now.tree.now by.now.token.now sums.now) }
    ensures failed { IfErr result (IsUntested P.ways folder.now by.now.tree.now by.now.token.now sums.now) }
{
    let mut left = sums.again();
    while let Some((sum, others)) = left.next() {
        test_line(alloc, by, puts, folder, &sum)?;
        left = others;
    }
    Ok(())
}

/// Makes the record of each line in turn, and puts it below a folder.
fn write_records<'a, P: Puts>(
    alloc: Global,
    by: &Stamp,
    puts: &mut P,
    folder: &str,
    sums: &Sums,
) -> Result<(), Failure<'a>>
    requires lines { AreReady by.now.tree.now sums.now }
    requires stamp { IsStamp by.now }
    ensures written { OnOk result (ArePut P.did (P.put puts.old) (P.put puts.new) folder.now by.now.tree.now
        by.now.token.now sums.now) }
    ensures failed { IfErr result (λ f. (stop : StopsAt
        (λ s g. FailsAt P.ways folder.now by.now.tree.now by.now.token.now s g) folder.now by.now.tree.now
        by.now.token.now sums.now f) × Adds (P.put puts.old) (P.put puts.new) stop.files) }
{
    let mut left = sums.again();
    while let Some((sum, others)) = left.next() {
        write_line(alloc, by, puts, folder, &sum)?;
        left = others;
    }
    Ok(())
}
