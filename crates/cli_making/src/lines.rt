//! The record of a line: made, tested, and put below a folder.
ghost use Rattle.std.specs.Prelude.{◌≡◌, ◌∷◌, ℕ, List, [], Err, IfErr, IfOk, OnErr, OnOk, IsUtf8};
ghost use Rattle.evidence_types.specs.StampValue.{IsSequence};
ghost use Rattle.evidence_making.specs.declared.fault.MakeFault.TheVariants.{TooLong};
ghost use Rattle.cli_making.specs.Adding.{Adds};
ghost use Rattle.cli_making.specs.Leaves.{IsLeaf, IsReady};
ghost use Rattle.cli_making.specs.Making.{IsFileOf, IsRecordOf};
ghost use Rattle.cli_making.specs.Placing.{Placed, placed};
ghost use Rattle.cli_making.specs.Stamps.{IsStamp};
ghost use Rattle.cli_making.specs.Unmade.{FailsAt, IsNotMade, IsTooLong};

use crate::names::text_of;
use crate::placing::Puts;
use crate::stamp::Stamp;
use cli_failures::Failure;
use evidence_making::{MakeFault as MakeRecordFault, make_record};
use evidence_sums::Sum;
use std::alloc::Global;

/// The octets of the record of a line.
///
/// Errors: U10; memory is refused.
fn record_of(alloc: Global, by: &Stamp, sum: &Sum) -> Result<Vec<u8>, MakeRecordFault>
    requires leaf { IsLeaf by.now.tree.now sum.now }
    requires token { IsSequence by.now.token.now }
    ensures made { IfOk result (λ octets. IsRecordOf by.now.tree.now by.now.token.now sum.now.digest octets.items) }
    ensures too_long { result ≡ Err TooLong → IsTooLong by.now.tree.now by.now.token.now sum.now.digest }
{
    let digest = sum.digest(alloc)?;
    let Some(values) = by.tree.lists_of(&digest) else {
        unreachable!();
    };
    make_record(alloc, digest.alg(), &values, by.token)
}

/// A file to be put below a folder.
#[derive(Drop)]
struct File {
    name: Vec<u8>,
    octets: Vec<u8>,
}

/// The file of a line: its name, and the record.
///
/// Errors: U10; memory is refused.
fn file_of<'a>(alloc: Global, by: &Stamp, sum: &Sum) -> Result<File, Failure<'a>>
    requires line { IsReady by.now.tree.now sum.now }
    requires stamp { IsStamp by.now }
    ensures named { IfOk result (λ file. IsUtf8 file.name.items) }
    ensures made { IfOk result (λ file. (folder : List ℕ) → IsFileOf folder by.now.tree.now by.now.token.now sum.now
        (placed folder file.name.items file.octets.items)) }
    ensures fails { IfErr result (IsNotMade by.now.tree.now by.now.token.now sum.now) }
{
    let octets = record_of(alloc, by, sum)?;
    let name = sum.name(alloc)?;
    Ok(File { name, octets })
}

/// Makes the record of a line, and tests whether it can be put below a folder by the line's name.
///
/// Errors: U10; it can't be put there; memory is refused.
pub fn test_line<'a, P: Puts>(
    alloc: Global,
    by: &Stamp,
    puts: &P,
    folder: &str,
    sum: &Sum,
) -> Result<(), Failure<'a>>
    requires line { IsReady by.now.tree.now sum.now }
    requires stamp { IsStamp by.now }
    ensures can { OnOk result ((p : Placed) × IsFileOf folder.now by.now.tree.now by.now.token.now sum.now p
        × P.ways.can p) }
    ensures fails { IfErr result (FailsAt P.ways folder.now by.now.tree.now by.now.token.now sum.now) }
{
    let file = file_of(alloc, by, sum)?;
    let name = text_of(file.name.as_slice());
    puts.test_file(folder, name, file.octets.as_slice())
}

/// Makes the record of a line, and puts it below a folder by the line's name.
///
/// Errors: U10; it can't be put there; memory is refused. Then none was put.
pub fn write_line<'a, P: Puts>(
    alloc: Global,
    by: &Stamp,
    puts: &mut P,
    folder: &str,
    sum: &Sum,
) -> Result<(), Failure<'a>>
    requires line { IsReady by.now.tree.now sum.now }
    requires stamp { IsStamp by.now }
    ensures put { OnOk result ((p : Placed) × IsFileOf folder.now by.now.tree.now by.now.token.now sum.now p × P.did p
        × Adds (P.put puts.old) (P.put puts.new) (p ∷ [])) }
    ensures fails { IfErr result (FailsAt P.ways folder.now by.now.tree.now by.now.token.now sum.now) }
    ensures none { OnErr result (Adds (P.put puts.old) (P.put puts.new) []) }
{
    let file = file_of(alloc, by, sum)?;
    let name = text_of(file.name.as_slice());
    puts.put_file(folder, name, file.octets.as_slice())
}
