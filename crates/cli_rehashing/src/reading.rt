//! What the lines of a text of sums state: records, each with the digests of its data objects.
ghost use Rattle.std.specs.Prelude.{◌≡◌, ◌⊎◌, Ok, IfErr, IfOk, OnOk};
ghost use Rattle.evidence_sums.specs.Records.{records_of};
ghost use Rattle.cli_rehashing.specs.Lines.{AreLines, AreNamed, IsMisnamed, LacksMemory, RefusesLines, StatesNone};

use cli_failures::Failure;
use cli_making::has_text;
use digests::Alg;
use evidence_sums::{RecordSums, SumsFault, SumsRule};
use std::alloc::Global;

/// What a text of sums by this algorithm states, whatever the names.
#[tactic(auto, using(crate::proofs::Stated::states_none))]
fn stated_in<'a, 't>(alloc: Global, alg: Alg, text: &'t [u8]) -> Result<RecordSums<'t>, Failure<'a>>
    ensures found { IfOk result (λ sums. records_of alg text.now ≡ Ok sums) }
    ensures refused { IfErr result (λ f. LacksMemory alg text.now f ⊎ StatesNone alg text.now f) }
{
    match RecordSums::read(alloc, alg, text) {
        Ok(sums) => Ok(sums),
        Err(fault) => Err(Failure::from(fault)),
    }
}

/// Tests whether the names of all records are text.
///
/// Errors: U5; memory is refused.
fn test_names<'a>(alloc: Global, sums: &RecordSums) -> Result<(), Failure<'a>>
    ensures named { OnOk result (AreNamed sums.now) }
    ensures refused { IfErr result (λ f. (f ≡ Failure.Memory) ⊎ IsMisnamed sums.now f) }
{
    let mut left = sums.again();
    while let Some((sum, others)) = left.next() {
        let first = sum.first();
        if !has_text(alloc, &first)? {
            return Err(Failure::Sums(SumsFault {
                rule: SumsRule::Name,
                line: 0,
            }));
        }
        left = others;
    }
    Ok(())
}

/// What a text of sums by this algorithm states, with names that are text.
///
/// Errors: U1, U2, U5 and U6; memory is refused.
pub fn lines_in<'a, 't>(
    alloc: Global,
    alg: Alg,
    text: &'t [u8],
) -> Result<RecordSums<'t>, Failure<'a>>
    ensures found { IfOk result (AreLines alg text.now) }
    ensures refused { IfErr result (RefusesLines alg text.now) }
{
    let sums = stated_in(alloc, alg, text)?;
    test_names(alloc, &sums)?;
    Ok(sums)
}
