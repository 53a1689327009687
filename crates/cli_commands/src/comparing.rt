ghost use Rattle.std.specs.Prelude.{◌⊎◌, IfErr, IfOk};
ghost use Rattle.cli_commands.specs.Comparing.{IsSameLine, LacksMemoryToTell, ShowsSame, ShowsUnlike, TellsUnlike};

use cli_failures::{Failure, files};
use cli_tasks::CompareWords;
use cms_compare::Compared;
use std::alloc::Global;
use std::rt::Files;

/// The line that says that the two signatures that these words name sign the same.
///
/// The first file is opened and read, then the second, before either is judged.
#[inline(never)]
pub fn compare<'a, R: Files + AllocGlobal>(
    rt: &R,
    words: &CompareWords<'a>,
) -> Result<Vec<u8>, Failure<'a>>
    ensures same { IfOk result (λ text. ShowsSame R.File.remaining words.now text.items) }
    ensures unlike { IfErr result (ShowsUnlike R.File.remaining words.now) }
{
    let first = files::read_whole(rt, words.first_file)?;
    let second = files::read_whole(rt, words.second_file)?;
    text_of(
        rt.alloc(),
        first.as_slice(),
        words.first_signer,
        second.as_slice(),
        words.second_signer,
    )
}

/// The same for the octets of two files, and the numbers of their signers.
fn text_of<'a>(
    alloc: Global,
    first: &[u8],
    first_signer: u64,
    second: &[u8],
    second_signer: u64,
) -> Result<Vec<u8>, Failure<'a>>
    ensures same { IfOk result (λ t. IsSameLine first.now first_signer second.now second_signer t.items) }
    ensures unlike { IfErr result (λ f. LacksMemoryToTell first.now first_signer second.now second_signer f
        ⊎ TellsUnlike first.now first_signer second.now second_signer f) }
{
    match cms_compare::compare(first, first_signer, second, second_signer) {
        Ok(Compared::Same) => Ok(String::from_str(alloc, "same\n")?.into_bytes()),
        Ok(Compared::Different) => Err(Failure::Different),
        Ok(Compared::Collision) => Err(Failure::Collision),
        Err(fault) => Err(Failure::Uncompared(fault)),
    }
}
