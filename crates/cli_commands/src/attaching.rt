ghost use Rattle.std.specs.Prelude.{◌≡◌, ◌≢◌, ◌⊎◌, [], IfErr, IfOk, OnOk};
ghost use Rattle.cli_commands.specs.Attaching.{AttachesNot, IsAttached, IsNewFile, TellsNotAttached};
ghost use Rattle.cli_commands.specs.Attaching.{LacksMemoryToAttach, failure_of_attaching};

use cli_failures::{Failure, files};
use cli_tasks::AttachWords;
use cms_types::CmsFault;
use devices::FromWrite;
use std::alloc::Global;
use std::rt::Files;
use tsp_requester::AttachFault;

/// Attaches the token to the signer of the file that these words name, and then writes the file with it.
///
/// The token's file is opened and read first, then the other one, before either is judged. The new file is made only if
/// the token can be attached (decision 125 of `docs/DECISIONS.md`). It may replace the file, but not the token's.
#[inline(never)]
pub fn attach<'a, R: Files + AllocGlobal>(
    rt: &R,
    words: &AttachWords<'a>,
) -> Result<Vec<u8>, Failure<'a>>
    ensures refused { IfErr result (AttachesNot R.File.remaining words.now) }
    ensures quiet { IfOk result (λ text. text.items ≡ []) }
    // A file that was opened took the octets of the new file, if it is known what such a file holds.
    ensures attached { OnOk result (IsAttached R.File.remaining R.File.contents words.now.signer) }
    ensures apart { OnOk result (words.now.out.now ≢ words.now.token.now) }
{
    files::apart(rt, "OUT", words.out, words.token)?;
    let token = files::read_whole(rt, words.token)?;
    let file = files::read_whole(rt, words.file)?;
    let octets = attached(rt.alloc(), file.as_slice(), words.signer, token.as_slice())?;
    files::write_whole(rt, words.out, octets.as_slice())?;
    Ok(Vec::new(rt.alloc()))
}

/// The octets of the file with the token attached. Writing to a vector fails only if memory is refused.
#[tactic(auto, using(crate::proofs::Attached::told))]
fn attached<'a>(
    alloc: Global,
    file: &[u8],
    signer: u64,
    token: &[u8],
) -> Result<Vec<u8>, Failure<'a>>
    ensures found { IfOk result (λ octets. IsNewFile file.now signer token.now octets.items) }
    ensures refused { IfErr result (λ f. LacksMemoryToAttach file.now signer token.now f
        ⊎ TellsNotAttached file.now signer token.now f) }
{
    let mut octets = FromWrite::new(Vec::new(alloc));
    match tsp_requester::attach(file, signer, token, &mut octets) {
        Ok(()) => Ok(octets.into_inner()),
        Err(fault) => Err(failure_of(fault)),
    }
}

/// Why the token was not attached.
fn failure_of<'a>(fault: AttachFault) -> Failure<'a>
    ensures { result ≡ failure_of_attaching fault }
{
    match fault {
        AttachFault::WriteFailed => Failure::Memory,
        AttachFault::Malformed(CmsFault::Malformed(fault)) => Failure::Malformed(fault),
        _ => Failure::Unattached(fault),
    }
}
