ghost use Rattle.std.specs.Prelude.{ℕ, Result, MatchResult, IfErr, IfOk};
ghost use Rattle.cms_types.specs.SignedDataValue.{SignedDataValue};
ghost use Rattle.cms_types.specs.declared.fault.CmsFault.{CmsFault};
ghost use Rattle.check_fit.specs.declared.rules.Refused.{Refused};
ghost use Rattle.check_fit.specs.FileFitting.{facts_of, IsReading, FitsFile};
ghost use Rattle.cli_commands.specs.Fit.{ShowsFit, ShowsUnfit, TellsFits, TellsUnfit};

use check_fit::{Policy, fits};
use cli_failures::{Failure, files};
use cli_tasks::FitWords;
use devices::Source;
use std::alloc::Global;
use std::rt::Files;

/// The line that says that the content and the signed attributes of each signer in these files belong together.
///
/// The content's file is opened first, then the other one is opened and read, and the content is read last, in pieces
/// (decision 90 of `docs/DECISIONS.md`).
#[inline(never)]
pub fn fit<'a, R: Files + AllocGlobal>(rt: &R, words: &FitWords<'a>) -> Result<Vec<u8>, Failure<'a>>
    ensures fits { IfOk result (λ text. ShowsFit R.File.remaining words.now text.items) }
    ensures refused { IfErr result (ShowsUnfit R.File.remaining words.now) }
{
    let mut content = files::content_of(rt, words.content)?;
    let octets = files::read_whole(rt, words.file)?;
    let policy = Policy::with_sha1(words.sha1);
    text_of(rt.alloc(), octets.as_slice(), &mut content, &policy)
}

/// The line that says that the content and the signed attributes of each signer belong together.
fn text_of<'a, S: Source>(
    alloc: Global,
    file: &[u8],
    content: &mut Option<S>,
    policy: &Policy,
) -> Result<Vec<u8>, Failure<'a>>
    ensures { (verdict : Result ℕ Refused) × (reading : Result SignedDataValue CmsFault) × IsReading file.now reading
        × FitsFile (facts_of S.tells S.rest S.failures) policy.now reading content.old content.new verdict
        × MatchResult result (λ text. TellsFits verdict text.items) (TellsUnfit verdict) }
{
    match fits(file, content, policy) {
        Ok(count) => Ok(format!(in alloc; "fits {count}\n")?.into_bytes()),
        Err(refused) => Err(Failure::Refused(refused)),
    }
}
