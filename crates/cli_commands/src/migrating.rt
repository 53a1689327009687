ghost use Rattle.std.specs.Prelude.{◌≡◌, ◌≢◌, [], IfErr, IfOk, OnOk};
ghost use Rattle.cli_commands.specs.Migrating.{IsTextOf, IsMigrated, MigratesNot};
ghost use Rattle.cli_failures.specs.declared.failure.Failure.TheVariants.{Memory};

use crate::lists;
use cli_failures::{Failure, files};
use cli_tasks::MigrateWords;
use devices::FromWrite;
use std::alloc::Global;
use std::rt::Files;
use trust_lists::Trust;

/// Reads the trust list, of either version, and then writes it as a text of version 2 into the file that should take
/// it.
///
/// That file is made only if the list is good (decision 113 of `docs/DECISIONS.md`), and is refused if it is the
/// list's.
#[inline(never)]
pub fn migrate<'a, R: Files + AllocGlobal>(
    rt: &R,
    words: &MigrateWords<'a>,
) -> Result<Vec<u8>, Failure<'a>>
    ensures refused { IfErr result (MigratesNot R.File.remaining words.now) }
    ensures quiet { IfOk result (λ text. text.items ≡ []) }
    // A file that was opened took the text, if it is known what such a file holds.
    ensures migrated { OnOk result (IsMigrated R.File.remaining R.File.contents) }
    ensures apart { OnOk result (words.now.out.now ≢ words.now.list.now) }
{
    files::apart(rt, "OUT", words.out, words.list)?;
    let trust = lists::trust_in(rt, words.list)?;
    let text = text_of(rt.alloc(), &trust)?;
    files::write_whole(rt, words.out, text.as_slice())?;
    Ok(Vec::new(rt.alloc()))
}

/// The text of version 2 of a trust list. Writing to a vector fails only if memory is refused.
fn text_of<'a>(alloc: Global, trust: &Trust) -> Result<Vec<u8>, Failure<'a>>
    ensures found { IfOk result (λ text. IsTextOf trust.now text.items) }
    ensures refused { IfErr result (λ f. f ≡ Memory) }
{
    let mut text = FromWrite::new(Vec::new(alloc));
    match trust.write(&mut text) {
        Ok(()) => Ok(text.into_inner()),
        Err(_) => Err(Failure::Memory),
    }
}
