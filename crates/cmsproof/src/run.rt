ghost use Rattle.std.specs.Prelude.{◌≡◌, ◌⊎◌, ℕ, List};
ghost use Rattle.std.specs.Io.KnownBytes.{Appends};
ghost use Rattle.cli_failures.specs.declared.failure.Failure.{Failure};
ghost use Rattle.cli_failures.specs.Failures.{printed_text};
ghost use Rattle.cli_failures.specs.Output.{Begins};
ghost use Rattle.cli_words.specs.declared.meaning.Meaning.{Meaning};
ghost use Rattle.cmsproof.specs.Telling.{IsStoppedBy, IsToldBy, TellsFaults, TellsRefusals};

use cli_commands::Describes;
use cli_failures::{Failure, Status};
use cli_words::{Meaning, meaning_of};
use std::convert::AsStr;
use std::fs;
use std::io::Write;
use std::rt::Files;

/// Does the task that the words ask for, the first of which is the program's name, or prints help, and returns how it
/// ended.
///
/// What was requested goes to `out`; the reason why something was not done goes to `err`. The octets of files are what
/// `rt` gives.
pub fn run<R, S, O, E>(rt: &R, words: &[S], out: &mut O, err: &mut E) -> Status
where
    R: Files + AllocGlobal,
    R::File: Describes,
    S: AsStr,
    O: Write,
    E: Write,
    // Once it is done, what was asked for is on the standard output.
    ensures done { result ≡ Status.Done → (meaning : Meaning) × (text : List ℕ)
        × IsToldBy R.File.remaining R.File.says meaning text × Appends (O.contents out.old) (O.contents out.new) text }
    // If it failed, a beginning of that is, or of the line of a failure that belongs there.
    ensures cut { result ≡ Status.Failed → ((meaning : Meaning)
        × IsStoppedBy R.File.remaining R.File.contents R.File.says meaning (O.contents out.old) (O.contents out.new))
        ⊎ ((f : Failure) × Begins (O.contents out.old) (O.contents out.new) (printed_text f)) }
    // After a fault of the words or of a value nothing is on the standard output; for a fault of a file its line is,
    // and likewise for a file that is refused. Of several files there is a line for each, if one of them is the worst.
    ensures silent { result ≡ Status.Usage → out.new ≡ out.old }
    ensures malformed { result ≡ Status.Malformed
        → TellsFaults R.File.remaining R.File.says (O.contents out.old) (O.contents out.new) }
    ensures refused { result ≡ Status.Refused
        → TellsRefusals R.File.remaining R.File.says (O.contents out.old) (O.contents out.new) }
    ensures quiet { (result ≡ Status.Usage) ⊎ ((result ≡ Status.Failed) ⊎ (err.new ≡ err.old)) }
{
    // An option that is the name of a file too can have been put by a shell in the place of `*`: a file called `--sha1`
    // would choose what is allowed.
    let meaning = match file_as_option(rt, words) {
        Some(word) => Err(Failure::Usage(word)),
        None => meaning_of(rt.alloc(), words),
    };
    match meaning {
        Ok(Meaning::Task(task)) => cli_commands::run(rt, task, out, err),
        Ok(Meaning::Many(many)) => cli_files::run(rt, &many, out, err),
        Ok(Meaning::Evidence(task)) => cli_evidence::run(rt, &task, out, err),
        Ok(Meaning::Help(text)) => cli_commands::print(text.as_str(), out, err),
        Err(failure) => failure.report(out, err),
    }
}

/// What ends the options.
const END: &str = "--";

/// The first word up to `--` that begins with `-` and is the name of a file. If there are two words `--`, the first one
/// was typed.
fn file_as_option<'a, R: Files, S: AsStr>(rt: &R, words: &'a [S]) -> Option<&'a str> {
    let typed = words.iter().filter(|word| word.as_str() == END).count() > 1;
    for word in words {
        let word = word.as_str();
        if word == END && typed {
            return None;
        }
        if word.starts_with('-') && fs::symlink_metadata(rt, word).is_ok() {
            return Some(word);
        }
        if word == END {
            return None;
        }
    }
    None
}
