//! Makes requests for time-stamps; attaches time-stamp tokens; shows what is in the files of time-stamping and signing,
//! and in certificates; reports whether a content and its signed attributes belong together, whether a response answers
//! a request, by when the signatures of a file existed, and whether two signatures sign the same; prints the questions
//! of signed files, and brings trust lists to their newest version. What the words of its command line ask for is in
//! the library `cli_words`, and what each command does in `cli_commands`. Here they are joined.
#![tactic(auto)]

ghost use Rattle.std.specs.Prelude.{◌≡◌};
ghost use Rattle.std.specs.Process.{exit_status};
ghost use Rattle.cli_failures.specs.Statuses.{code_of};

mod run;

use cli_failures::{Failure, Status};
use std::env;
use std::io::BufWriter;
use std::process::ExitCode;

/// The standard output is written in large pieces. Each command flushes it before it ends, and reports it if that
/// fails.
fn main(rt: HostRuntime) -> ExitCode {
    let err = &mut rt.stderr();
    let status = match BufWriter::new(rt.alloc(), rt.stdout()) {
        Ok(mut out) => match env::args(&rt) {
            Ok(args) => match args.collect::<Vec<String>>(rt.alloc()) {
                Ok(words) => run::run(&rt, words.as_slice(), &mut out, err),
                Err(_) => Failure::Memory.report(&mut out, err),
            },
            Err(error) => Failure::of_words(&error).report(&mut out, err),
        },
        Err(_) => Failure::Memory.report_error(err),
    };
    ended(status)
}

/// How the process ends: with the status of a command that ended so.
fn ended(status: Status) -> ExitCode
    ensures { exit_status result ≡ code_of status }
{
    ExitCode::from(status.code())
}
