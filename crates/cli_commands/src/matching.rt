ghost use Rattle.std.specs.Prelude.{◌≡◌, ◌⊎◌, ℕ, List, Some, IfErr, IfOk, OnOk};
ghost use Rattle.std.specs.Borrow.{Bor};
ghost use Rattle.cli_commands.specs.Matching.{ShowsAnswer, IsFailureToTake, IsTokenApart};
ghost use Rattle.cli_commands.specs.Matching.{RefusesToken, ShowsNoAnswer, IsWritten, IsTokenWritten};

use cli_failures::token::token_of;
use cli_failures::{Failure, files};
use cli_tasks::MatchWords;
use std::rt::Files;

/// The line that says that the response in these files answers the request. Its token is then written into the file
/// that should take it, if there is one.
///
/// A token's file that is one of the two is refused. Then the request's file is opened and read, then the response's,
/// before either is judged (decision 104 of `docs/DECISIONS.md`).
#[inline(never)]
pub fn matched<'a, R: Files + AllocGlobal>(
    rt: &R,
    words: &MatchWords<'a>,
) -> Result<Vec<u8>, Failure<'a>>
    ensures answers { IfOk result (λ text. ShowsAnswer R.File.remaining text.items) }
    ensures refused { IfErr result (ShowsNoAnswer R.File.remaining words.now) }
    // A file that was opened took the token, if it is known what such a file holds.
    ensures written { (path : Bor (List ℕ)) → words.now.token ≡ Some path
        → OnOk result (IsTokenWritten R.File.remaining R.File.contents) }
    ensures apart { IfOk result (λ text. IsTokenApart words.now) }
{
    apart(rt, words)?;
    let request = files::read_whole(rt, words.request)?;
    let response = files::read_whole(rt, words.response)?;
    let token = token_of(request.as_slice(), response.as_slice())?;
    let line = String::from_str(rt.alloc(), "answers\n")?;
    take(rt, words.token, token)?;
    Ok(line.into_bytes())
}

/// Refuses a file that should take the token and is the request's or the response's.
fn apart<'a, R: Files + AllocGlobal>(rt: &R, words: &MatchWords<'a>) -> Result<(), Failure<'a>>
    ensures apart { OnOk result (IsTokenApart words.now) }
    ensures refused { IfErr result (λ f. (f ≡ Failure.Memory) ⊎ RefusesToken words.now f) }
{
    match words.token {
        None => Ok(()),
        Some(token) => {
            files::apart(rt, "TOKEN", token, words.request)?;
            files::apart(rt, "TOKEN", token, words.response)
        }
    }
}

/// Writes the octets into the file that should take them, if there is one.
fn take<'a, R: Files + AllocGlobal>(
    rt: &R,
    path: Option<&'a str>,
    octets: &[u8],
) -> Result<(), Failure<'a>>
    ensures refused { IfErr result (IsFailureToTake path.entry) }
    ensures written { (p : Bor (List ℕ)) → path.entry ≡ Some p → OnOk result (IsWritten R.File.contents octets.now) }
{
    match path {
        None => Ok(()),
        Some(path) => files::write_whole(rt, path, octets),
    }
}
