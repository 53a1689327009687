//! What the words of a command name: an algorithm, a file of sums, and the file of a token.
ghost use Rattle.std.specs.Prelude.{IfErr, IfOk, option_copied};
ghost use Rattle.cli_making.specs.Given.{AreGiven, GivesNot};

use crate::algorithm::{alg_by, named_by};
use cli_failures::{Failure, files};
use digests::Alg;
use std::rt::Files;

/// The algorithm, and what the files hold.
#[derive(Drop)]
pub struct Given {
    /// The algorithm.
    pub alg: Alg,
    /// The text of sums.
    pub text: Vec<u8>,
    /// The token.
    pub token: Vec<u8>,
}

/// The algorithm of this name, and the octets of the files of these paths. Without a name the algorithm is that of the
/// token's imprint; or SHA-256, if that is none that is known, or line 1 of the sums is none by it. Both files are read
/// before one is judged.
///
/// Errors: no algorithm has the name; a file can't be read.
pub fn given_by<'a, R: Files + AllocGlobal>(
    rt: &R,
    name: Option<&str>,
    sums: &'a str,
    token: &'a str,
) -> Result<Given, Failure<'a>>
    // They are what the words name.
    ensures found { IfOk result (λ g. AreGiven R.File.remaining (option_copied name.entry) g.alg g.text.items
        g.token.items) }
    // The first reason is told.
    ensures refused { IfErr result (GivesNot R.File.remaining (option_copied name.entry) sums.entry token.entry
        (λ _ _ _ _. ⊥)) }
{
    let named = named_by(name)?;
    let text = files::read_whole(rt, sums)?;
    let token = files::read_whole(rt, token)?;
    let alg = alg_by(rt.alloc(), named, text.as_slice(), token.as_slice());
    Ok(Given { alg, text, token })
}
