//! The names of lines as text, of which a path is.
ghost use Rattle.std.specs.Prelude.{◌≡◌, ◌<◌, ◌^◌, ◌⊎◌, IfErr, IfOk, OnOk, IsUtf8, length};
ghost use Rattle.std.specs.Str.{is_utf8};
ghost use Rattle.cli_making.specs.Sums.{AreNamed, IsMisnamed};

use cli_failures::Failure;
use evidence_sums::{Sum, Sums, SumsFault, SumsRule};
use std::alloc::{AllocError, Global};
use std::str;

/// Whether octets are text.
#[tactic(auto, using(crate::proofs::Texts::is_text, crate::proofs::Texts::is_no_text))]
fn is_text(octets: &[u8]) -> bool
    ensures { result ≡ is_utf8 octets.now }
{
    match str::from_utf8(octets) {
        Ok(_) => true,
        Err(_) => false,
    }
}

/// The text of octets.
pub fn text_of(octets: &[u8]) -> &str
    requires { IsUtf8 octets.now }
    ensures { result.now ≡ octets.now }
{
    let Ok(text) = str::from_utf8(octets) else {
        unreachable!();
    };
    text
}

/// Whether the name of a line is text.
///
/// Errors: memory is refused.
pub fn has_text(alloc: Global, sum: &Sum) -> Result<bool, AllocError>
    ensures { IfOk result (λ has. has ≡ is_utf8 sum.now.name) }
{
    if let Some(name) = sum.plain_name() {
        return Ok(is_text(name));
    }
    let name = sum.name(alloc)?;
    Ok(is_text(name.as_slice()))
}

/// Tests whether the names of all lines are text.
///
/// Errors: U5 with the first line whose name is none; memory is refused.
pub fn test_names<'a>(alloc: Global, sums: &Sums) -> Result<(), Failure<'a>>
    requires { length sums.now < 2 ^ 63 }
    ensures named { OnOk result (AreNamed sums.now) }
    ensures refused { IfErr result (λ f. (f ≡ Failure.Memory) ⊎ IsMisnamed sums.now f) }
{
    let mut line = 1;
    let mut left = sums.again();
    while let Some((sum, others)) = left.next() {
        if !has_text(alloc, &sum)? {
            let rule = SumsRule::Name;
            return Err(Failure::Sums(SumsFault { rule, line }));
        }
        line += 1;
        left = others;
    }
    Ok(())
}
