//! By which algorithm the sums of a command are.
ghost use Rattle.std.specs.Prelude.{◌≡◌, ◌↔◌, Some, IfErr, IfOk, IfSome, IsTrue, MatchOption, option_copied};
ghost use Rattle.std.specs.Prelude.{option_map};
ghost use Rattle.digests.specs.Algorithms.{name_of};
ghost use Rattle.cli_making.specs.Algorithm.{FailsAtOnce, ImprintNames, IsByImprint, RefusesName};

use cli_failures::Failure;
use cli_values::alg_of;
use digests::Alg;
use evidence_stamps::TokenState;
use evidence_sums::{Sums, SumsFault, SumsRule};
use std::alloc::Global;

/// The algorithm of a name, if there is a name.
///
/// Errors: no algorithm has the name.
pub fn named_by<'a>(name: Option<&str>) -> Result<Option<Alg>, Failure<'a>>
    // It has the name.
    ensures found { IfOk result (λ found. option_copied name.entry ≡ option_map name_of found) }
    // No algorithm has the name.
    ensures refused { IfErr result (RefusesName (option_copied name.entry)) }
{
    let Some(name) = name else {
        return Ok(None);
    };
    let alg = alg_of(name)?;
    Ok(Some(alg))
}

/// The algorithm that the imprint of a token names (RFC 3161 2.4.2), if it is one that is known.
fn imprint_alg(token: &[u8]) -> Option<Alg>
    ensures found { IfSome result (ImprintNames token.now) }
    ensures only { (alg : Alg) → ImprintNames token.now alg → result ≡ Some alg }
{
    let Some(state) = TokenState::read(token) else {
        return None;
    };
    state.imprint_alg()
}

/// Whether line 1 of a text is no sum by this algorithm.
fn fails_at_once(alloc: Global, alg: Alg, text: &[u8]) -> bool
    ensures { IsTrue result ↔ FailsAtOnce alg text.now }
{
    let (rule, line) = (SumsRule::Line, 1);
    match Sums::read(alloc, alg, text) {
        Ok(_) => false,
        Err(fault) => fault == SumsFault { rule, line },
    }
}

/// The algorithm that the imprint of a token names, if line 1 of the sums is one by it, or else SHA-256.
fn alg_by_imprint(alloc: Global, text: &[u8], token: &[u8]) -> Alg
    ensures { IsByImprint text.now token.now result }
{
    let Some(alg) = imprint_alg(token) else {
        return Alg::Sha256;
    };
    // (so the sums need not be read for it)
    if alg == Alg::Sha256 {
        return alg;
    }
    if fails_at_once(alloc, alg, text) {
        return Alg::Sha256;
    }
    alg
}

/// The algorithm of these sums: the one that is named, or else that of `alg_by_imprint`.
pub fn alg_by(alloc: Global, named: Option<Alg>, text: &[u8], token: &[u8]) -> Alg
    ensures { MatchOption named (IsByImprint text.now token.now result) (λ alg. result ≡ alg) }
{
    match named {
        Some(alg) => alg,
        None => alg_by_imprint(alloc, text, token),
    }
}
