//! The combined results of the tokens of a signer.
ghost use Rattle.std.specs.Prelude.{◌≡◌, ℕ, ◌<◌, ◌++◌, ◌∷◌, [], max, List, Contains, Some, None, true, IfOk};
ghost use Rattle.std.specs.Option.{option_or};
ghost use Rattle.std.specs.Result.{result_ok, result_err};
ghost use Rattle.devices.specs.Device.{Counts};
ghost use Rattle.cms_types.specs.AttributeValue.{AttributeValue};
ghost use Rattle.check_verdict.specs.Passing.{Terms};
ghost use Rattle.check_verdict.specs.Verdicts.{tokens};
ghost use Rattle.check_fit.specs.Fitting.{Fits};
ghost use Rattle.check_verdict.specs.Asks.{IsAskedOf, AsksOnly};
ghost use Rattle.check_verdict.specs.SignerStages.{Tallied, IsEarlier, AreTallied};
ghost use Rattle.check_verdict.specs.Stages.{passed_for_signer};
ghost use Rattle.check_verdict.specs.Checkers.{terms_for};

use crate::checker::Checker;
use crate::filter::SignerFilter;
use crate::signer_stages::signer_stages;
use crate::token::judge_token;
use check_fit::{TokenRefused, TokenRule};
use cms_types::Signer;
use der_time::Moment;
use list_answers::{AskFault, Verifier};

/// What is known of a signer by the tokens of it that were judged.
#[derive(Drop)]
pub(crate) struct Tally {
    /// Whether one of them passes.
    pub is_stamped: bool,
    /// The earliest moment of one that passes at which an entry passes S7 to S9; or, if there is no such moment, where
    /// the entry stops that comes furthest at the moments of those that pass.
    pub signed: Result<Moment, SignerFilter>,
    /// The first rule that one of them fails, of the first that fails one.
    pub first_failed: Option<TokenRule>,
}

// The earlier of two moments, the first of which may be missing.
fn earlier(signed: Result<Moment, SignerFilter>, moment: Moment) -> Moment
    ensures { IsEarlier (result_ok signed) moment result }
{
    match signed {
        Ok(earliest) if earliest < moment => earliest,
        _ => moment,
    }
}

// What is known after one more token, which passes with this moment, by where the entry stops that comes furthest at
// it.
fn passed(tally: Tally, moment: Moment, best: Option<SignerFilter>) -> Tally
    ensures stamped { result.is_stamped ≡ true }
    ensures best { passed_for_signer (result_err result.signed) ≡ max (passed_for_signer (result_err tally.signed))
        (passed_for_signer best) }
    ensures left { passed_for_signer best < 3 → result_ok result.signed ≡ result_ok tally.signed }
    ensures earlier { (passed_for_signer best < 3 → ⊥) → (k : ℕ) × (result_ok result.signed ≡ Some k)
        × IsEarlier (result_ok tally.signed) moment k }
{
    let signed = match (tally.signed, best) {
        (signed, None) => Ok(earlier(signed, moment)),
        (Ok(earliest), Some(_)) => Ok(earliest),
        (Err(filter), Some(other)) => Err(filter.later(other)),
    };
    Tally {
        is_stamped: true,
        signed,
        first_failed: tally.first_failed,
    }
}

// What is known after one more token, which fails this rule first.
fn failed(tally: Tally, rule: TokenRule) -> Tally
    ensures { result ≡ record {
      is_stamped = tally.is_stamped;
      signed = tally.signed;
      first_failed = option_or tally.first_failed (Some rule);
    } }
{
    Tally {
        is_stamped: tally.is_stamped,
        signed: tally.signed,
        first_failed: tally.first_failed.or(Some(rule)),
    }
}

// What is known after one more token.
fn with_token<V: Verifier>(
    tally: Tally,
    token: &[u8],
    signer: &Signer,
    checker: &mut Checker,
    verifier: &mut V,
) -> Result<Tally, AskFault>
    ensures tallied { (t : Terms) → t ≡ terms_for checker.old (V.vouches verifier.old)
        → (attributes : List AttributeValue) → signer.now.signed_attributes ≡ Some attributes
        → (before : List (List ℕ)) → Tallied t signer.now attributes before tally
        → IfOk result (Tallied t signer.now attributes (before ++ token.now ∷ [])) }
    ensures only { (t : Terms) → t ≡ terms_for checker.old (V.vouches verifier.old)
        → (content econtent_type : List ℕ) → Fits t.policy content econtent_type signer.now
        → Contains (tokens signer.now) token.now
        → AsksOnly (λ test. V.asked_only test verifier.old verifier.new)
        (IsAskedOf t content econtent_type signer.now) }
    ensures same { V.vouches verifier.new ≡ V.vouches verifier.old }
    ensures count { Counts result (V.failures verifier.old) (V.failures verifier.new) }
    ensures stays { checker.new ≡ checker.old }
{
    match judge_token(token, signer.signature(), checker, verifier) {
        Ok(accepted) => {
            let moment = accepted.moment;
            let best = signer_stages(signer, &Some(moment), checker, verifier)?;
            Ok(passed(tally, moment, best))
        }
        Err(TokenRefused::Rule(rule)) => Ok(failed(tally, rule)),
        Err(TokenRefused::Device(_)) => Err(AskFault),
    }
}

/// What is known of a signer by all of its tokens.
pub(crate) fn tally_of<V: Verifier>(
    signer: &Signer,
    checker: &mut Checker,
    verifier: &mut V,
) -> Result<Tally, AskFault>
    ensures tallied { AreTallied (terms_for checker.old (V.vouches verifier.old)) signer.now (tokens signer.now)
        result }
    ensures only { (t : Terms) → t ≡ terms_for checker.old (V.vouches verifier.old)
        → (content econtent_type : List ℕ) → Fits t.policy content econtent_type signer.now
        → AsksOnly (λ test. V.asked_only test verifier.old verifier.new)
        (IsAskedOf t content econtent_type signer.now) }
    ensures same { V.vouches verifier.new ≡ V.vouches verifier.old }
    ensures count { Counts result (V.failures verifier.old) (V.failures verifier.new) }
    ensures stays { checker.new ≡ checker.old }
{
    let mut tally = Tally {
        is_stamped: false,
        signed: Err(SignerFilter::UnknownSigner),
        first_failed: None,
    };
    let mut left = signer.tokens();
    while let Some((token, others)) = left.next() {
        tally = with_token(tally, token.whole(), signer, checker, verifier)?;
        left = others;
    }
    Ok(tally)
}
