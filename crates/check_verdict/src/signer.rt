//! Whether a signer is good: S1 to S10, and the tokens.
ghost use Rattle.std.specs.Prelude.{◌≡◌, ℕ, List, true, false, Err, IsErr};
ghost use Rattle.digests.specs.declared.algorithm.Alg.{Alg};
ghost use Rattle.digests.specs.Sets.{is_in};
ghost use Rattle.digests.specs.Selection.{AreOfWanted, set_given};
ghost use Rattle.check_verdict.specs.Asks.{IsAskedOf, AsksOnly};
ghost use Rattle.check_fit.specs.Fitting.{Fits, Wants};
ghost use Rattle.check_verdict.specs.Passing.{Terms};
ghost use Rattle.check_verdict.specs.Verdicts.{IsStamped, tokens};
ghost use Rattle.check_verdict.specs.SignerStages.{FailedBy};
ghost use Rattle.check_verdict.specs.SignerVerdicts.{JudgesSigner, CountsSigner};
ghost use Rattle.check_verdict.specs.Checkers.{terms_for};

use crate::checker::Checker;
use crate::signer_stages::signer_stages;
use crate::tally::tally_of;
use check_fit::{SignerRule, TokenRule, fits_by_digests};
use cms_types::Signer;
use der_time::Moment;
use digests::WantedDigests;
use list_answers::Verifier;

/// Why a signer isn't good.
#[derive(Drop)]
pub(crate) enum SignerRefused {
    /// The first of S1 to S10 that it fails.
    Rule(SignerRule),
    /// None of its tokens passes, and its first fails this rule first.
    Token(TokenRule),
    /// The verifier failed.
    Ask,
}

// Why a signer that fits the content isn't good, if none of its tokens passes.
fn unstamped<V: Verifier>(
    first_failed: Option<TokenRule>,
    signer: &Signer,
    checker: &mut Checker,
    verifier: &mut V,
) -> SignerRefused
    ensures judged { (t : Terms) → t.trust ≡ checker.old.trust → t.vouches ≡ V.vouches verifier.old
        → (content econtent_type : List ℕ) → Fits t.policy content econtent_type signer.now
        → FailedBy t signer.now (tokens signer.now) first_failed
        → JudgesSigner t content econtent_type signer.now (Err result) }
    ensures only { (t : Terms) → t.trust ≡ checker.old.trust → ((m : ℕ) → IsStamped t signer.now m → ⊥)
        → (content econtent_type : List ℕ) → Fits t.policy content econtent_type signer.now
        → AsksOnly (λ test. V.asked_only test verifier.old verifier.new)
        (IsAskedOf t content econtent_type signer.now) }
    ensures same { V.vouches verifier.new ≡ V.vouches verifier.old }
    ensures count { CountsSigner (Err result) (V.failures verifier.old) (V.failures verifier.new) }
    ensures stays { checker.new ≡ checker.old }
{
    let Ok(best) = signer_stages(signer, &None, checker, verifier) else {
        return SignerRefused::Ask;
    };
    if let Some(failed) = best {
        return SignerRefused::Rule(failed.rule());
    }
    match first_failed {
        Some(rule) => SignerRefused::Token(rule),
        None => SignerRefused::Rule(SignerRule::NoToken),
    }
}

/// The moment of a signer of a content of this type, with these digests, or why the signer isn't good.
pub(crate) fn judge_signer<V: Verifier>(
    digests: &WantedDigests,
    econtent_type: &[u8],
    signer: &Signer,
    checker: &mut Checker,
    verifier: &mut V,
) -> Result<Moment, SignerRefused>
    ensures judged { (t : Terms) → t ≡ terms_for checker.old (V.vouches verifier.old) → (content : List ℕ)
        → AreOfWanted digests.now content
        → ((alg : Alg) → Wants checker.old.policy signer.now alg → is_in alg (set_given digests.now) ≡ true)
        → JudgesSigner t content econtent_type.now signer.now result }
    ensures only { (t : Terms) → t ≡ terms_for checker.old (V.vouches verifier.old) → (content : List ℕ)
        → AreOfWanted digests.now content
        → ((alg : Alg) → Wants checker.old.policy signer.now alg → is_in alg (set_given digests.now) ≡ true)
        → AsksOnly (λ test. V.asked_only test verifier.old verifier.new)
        (IsAskedOf t content econtent_type.now signer.now) }
    ensures lacking { (alg : Alg) → Wants checker.old.policy signer.now alg
        → is_in alg (set_given digests.now) ≡ false → IsErr result }
    ensures same { V.vouches verifier.new ≡ V.vouches verifier.old }
    ensures count { CountsSigner result (V.failures verifier.old) (V.failures verifier.new) }
    ensures stays { checker.new ≡ checker.old }
{
    if let Err(rule) = fits_by_digests(checker.policy(), digests, econtent_type, signer) {
        return Err(SignerRefused::Rule(rule));
    }
    let Ok(tally) = tally_of(signer, checker, verifier) else {
        return Err(SignerRefused::Ask);
    };
    if !tally.is_stamped {
        return Err(unstamped(tally.first_failed, signer, checker, verifier));
    }
    match tally.signed {
        Ok(moment) => Ok(moment),
        Err(failed) => Err(SignerRefused::Rule(failed.rule())),
    }
}
