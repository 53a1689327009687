ghost use Rattle.std.specs.Prelude.{◌≡◌, ℕ, Bool, true, List, Some, Ok};
ghost use Rattle.trust_lists.specs.Asking.{Asked};
ghost use Rattle.check_verdict.specs.Passing.{Due, Passes};
ghost use Rattle.check_verdict.specs.Asks.{IsAskedFor, IsAskedOfToken};
ghost use Rattle.check_verdict.specs.Checkers.{terms_for};
ghost use Rattle.check_verdict.specs.TokenRules.{IsStatement};
ghost use Rattle.check_verdict.specs.TokenVerdicts.{terms_of, IsTokenVerdict, IsVerdictFor, PassesOrDevice, CountsAsks};
ghost use Rattle.check_verdict.specs.TokenVerdicts.{IsAskFailed};

use crate::accepted::Accepted;
use crate::checker::Checker;
use crate::claim::Stamp;
use crate::token_stages::token_stages;
use check_fit::{DeviceFault, Policy, TokenRefused, TokenRule};
use der_core::octets::is_same;
use digests::digest;
use list_answers::Verifier;
use trust_lists::Trust;

/// The verdict of a token that states this, whose imprint must have these octets: K9 to K14.
pub(crate) fn judge_imprint<V: Verifier>(
    stamp: &Stamp,
    imprint: &[u8],
    checker: &mut Checker,
    verifier: &mut V,
) -> Result<Accepted, TokenRefused>
    ensures judged { let terms = terms_for checker.old (V.vouches verifier.old) in
        (token : List ℕ) (due : Due) → IsStatement checker.old.policy token (Ok stamp.now)
        → due stamp.now.alg ≡ Some imprint.now → IsVerdictFor terms token due result }
    ensures only { (token : List ℕ) (due : Due) → IsStatement checker.old.policy token (Ok stamp.now)
        → due stamp.now.alg ≡ Some imprint.now → (test : Asked → Bool)
        → ((q : Asked) → IsAskedFor checker.old.policy checker.old.trust due token q → test q ≡ true)
        → V.asked_only test verifier.old verifier.new }
    ensures same { V.vouches verifier.new ≡ V.vouches verifier.old }
    ensures count { CountsAsks result (V.failures verifier.old) (V.failures verifier.new) }
    ensures device { IsAskFailed result }
    ensures stays { checker.new ≡ checker.old }
{
    if !is_same(stamp.imprint, imprint) {
        return Err(TokenRefused::Rule(TokenRule::ImprintDiffers));
    }
    let Ok(best) = token_stages(&stamp.claim, checker, verifier) else {
        return Err(TokenRefused::Device(DeviceFault::AskFailed));
    };
    match best {
        Some(failed) => Err(TokenRefused::Rule(failed.rule())),
        None => Ok(Accepted {
            moment: stamp.claim.moment,
        }),
    }
}

/// The verdict of `check_token`, by a `Checker`, which serves for many tokens.
///
/// Errors: those of `check_token`.
pub fn judge_token<V: Verifier>(
    token: &[u8],
    stamped: &[u8],
    checker: &mut Checker,
    verifier: &mut V,
) -> Result<Accepted, TokenRefused>
    // It passes with the moment, or fails the rule first.
    ensures judged { let terms = terms_for checker.old (V.vouches verifier.old) in
        IsTokenVerdict terms token.now stamped.now result }
    // If it passes, the verdict is its moment, unless the verifier failed.
    ensures complete { let terms = terms_for checker.old (V.vouches verifier.old) in
        (m : ℕ) → Passes terms token.now stamped.now m → PassesOrDevice m result }
    // The verifier is asked only under entries that passed K10 to K13, and only if K1 to K9 hold.
    ensures only { (test : Asked → Bool) → ((q : Asked) → IsAskedOfToken checker.old.policy checker.old.trust
        stamped.now token.now q → test q ≡ true) → V.asked_only test verifier.old verifier.new }
    // What the verifier vouches for stays the same.
    ensures same { V.vouches verifier.new ≡ V.vouches verifier.old }
    // It failed exactly if the verdict says so.
    ensures count { CountsAsks result (V.failures verifier.old) (V.failures verifier.new) }
    // What the check goes by stays the same.
    ensures stays { checker.new ≡ checker.old }
{
    let stamp = match Stamp::read(checker.policy(), token) {
        Ok(stamp) => stamp,
        Err(rule) => return Err(TokenRefused::Rule(rule)),
    };
    let digest = digest(stamp.alg(), stamped);
    judge_imprint(&stamp, digest.bytes(), checker, verifier)
}

/// Whether a time-stamp token, the octets of a ContentInfo, is valid for octets that were stamped, and when these
/// existed (RFC 3161 2.4.2): its genTime.
///
/// Errors: the first of K1 to K14 that fails; X2 if the verifier fails.
pub fn check_token<V: Verifier>(
    token: &[u8],
    stamped: &[u8],
    trust: &Trust,
    policy: &Policy,
    verifier: &mut V,
) -> Result<Accepted, TokenRefused>
    // It passes with the moment, or fails the rule first.
    ensures judged { let terms = terms_of policy.now trust.now (V.vouches verifier.old) in
        IsTokenVerdict terms token.now stamped.now result }
    // If it passes, the verdict is its moment, unless the verifier failed.
    ensures complete { let terms = terms_of policy.now trust.now (V.vouches verifier.old) in
        (m : ℕ) → Passes terms token.now stamped.now m → PassesOrDevice m result }
    // It is asked only under entries that passed K10 to K13, and only if K1 to K9 hold.
    ensures only { (test : Asked → Bool) → ((q : Asked) → IsAskedOfToken policy.now trust.now stamped.now token.now q
        → test q ≡ true) → V.asked_only test verifier.old verifier.new }
    // What the verifier vouches for stays the same.
    ensures same { V.vouches verifier.new ≡ V.vouches verifier.old }
    // It failed exactly if the verdict says so.
    ensures count { CountsAsks result (V.failures verifier.old) (V.failures verifier.new) }
{
    let mut checker = Checker::of(trust, *policy);
    judge_token(token, stamped, &mut checker, verifier)
}
