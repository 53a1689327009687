ghost use Rattle.std.specs.Prelude.{◌≡◌, ℕ, Bool, true, List, Ok};
ghost use Rattle.trust_lists.specs.Asking.{Asked};
ghost use Rattle.check_verdict.specs.Passing.{Due, of_digest, PassesFor};
ghost use Rattle.check_verdict.specs.Asks.{IsAskedFor};
ghost use Rattle.check_verdict.specs.Checkers.{terms_for};
ghost use Rattle.check_verdict.specs.StampsOfSources.{CountsAsked, DigestsSource, JudgesSource};
ghost use Rattle.check_verdict.specs.TokenRules.{IsStatement};
ghost use Rattle.check_verdict.specs.TokenVerdicts.{terms_of, IsVerdictFor, PassesOrDevice, CountsAsks};
ghost use Rattle.check_verdict.specs.TokenVerdicts.{IsAskFailed};

use crate::accepted::Accepted;
use crate::checker::Checker;
use crate::claim::Stamp;
use crate::token::judge_imprint;
use check_fit::{DeviceFault, Policy, TokenRefused, TokenRule, digests_from};
use devices::Source;
use digests::{Alg, Algs, Digest};
use list_answers::Verifier;
use trust_lists::Trust;

/// The verdict of `check_stamp` about a token that was read, by a `Checker`, which serves for many tokens.
///
/// Errors: K8 if the digest is by another algorithm than the imprint, and K9 to K14 as `check_stamp`; X2.
pub fn judge_stamp<V: Verifier>(
    stamp: &Stamp,
    digest: &Digest,
    checker: &mut Checker,
    verifier: &mut V,
) -> Result<Accepted, TokenRefused>
    // Each token that states this, and of which this digest is due, passes with the moment, or fails the rule first.
    ensures judged { let terms = terms_for checker.old (V.vouches verifier.old) in
        (token : List ℕ) (due : Due) → IsStatement checker.old.policy token (Ok stamp.now)
        → due stamp.now.alg ≡ of_digest digest.now stamp.now.alg → IsVerdictFor terms token due result }
    // If it passes, the verdict is its moment, unless the verifier failed.
    ensures complete { let terms = terms_for checker.old (V.vouches verifier.old) in
        (token : List ℕ) (due : Due) → IsStatement checker.old.policy token (Ok stamp.now)
        → due stamp.now.alg ≡ of_digest digest.now stamp.now.alg
        → (m : ℕ) → PassesFor terms token due m → PassesOrDevice m result }
    // The verifier is asked only under entries that passed K10 to K13, and only if K1 to K9 hold.
    ensures only { (token : List ℕ) (due : Due) → IsStatement checker.old.policy token (Ok stamp.now)
        → due stamp.now.alg ≡ of_digest digest.now stamp.now.alg → (test : Asked → Bool)
        → ((q : Asked) → IsAskedFor checker.old.policy checker.old.trust due token q → test q ≡ true)
        → V.asked_only test verifier.old verifier.new }
    // What the verifier vouches for stays the same.
    ensures same { V.vouches verifier.new ≡ V.vouches verifier.old }
    // It failed exactly if the verdict says so.
    ensures count { CountsAsks result (V.failures verifier.old) (V.failures verifier.new) }
    // No other device fails.
    ensures device { IsAskFailed result }
    // What the check goes by stays the same.
    ensures stays { checker.new ≡ checker.old }
{
    if stamp.alg() != digest.alg() {
        return Err(TokenRefused::Rule(TokenRule::ImprintAlgorithm));
    }
    judge_imprint(stamp, digest.bytes(), checker, verifier)
}

/// Whether a time-stamp token, the octets of a ContentInfo, is valid for what has this digest, and when that existed
/// (RFC 3161 2.4.2): its genTime.
///
/// Errors: the first of K1 to K14 that fails: K8 also if the digest is by another algorithm than the imprint; X2 if the
/// verifier fails.
pub fn check_stamp<V: Verifier>(
    token: &[u8],
    digest: &Digest,
    trust: &Trust,
    policy: &Policy,
    verifier: &mut V,
) -> Result<Accepted, TokenRefused>
    // It passes with the moment, or fails the rule first.
    ensures judged { let terms = terms_of policy.now trust.now (V.vouches verifier.old) in
        IsVerdictFor terms token.now (of_digest digest.now) result }
    // If it passes, the verdict is its moment, unless the verifier failed.
    ensures complete { let terms = terms_of policy.now trust.now (V.vouches verifier.old) in
        (m : ℕ) → PassesFor terms token.now (of_digest digest.now) m → PassesOrDevice m result }
    // It is asked only under entries that passed K10 to K13, and only if K1 to K9 hold.
    ensures only { (test : Asked → Bool)
        → ((q : Asked) → IsAskedFor policy.now trust.now (of_digest digest.now) token.now q → test q ≡ true)
        → V.asked_only test verifier.old verifier.new }
    // What the verifier vouches for stays the same.
    ensures same { V.vouches verifier.new ≡ V.vouches verifier.old }
    // It failed exactly if the verdict says so.
    ensures count { CountsAsks result (V.failures verifier.old) (V.failures verifier.new) }
{
    let stamp = match Stamp::read(*policy, token) {
        Ok(stamp) => stamp,
        Err(rule) => return Err(TokenRefused::Rule(rule)),
    };
    let mut checker = Checker::of(trust, *policy);
    judge_stamp(&stamp, digest, &mut checker, verifier)
}

// The digest by one algorithm of what a source gives until its end.
fn digest_from<S: Source>(alg: Alg, source: &mut S) -> Result<Digest, DeviceFault>
    ensures { DigestsSource alg (S.tells source.old) (S.rest source.old) (S.failures source.old) (S.failures source.new)
        result }
{
    let digests = digests_from(Algs::none().with(alg), source)?;
    match digests.of(alg) {
        Some(digest) => Ok(digest),
        None => unreachable!(),
    }
}

/// The verdict about a token that was read, for what a source gives until its end, by a `Checker`, which serves for
/// many tokens.
///
/// Errors: X1 if the source fails, X5 if it gives more than 2^40 octets; otherwise the first of K9 to K14 that fails,
/// and X2 if the verifier fails.
pub fn judge_stamp_of<S: Source, V: Verifier>(
    stamp: &Stamp,
    source: &mut S,
    checker: &mut Checker,
    verifier: &mut V,
) -> Result<Accepted, TokenRefused>
    // Each token that states this passes with the moment for what the source gave, or fails the rule first; the
    // verifier is asked only under entries that passed K10 to K13, and only if K1 to K9 hold.
    ensures judged { let terms = terms_for checker.old (V.vouches verifier.old) in
        (token : List ℕ) → IsStatement checker.old.policy token (Ok stamp.now)
        → JudgesSource terms token (λ test. V.asked_only test verifier.old verifier.new) (S.tells source.old)
        (S.rest source.old) (S.failures source.old) (S.failures source.new) result }
    // The verifier failed exactly if the verdict says so.
    ensures count { CountsAsked result (V.failures verifier.old) (V.failures verifier.new) }
    // What the verifier vouches for stays the same.
    ensures same { V.vouches verifier.new ≡ V.vouches verifier.old }
    // What the check goes by stays the same.
    ensures stays { checker.new ≡ checker.old }
{
    match digest_from(stamp.alg(), source) {
        Ok(digest) => judge_stamp(stamp, &digest, checker, verifier),
        Err(fault) => Err(TokenRefused::Device(fault)),
    }
}
