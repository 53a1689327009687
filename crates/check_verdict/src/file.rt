ghost use Rattle.std.specs.Prelude.{◌≡◌, ◌<◌, ℕ, Bool, true, false, List, Contains, [], length, Option, Some, Err};
ghost use Rattle.std.specs.Prelude.{IfSome, IsErr, option_map};
ghost use Rattle.digests.specs.declared.algorithm.Alg.{Alg};
ghost use Rattle.digests.specs.Sets.{is_in};
ghost use Rattle.digests.specs.Selection.{set_given};
ghost use Rattle.cms_types.specs.SignerValue.{SignerValue};
ghost use Rattle.check_fit.specs.Fitting.{WantedBy};
ghost use Rattle.check_verdict.specs.Asks.{IsAskedOf, AsksOnly};
ghost use Rattle.check_fit.specs.FileFitting.{facts_of, HasDigests};
ghost use Rattle.trust_lists.specs.Asking.{Asked};
ghost use Rattle.check_verdict.specs.Passing.{Terms};
ghost use Rattle.check_verdict.specs.Headline.{GivesYes};
ghost use Rattle.check_verdict.specs.Verdicts.{JudgesSigners};
ghost use Rattle.check_verdict.specs.Questions.{IsQuestion, Answers, with_answers};
ghost use Rattle.check_verdict.specs.Checking.{Checks, ChecksAsking, IsUnread, VerdictOrDevice, CountsAsks};
ghost use Rattle.check_verdict.specs.SignerVerdicts.{numbered, IsLater, IsOfSigners};
ghost use Rattle.check_verdict.specs.Checkers.{terms_for};
ghost use Rattle.check_verdict.specs.TokenVerdicts.{terms_of};

use crate::accepted::Accepted;
use crate::checker::Checker;
use crate::signer::{SignerRefused, judge_signer};
use check_fit::{DeviceFault, FileRule, Policy, Refused, open_file};
use cms_types::Signers;
use der_time::Moment;
use devices::Source;
use digests::WantedDigests;
use list_answers::Verifier;
use trust_lists::Trust;

/// Why a file isn't accepted whose signer of this number, from 1, isn't good.
pub(crate) fn numbered(signer: usize, refused: SignerRefused) -> Refused
    ensures { result ≡ numbered signer refused }
{
    match refused {
        SignerRefused::Rule(rule) => Refused::Signer { signer, rule },
        SignerRefused::Token(rule) => Refused::Token {
            signer,
            token: 1,
            rule,
        },
        SignerRefused::Ask => Refused::Device(DeviceFault::AskFailed),
    }
}

// The later of two moments, the first of which may be absent.
fn later(latest: Option<Moment>, moment: Moment) -> Moment
    ensures { IsLater latest moment result }
{
    match latest {
        Some(latest) if moment < latest => latest,
        _ => moment,
    }
}

/// The latest of the moments of these signers of a content of this type, if each of them is good as `check` defines it.
/// The digests are those of the content, by each algorithm that one of the signers names and the policy allows.
///
/// Errors: C3 if there is no signer; X2 if the verifier fails; otherwise the first signer, numbered from 1, that isn't
/// good, with the first of S1 to S10 that it fails, or, if it fails none of these, its token 1 with the first of K1 to
/// K14 that this token fails. S5 also if the digest that a signer needs is missing.
pub fn judge_signers<V: Verifier>(
    digests: &WantedDigests,
    econtent_type: &[u8],
    signers: &Signers,
    checker: &mut Checker,
    verifier: &mut V,
) -> Result<Moment, Refused>
    // C3 if there is no signer.
    ensures none { signers.now ≡ [] → result ≡ Err (Refused.File FileRule.NoSigner) }
    // The moment, or the refusal, of the definition; or X2.
    ensures judged { 0 < length signers.now → (t : Terms) → t ≡ terms_for checker.old (V.vouches verifier.old)
        → (content : List ℕ) → HasDigests checker.old.policy content signers.now digests.now
        → JudgesSigners t content econtent_type.now signers.now result }
    // Of all digests: no, if one that a signer needs is missing.
    ensures lacking { (alg : Alg) → WantedBy checker.old.policy signers.now alg
        → is_in alg (set_given digests.now) ≡ false → IsErr result }
    // And with a signer the verdict is a moment, a rule that one of the signers or its token 1 fails, or X2.
    ensures kind { 0 < length signers.now → IsOfSigners (length signers.now) result }
    // The verifier is asked only about signers that fit the content, and under entries that passed the earlier filters.
    ensures only { (t : Terms) → t ≡ terms_for checker.old (V.vouches verifier.old) → (content : List ℕ)
        → HasDigests checker.old.policy content signers.now digests.now
        → (test : Asked → Bool)
        → ((s : SignerValue) → Contains signers.now s → (q : Asked) → IsAskedOf t content econtent_type.now s q
        → test q ≡ true) → V.asked_only test verifier.old verifier.new }
    // What the verifier vouches for stays the same.
    ensures same { V.vouches verifier.new ≡ V.vouches verifier.old }
    // The verifier failed exactly if the verdict says so.
    ensures count { CountsAsks result (V.failures verifier.old) (V.failures verifier.new) }
    // What the check goes by stays the same.
    ensures stays { checker.new ≡ checker.old }
{
    let mut latest: Option<Moment> = None;
    let mut left = signers.again();
    let count = left.len();
    let mut number = 0;
    while let Some((signer, others)) = left.next() {
        number += 1;
        match judge_signer(digests, econtent_type, &signer, checker, verifier) {
            Ok(moment) => latest = Some(later(latest, moment)),
            Err(refused) => return Err(numbered(number, refused)),
        }
        left = others;
    }
    match latest {
        Some(moment) => Ok(moment),
        None => Err(Refused::File(FileRule::NoSigner)),
    }
}

/// The verdict of `check`, by a `Checker`, which serves for many files.
///
/// Errors: those of `check`.
pub fn judge_file<S: Source, V: Verifier>(
    file: &[u8],
    content: &mut Option<S>,
    checker: &mut Checker,
    verifier: &mut V,
) -> Result<Accepted, Refused>
    // For any source: the verdict is right for what it gave, and it is read only if none of C1 to C5 refuses. The
    // verifier is asked only about signers that fit the content that was judged, under entries that passed the earlier
    // filters.
    ensures asked { let terms = terms_for checker.old (V.vouches verifier.old) in
        ChecksAsking (facts_of S.tells S.rest S.failures) terms (λ test. V.asked_only test verifier.old verifier.new)
        file.now content.old content.new result }
    // It is asked nothing if one of C1 to C5 refuses, or the content could not be read.
    ensures unasked { IsUnread result → (test : Asked → Bool) → V.asked_only test verifier.old verifier.new }
    // It is asked only questions of the file.
    ensures only { AsksOnly (λ test. V.asked_only test verifier.old verifier.new)
        (IsQuestion checker.old.trust file.now) }
    // What the verifier vouches for stays the same.
    ensures same { V.vouches verifier.new ≡ V.vouches verifier.old }
    // The verifier failed exactly if the verdict says so.
    ensures count { CountsAsks result (V.failures verifier.old) (V.failures verifier.new) }
    // What the check goes by stays the same.
    ensures stays { checker.new ≡ checker.old }
{
    let (signed, digests) = open_file(file, content, &checker.policy())?;
    let moment = judge_signers(
        &digests,
        signed.content_type().bytes(),
        signed.signers(),
        checker,
        verifier,
    )?;
    Ok(Accepted { moment })
}

/// Whether each signature of a file existed by a moment, and the moment: that of the latest signer's earliest passing
/// token.
/// The verdict is yes with moment m exactly when the file encodes one SignedData with at least one signer, and for each
/// signer its content-type and message-digest attributes fit the content, the verifier vouches for its attributes' SET
/// under a matching trusted signer certificate, and some token on its signature passes; m is the latest signer's
/// earliest passing genTime (RFC 5652 5.4, 5.6 and 11; RFC 3161 2.4.2 and appendix A). A token's genTime counts for its
/// signer only if one such certificate is valid and trusted at it. The content is in the file, or is handed in as a
/// source, which is read once. Nothing is allocated.
///
/// Errors: the first of C1 to C5 that fails, and then none of the content is read; X1 if the source fails, X5 if the
/// content has more than 2^40 octets, and X2 if the verifier fails; otherwise the first signer, numbered from 1, that
/// isn't good, with the first of S1 to S10 that it fails, or, if it fails none of these, its token 1 with the first of
/// K1 to K14 that this token fails.
pub fn check<S: Source, V: Verifier>(
    file: &[u8],
    content: &mut Option<S>,
    trust: &Trust,
    policy: &Policy,
    verifier: &mut V,
) -> Result<Accepted, Refused>
    // For a content that is known: yes with a moment exactly if the definition says so, unless a device failed or the
    // content is too long.
    ensures headline { let terms = terms_of policy.now trust.now (V.vouches verifier.old) in
        IfSome content.old S.tells → (m : ℕ) → GivesYes terms file.now (option_map S.rest content.old) result m }
    // And if it isn't yes, the refusal of the definition.
    ensures verdict { let terms = terms_of policy.now trust.now (V.vouches verifier.old) in
        IfSome content.old S.tells → VerdictOrDevice terms file.now (option_map S.rest content.old) result }
    // For any source: the verdict is right for what it gave, and it is read only if none of C1 to C5 refuses.
    ensures judged { let terms = terms_of policy.now trust.now (V.vouches verifier.old) in
        Checks (facts_of S.tells S.rest S.failures) terms file.now content.old content.new result }
    // The verdict is right with each list of answers that gives the verifier's answers to the file's questions.
    ensures sufficient { let terms = terms_of policy.now trust.now (V.vouches verifier.old) in
        (answers : Asked → Bool) → Answers terms file.now answers
        → Checks (facts_of S.tells S.rest S.failures) (with_answers terms answers)
        file.now content.old content.new result }
    // The verifier is asked only questions of the file.
    ensures only { AsksOnly (λ test. V.asked_only test verifier.old verifier.new) (IsQuestion trust.now file.now) }
    // And only about signers that fit the content that was judged, and under entries that passed the earlier filters:
    // S7 and S8, or K10 to K13 for a token for which K1 to K9 hold.
    ensures asked { let terms = terms_of policy.now trust.now (V.vouches verifier.old) in
        ChecksAsking (facts_of S.tells S.rest S.failures) terms (λ test. V.asked_only test verifier.old verifier.new)
        file.now content.old content.new result }
    // It is asked nothing if one of C1 to C5 refuses, or the content could not be read.
    ensures unasked { IsUnread result → (test : Asked → Bool) → V.asked_only test verifier.old verifier.new }
    // What the verifier vouches for stays the same.
    ensures same { V.vouches verifier.new ≡ V.vouches verifier.old }
    // The verifier failed exactly if the verdict says so.
    ensures count { CountsAsks result (V.failures verifier.old) (V.failures verifier.new) }
{
    let mut checker = Checker::of(trust, *policy);
    judge_file(file, content, &mut checker, verifier)
}
