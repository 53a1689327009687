ghost use Rattle.std.specs.Prelude.{◌≡◌, ℕ, Bool, IfSome, option_map};
ghost use Rattle.trust_lists.specs.Asking.{Asked};
ghost use Rattle.check_verdict.specs.Asks.{AsksOnly};
ghost use Rattle.check_verdict.specs.Headline.{GivesExactly};
ghost use Rattle.check_verdict.specs.Questions.{IsQuestion, Answers, with_answers};
ghost use Rattle.check_verdict.specs.Checking.{IsUnread, CountsAsks};
ghost use Rattle.check_verdict.specs.OneSigner.{SignerYes, ChecksSigner, ChecksSignerAsking, SignerVerdictOrDevice};
ghost use Rattle.check_verdict.specs.Checkers.{terms_for};
ghost use Rattle.check_verdict.specs.TokenVerdicts.{terms_of};
ghost use Rattle.check_fit.specs.FileFitting.{facts_of};

use crate::accepted::Accepted;
use crate::checker::Checker;
use crate::file::numbered;
use crate::signer::judge_signer;
use check_fit::{FileRule, Policy, Refused, hash_content, read_file, wanted_of};
use devices::Source;
use list_answers::Verifier;
use trust_lists::Trust;

// The verdict of `check_signer`, by what the file's octets are read as.
fn judge_alone<S: Source, V: Verifier>(
    file: &[u8],
    content: &mut Option<S>,
    checker: &mut Checker,
    verifier: &mut V,
    number: u64,
) -> Result<Accepted, Refused>
    ensures asked { let terms = terms_for checker.old (V.vouches verifier.old) in
        ChecksSignerAsking (facts_of S.tells S.rest S.failures) terms
        (λ test. V.asked_only test verifier.old verifier.new) number file.now content.old content.new result }
    ensures unasked { IsUnread result → (test : Asked → Bool) → V.asked_only test verifier.old verifier.new }
    ensures only { AsksOnly (λ test. V.asked_only test verifier.old verifier.new)
        (IsQuestion checker.old.trust file.now) }
    ensures same { V.vouches verifier.new ≡ V.vouches verifier.old }
    ensures count { CountsAsks result (V.failures verifier.old) (V.failures verifier.new) }
{
    let signed = read_file(file, content.is_some())?;
    let Some(signer) = signed.signers().get(number) else {
        return Err(Refused::File(FileRule::NoSuchSigner));
    };
    let digests = hash_content(&signed, content, wanted_of(checker.policy(), &signer))?;
    match judge_signer(
        &digests,
        signed.content_type().bytes(),
        &signer,
        checker,
        verifier,
    ) {
        Ok(moment) => Ok(Accepted { moment }),
        Err(refused) => Err(numbered(number as usize, refused)),
    }
}

/// Whether the signature of one signer of a file existed by a moment, and the moment: that of its earliest passing
/// token. The verdict is that of `check` for the signer of this number alone, counted from 1: no other signer is
/// judged, and the content is hashed for this one only.
///
/// Errors: the first of C1 to C5 that fails, or otherwise C6 if no signer has this number, and in either case none of
/// the content is read; X1 if the source fails, X5 if the content has more than 2^40 octets, and X2 if the verifier
/// fails; otherwise the first of S1 to S10 that the signer fails, or, if it fails none of these, its token 1 with the
/// first of K1 to K14 that this token fails. The refusal gives the signer's own number.
pub fn check_signer<S: Source, V: Verifier>(
    file: &[u8],
    content: &mut Option<S>,
    trust: &Trust,
    policy: &Policy,
    verifier: &mut V,
    number: u64,
) -> Result<Accepted, Refused>
    // For a content that is known: yes with a moment exactly if the definition says so, unless a device failed or the
    // content is too long.
    ensures headline { let terms = terms_of policy.now trust.now (V.vouches verifier.old) in
        IfSome content.old S.tells → (m : ℕ)
        → GivesExactly (SignerYes terms file.now (option_map S.rest content.old) number) result m }
    // And if it isn't yes, the refusal of the definition.
    ensures verdict { let terms = terms_of policy.now trust.now (V.vouches verifier.old) in
        IfSome content.old S.tells
        → SignerVerdictOrDevice terms file.now (option_map S.rest content.old) number result }
    // For any source: the verdict is right for what it gave, and it is read only if none of C1 to C6 refuses.
    ensures judged { let terms = terms_of policy.now trust.now (V.vouches verifier.old) in
        ChecksSigner (facts_of S.tells S.rest S.failures) terms number file.now content.old content.new result }
    // The verdict is right with each list of answers that gives the verifier's answers to the file's questions.
    ensures sufficient { let terms = terms_of policy.now trust.now (V.vouches verifier.old) in
        (answers : Asked → Bool) → Answers terms file.now answers
        → ChecksSigner (facts_of S.tells S.rest S.failures) (with_answers terms answers)
        number file.now content.old content.new result }
    // The verifier is asked only questions of the file.
    ensures only { AsksOnly (λ test. V.asked_only test verifier.old verifier.new) (IsQuestion trust.now file.now) }
    // And only about this signer, if it fits the content that was judged, and under entries that passed the earlier
    // filters.
    ensures asked { let terms = terms_of policy.now trust.now (V.vouches verifier.old) in
        ChecksSignerAsking (facts_of S.tells S.rest S.failures) terms
        (λ test. V.asked_only test verifier.old verifier.new) number file.now content.old content.new result }
    // It is asked nothing if one of C1 to C6 refuses, or the content could not be read.
    ensures unasked { IsUnread result → (test : Asked → Bool) → V.asked_only test verifier.old verifier.new }
    // What the verifier vouches for stays the same.
    ensures same { V.vouches verifier.new ≡ V.vouches verifier.old }
    // The verifier failed exactly if the verdict says so.
    ensures count { CountsAsks result (V.failures verifier.old) (V.failures verifier.new) }
{
    let mut checker = Checker::of(trust, *policy);
    judge_alone(file, content, &mut checker, verifier, number)
}
