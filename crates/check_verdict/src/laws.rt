//! What holds of the definitions of the checker: there is no code to run.

ghost use Rattle.check_verdict.specs.Laws.{TokensPassOrFail, TokensNeverBoth, TokensHaveOneMoment, TokensFailOneRule};
ghost use Rattle.check_verdict.specs.Laws.{FilesAreJudged, FilesNeverBoth, FilesHaveOneMoment, FilesHaveOneRefusal};
ghost use Rattle.check_verdict.specs.Laws.{AnswersDecide};
ghost use Rattle.check_verdict.specs.OneSigner.{SignersAreJudged, SignersNeverBoth, SignersHaveOneMoment};
ghost use Rattle.check_verdict.specs.OneSigner.{SignersHaveOneRefusal, SignersOfAFile};
ghost use Rattle.check_verdict.specs.Rows.{ValueRows, TokenRows, FileRows, TwoTokenRows};
ghost use Rattle.check_verdict.specs.RuleRows.{ClaimRows, PurposeRows};
ghost use Rattle.check_verdict.specs.Questions.{YesSuffices, RefusalsSuffice, PassingSuffices, FailuresSuffice};

/// Each token passes or fails, and never both; it passes with at most one moment, and fails exactly one rule first.
pub fn tokens_are_judged()
    // Each token of octets passes with a moment or fails a rule.
    ensures judged { TokensPassOrFail }
    // No token both passes and fails.
    ensures never_both { TokensNeverBoth }
    // A token passes with at most one moment.
    ensures one_moment { TokensHaveOneMoment }
    // A token fails at most one rule first, whichever fault of form that rule names.
    ensures one_rule { TokensFailOneRule }
{}

/// Each file is accepted or refused, and never both; it is accepted with at most one moment, and refused by one rule,
/// for one signer and one token.
pub fn files_are_judged()
    // Each file of octets is accepted with a moment or refused.
    ensures judged { FilesAreJudged }
    // No file is both accepted and refused.
    ensures never_both { FilesNeverBoth }
    // A file is accepted with at most one moment.
    ensures one_moment { FilesHaveOneMoment }
    // A file is refused by one rule of one signer and token, whichever fault of form it names.
    ensures one_refusal { FilesHaveOneRefusal }
{}

/// The signer of each number of each file is accepted or refused, and never both; it is accepted with at most one
/// moment, and refused by one rule, for one token. If a file is accepted, so is each of its signers, with a moment that
/// is no later.
pub fn signers_are_judged()
    // The signer of each number is accepted or refused, in each file of octets: by C6 if there is none.
    ensures judged { SignersAreJudged }
    // No signer is both accepted and refused.
    ensures never_both { SignersNeverBoth }
    // A signer is accepted with at most one moment.
    ensures one_moment { SignersHaveOneMoment }
    // A signer is refused by one rule, of one token, whichever fault of form it names.
    ensures one_refusal { SignersHaveOneRefusal }
    // If a file is accepted, each of its signers is, with a moment that is no later.
    ensures of_file { SignersOfAFile }
{}

/// Acceptance and refusal depend only on the verifier's answers to the questions of the file. So two lists of answers
/// that agree on these give the same verdict, except for which fault of the octets a refusal reports.
pub fn questions_suffice()
    // A file is accepted exactly if it is under other answers that agree on its questions, at the same moment.
    ensures yes { YesSuffices }
    // It is refused exactly if it is under those answers, by the same refusal.
    ensures refusals { RefusalsSuffice }
    // Answers that agree on a file's questions give one verdict, up to the fault of form that it names.
    ensures verdicts { AnswersDecide }
    // A token passes exactly if it does under other answers that agree on its questions, at the same moment.
    ensures passing { PassingSuffices }
    // It fails a rule first exactly if it does under those answers.
    ensures failures { FailuresSuffice }
{}

/// The worked rows of a token and of a file, over octets that are written out.
pub fn rows_hold()
    // The octets of the rows encode the values that the rows use.
    ensures values { ValueRows }
    // A token over abc, with the entries under which it passes, and the rules that it fails under others.
    ensures token { TokenRows }
    // A file with that token: accepted with its moment, and refused under other entries and answers.
    ensures file { FileRows }
    // A file with two tokens: accepted with the earlier moment, or the later one if only that one counts.
    ensures two_tokens { TwoTokenRows }
{}

/// The worked rows of the rules of tokens, over values.
pub fn rule_rows_hold()
    // Tokens that fail one of K1 to K9 first, though later rules fail too.
    ensures claims { ClaimRows }
    // Entries that are not for time-stamping alone, and one whose period does not hold.
    ensures purpose { PurposeRows }
{}
