ghost use Rattle.std.specs.Prelude.{◌≡◌, ◌≢◌, [], codes, map, IfErr, IfOk, Some};
ghost use Rattle.clap.specs.Matches.{found_of, first_value};
ghost use Rattle.cli_tasks.specs.declared.task.Stamped.{Stamped};
ghost use Rattle.cli_failures.specs.Causes.{Names};
ghost use Rattle.cli_words.specs.Words.{IsNumberIn, IsSignerIn, IsStampedIn, IsRequestIn, IsFitIn, IsMatchIn};
ghost use Rattle.cli_words.specs.Words.{IsMigrateIn, IsQuestionsIn, IsBufferIn, IsCheckIn, IsCompareIn, IsAttachIn};
ghost use Rattle.cli_words.specs.Words.{IsShownIn, IsStampIn, IsStampQuestionsIn};
ghost use Rattle.cli_words.specs.Records.{IsEvidenceIn, IsEvidenceQuestionsIn, IsMakeIn, IsRootRequestIn, IsUnderIn};
ghost use Rattle.cli_words.specs.Records.{all_values};

use crate::vocabulary::MOST_BUFFER;
use clap::ArgMatches;
use cli_failures::Failure;
use cli_tasks::{
    AttachWords, CheckWords, CompareWords, EvidenceQuestionsWords, EvidenceWords, FitWords,
    MakeWords, MatchWords, MigrateWords, QuestionsWords, RequestWords, RootRequestWords,
    StampQuestionsWords, StampWords, Stamped, TextTask, UnderWords,
};
use std::alloc::Global;

/// The value of an argument that the parser demands.
pub fn value<'a>(given: &ArgMatches<'a>, name: &'static str) -> Result<&'a str, Failure<'a>>
    ensures { IfOk result (λ v. first_value (found_of given.now) name.now ≡ Some v.now) }
{
    given.get_str(name).ok_or(Failure::Usage(name))
}

/// The number that the command line has for this argument, which the parser has read as one.
fn number<'a>(given: &ArgMatches<'a>, name: &'static str) -> Option<u64>
    ensures { IsNumberIn (found_of given.now) name.now result }
{
    given.get_one::<u64>(name)
}

/// The number of a signer; 1 if the command line has none.
fn signer_number<'a>(given: &ArgMatches<'a>, name: &'static str) -> u64
    ensures { IsSignerIn (found_of given.now) name.now result }
{
    number(given, name).unwrap_or(1)
}

/// How many octets may be kept of a file that is read in pieces, if the words say.
pub fn buffer_octets<'a>(given: &ArgMatches<'a>) -> Result<Option<u64>, Failure<'a>>
    ensures { IfOk result (IsBufferIn (found_of given.now)) }
{
    match number(given, "buffer") {
        None => Ok(None),
        Some(octets @ 1..=MOST_BUFFER) => Ok(Some(octets)),
        // The parser demands a number of this range.
        Some(_) => Err(Failure::Usage("buffer")),
    }
}

/// What a request should ask a stamp of: either a digest or a signature.
fn stamped<'a>(given: &ArgMatches<'a>) -> Result<Stamped<'a>, Failure<'a>>
    ensures stamped { IfOk result (IsStampedIn (found_of given.now)) }
    ensures refused { IfErr result (λ f. Names (codes "digest") f
        × ((s : Stamped) → IsStampedIn (found_of given.now) s → ⊥)) }
{
    let signer = given.get_str("signer");
    match (given.get_str("digest"), given.get_str("of")) {
        (Some(digits), None) if signer.is_none() => Ok(Stamped::Digest(digits)),
        (None, Some(path)) => Ok(Stamped::Signature(path, signer_number(given, "signer"))),
        _ => Err(Failure::Usage("digest")),
    }
}

/// The values of a request.
pub fn request_words<'a>(given: &ArgMatches<'a>) -> Result<RequestWords<'a>, Failure<'a>>
    ensures { IfOk result (IsRequestIn (found_of given.now)) }
{
    Ok(RequestWords {
        alg: value(given, "alg")?,
        stamped: stamped(given)?,
        policy: given.get_str("policy"),
        nonce: given.get_str("nonce"),
        cert: given.get_flag("cert"),
        out: value(given, "OUT")?,
    })
}

/// The files whose content and signed attributes are compared.
pub fn fit_words<'a>(given: &ArgMatches<'a>) -> Result<FitWords<'a>, Failure<'a>>
    ensures { IfOk result (IsFitIn (found_of given.now)) }
{
    Ok(FitWords {
        file: value(given, "FILE")?,
        content: given.get_str("content"),
        sha1: given.get_flag("sha1"),
    })
}

/// The request and the response that are matched.
pub fn match_words<'a>(given: &ArgMatches<'a>) -> Result<MatchWords<'a>, Failure<'a>>
    ensures { IfOk result (IsMatchIn (found_of given.now)) }
{
    Ok(MatchWords {
        request: value(given, "REQUEST")?,
        response: value(given, "RESPONSE")?,
        token: given.get_str("TOKEN"),
    })
}

/// The file that is checked, its lists, and what is allowed. There is no evidence record.
pub fn check_words<'a>(given: &ArgMatches<'a>) -> Result<CheckWords<'a>, Failure<'a>>
    ensures { IfOk result (IsCheckIn (found_of given.now)) }
{
    match (
        given.get_str("evidence"),
        given.get_str("end"),
        given.get_str("at"),
    ) {
        (None, None, None) => Ok(CheckWords {
            trust: value(given, "trust")?,
            answers: value(given, "answers")?,
            content: given.get_str("content"),
            sha1: given.get_flag("sha1"),
            buffer: buffer_octets(given)?,
            file: value(given, "FILE")?,
        }),
        // The parser lets `--end` and `--at` pass without a record beside words that exclude one.
        _ => Err(Failure::Usage("evidence")),
    }
}

/// The file that is checked under an evidence record, the record, the lists, and how long algorithms and the last
/// time-stamp of the record hold.
///
/// Errors: `Usage`, which names `sha1`, if the words allow SHA-1: beside a record the ends say until when it holds.
pub fn under_words<'a>(alloc: Global, given: &ArgMatches<'a>) -> Result<UnderWords<'a>, Failure<'a>>
    ensures { IfOk result (IsUnderIn (found_of given.now)) }
{
    if given.get_flag("sha1") {
        // The parser takes either.
        return Err(Failure::Usage("sha1"));
    }
    let (trust, record) = (value(given, "trust")?, value(given, "evidence")?);
    let (answers, file) = (value(given, "answers")?, value(given, "FILE")?);
    let buffer = buffer_octets(given)?;
    let all = values(alloc, given, "end")?;
    let at = given.get_str("at");
    Ok(UnderWords {
        trust,
        answers,
        record,
        ends: all,
        at,
        content: given.get_str("content"),
        buffer,
        file,
    })
}

/// The file whose questions are printed, and the trust list.
pub fn questions_words<'a>(given: &ArgMatches<'a>) -> Result<QuestionsWords<'a>, Failure<'a>>
    ensures { IfOk result (IsQuestionsIn (found_of given.now)) }
{
    Ok(QuestionsWords {
        trust: value(given, "trust")?,
        buffer: buffer_octets(given)?,
        file: value(given, "FILE")?,
    })
}

/// The trust list that is read, and the file that it goes into.
pub fn migrate_words<'a>(given: &ArgMatches<'a>) -> Result<MigrateWords<'a>, Failure<'a>>
    ensures { IfOk result (IsMigrateIn (found_of given.now)) }
{
    Ok(MigrateWords {
        list: value(given, "LIST")?,
        out: value(given, "OUT")?,
    })
}

/// The two signatures that are compared.
pub fn compare_words<'a>(given: &ArgMatches<'a>) -> Result<CompareWords<'a>, Failure<'a>>
    ensures { IfOk result (IsCompareIn (found_of given.now)) }
{
    Ok(CompareWords {
        first_file: value(given, "A")?,
        first_signer: signer_number(given, "first"),
        second_file: value(given, "B")?,
        second_signer: signer_number(given, "second"),
    })
}

/// The token that is attached, and the files.
pub fn attach_words<'a>(given: &ArgMatches<'a>) -> Result<AttachWords<'a>, Failure<'a>>
    ensures { IfOk result (IsAttachIn (found_of given.now)) }
{
    Ok(AttachWords {
        signer: number(given, "signer").ok_or(Failure::Usage("signer"))?,
        token: value(given, "token")?,
        file: value(given, "FILE")?,
        out: value(given, "OUT")?,
    })
}

/// The stamp that is checked, the file that it should stamp, the lists, and what is allowed.
pub fn stamp_words<'a>(given: &ArgMatches<'a>) -> Result<StampWords<'a>, Failure<'a>>
    ensures { IfOk result (IsStampIn (found_of given.now)) }
{
    let answers = value(given, "answers")?;
    Ok(StampWords {
        trust: value(given, "trust")?,
        answers,
        sha1: given.get_flag("sha1"),
        stamp: value(given, "STAMP")?,
        data: value(given, "DATA")?,
    })
}

/// The stamp whose questions are printed, and the trust list.
pub fn stamp_questions_words<'a>(
    given: &ArgMatches<'a>,
) -> Result<StampQuestionsWords<'a>, Failure<'a>>
    ensures { IfOk result (IsStampQuestionsIn (found_of given.now)) }
{
    Ok(StampQuestionsWords {
        trust: value(given, "trust")?,
        stamp: value(given, "STAMP")?,
    })
}

/// All values of an argument, in the order of the words; none if it is absent.
fn values<'a>(
    alloc: Global,
    given: &ArgMatches<'a>,
    name: &'static str,
) -> Result<Vec<&'a str>, Failure<'a>>
    ensures values { IfOk result (λ found. map (λ s. s.now) found.items ≡ all_values (found_of given.now) name.now) }
    ensures memory { IfErr result (λ f. f ≡ Failure.Memory) }
{
    let mut found = Vec::new(alloc);
    if let Some(values) = given.get_strs(name) {
        found.extend_from_slice(values)?;
    }
    Ok(found)
}

/// The same for an argument that the parser demands.
pub fn some_values<'a>(
    alloc: Global,
    given: &ArgMatches<'a>,
    name: &'static str,
) -> Result<Vec<&'a str>, Failure<'a>>
    ensures values { IfOk result (λ found. map (λ s. s.now) found.items ≡ all_values (found_of given.now) name.now) }
    ensures some { IfOk result (λ found. found.items ≢ []) }
{
    let found = values(alloc, given, name)?;
    if found.is_empty() {
        return Err(Failure::Usage(name));
    }
    Ok(found)
}

/// The record that is checked, the files that it should be for, the lists, and how long algorithms and the last
/// time-stamp must hold.
pub fn evidence_words<'a>(
    alloc: Global,
    given: &ArgMatches<'a>,
) -> Result<EvidenceWords<'a>, Failure<'a>>
    ensures { IfOk result (IsEvidenceIn (found_of given.now)) }
{
    let (trust, answers) = (value(given, "trust")?, value(given, "answers")?);
    let record = value(given, "RECORD")?;
    let ends = values(alloc, given, "end")?;
    let data = some_values(alloc, given, "DATA")?;
    Ok(EvidenceWords {
        trust,
        answers,
        ends,
        at: given.get_str("at"),
        whole: given.get_flag("whole"),
        record,
        data,
    })
}

/// The record whose questions are printed, and the trust list.
pub fn evidence_questions_words<'a>(
    given: &ArgMatches<'a>,
) -> Result<EvidenceQuestionsWords<'a>, Failure<'a>>
    ensures { IfOk result (IsEvidenceQuestionsIn (found_of given.now)) }
{
    Ok(EvidenceQuestionsWords {
        trust: value(given, "trust")?,
        record: value(given, "RECORD")?,
    })
}

/// The digests that the root is made of, the values of the request for its stamp, and the file that this goes into.
pub fn root_request_words<'a>(given: &ArgMatches<'a>) -> Result<RootRequestWords<'a>, Failure<'a>>
    ensures { IfOk result (IsRootRequestIn (found_of given.now)) }
{
    let (policy, nonce) = (given.get_str("policy"), given.get_str("nonce"));
    let (sums, out) = (value(given, "SUMS")?, value(given, "OUT")?);
    Ok(RootRequestWords {
        alg: value(given, "alg")?,
        policy,
        nonce,
        cert: given.get_flag("cert"),
        sums,
        out,
    })
}

/// The digests that records are made of, the token that stamps their root, and the folder that the records go into.
pub fn make_words<'a>(given: &ArgMatches<'a>) -> Result<MakeWords<'a>, Failure<'a>>
    ensures { IfOk result (IsMakeIn (found_of given.now)) }
{
    let (token, sums) = (value(given, "token")?, value(given, "SUMS")?);
    Ok(MakeWords {
        alg: given.get_str("alg"),
        token,
        into: value(given, "into")?,
        sums,
    })
}

/// The file that is shown, as its kind says.
pub fn shown<'a>(given: &ArgMatches<'a>) -> Result<TextTask<'a>, Failure<'a>>
    ensures { IfOk result (IsShownIn (found_of given.now)) }
{
    match value(given, "KIND")? {
        "evidence" => Ok(TextTask::ShowEvidence(value(given, "FILE")?)),
        "request" => Ok(TextTask::ShowRequest(value(given, "FILE")?)),
        "response" => Ok(TextTask::ShowResponse(value(given, "FILE")?)),
        "signed" => Ok(TextTask::ShowSigned(value(given, "FILE")?)),
        "tst" => Ok(TextTask::ShowTst(value(given, "FILE")?)),
        _ => Err(Failure::Usage("KIND")),
    }
}
