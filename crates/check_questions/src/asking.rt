//! The lines of the questions about signers and about the signers of their tokens.
ghost use Rattle.check_fit.specs.FileFitting.{IsReading};
ghost use Rattle.check_verdict.specs.Verdicts.{tokens};
ghost use Rattle.check_questions.specs.FileQuestions.{InOrder, OfEntry, OfEntries, OfToken, OfSigner, AreQuestions};
ghost use Rattle.check_questions.specs.AskingSteps.{IsOpened, PutsLines};

use crate::fault::QuestionsFault;
use crate::written::put_question;
use check_names::matches;
use check_verdict::{next_candidate, question_of};
use cms_types::{CmsFault, SignedData, Signer, Signers};
use devices::{Sink, SinkFault};
use trust_lists::{Entry, Role, Trust};

// Writes the line of the question about a signer under an entry, if the entry has the role and matches the signer.
fn put_under_entry<S: Sink>(
    sink: &mut S,
    role: Role,
    signer: &Signer,
    entry: &Entry,
) -> Result<(), SinkFault>
    ensures wrote { PutsLines (OfEntry role signer.now entry.now) result (S.tells sink.old) (S.taken sink.old)
        (S.taken sink.new) (S.failures sink.old) (S.failures sink.new) }
    ensures telling { S.tells sink.old → S.tells sink.new }
{
    if entry.role() != role {
        return Ok(());
    }
    let certificate = entry.certificate();
    if !matches(signer.sid(), &certificate) {
        return Ok(());
    }
    match question_of(&certificate, signer) {
        Some(question) => put_question(sink, &question),
        None => Ok(()),
    }
}

// Writes the lines of the questions about a signer under the entries of a role, in their order. About those that the
// signer cannot match there are none.
fn put_under_entries<S: Sink>(
    sink: &mut S,
    role: Role,
    signer: &Signer,
    trust: &Trust,
) -> Result<(), SinkFault>
    ensures wrote { PutsLines (OfEntries role signer.now trust.now) result (S.tells sink.old) (S.taken sink.old)
        (S.taken sink.new) (S.failures sink.old) (S.failures sink.new) }
    ensures telling { S.tells sink.old → S.tells sink.new }
{
    let mut from = 0;
    while let Some(at) = next_candidate(trust, role, signer.sid(), from) {
        put_under_entry(sink, role, signer, &trust.entries()[at])?;
        from = at + 1;
    }
    Ok(())
}

// The SignedData that octets encode.
fn opened<'a>(octets: &'a [u8]) -> Result<SignedData<'a>, CmsFault>
    ensures { IsReading octets.now result }
{
    SignedData::read(octets)
}

/// The SignedData that octets encode.
///
/// Errors: `Malformed` and `NotSignedData`.
pub(crate) fn signed_of<'a>(octets: &'a [u8]) -> Result<SignedData<'a>, QuestionsFault>
    ensures { IsOpened octets.now result }
{
    match opened(octets) {
        Ok(signed) => Ok(signed),
        Err(CmsFault::Malformed(fault)) => Err(QuestionsFault::Malformed(fault)),
        Err(CmsFault::NotSignedData) => Err(QuestionsFault::NotSignedData),
        Err(CmsFault::OutOfMemory) => unreachable!(),
    }
}

/// Writes the lines of the questions about the one signer of a time-stamp token, under the entries of the role `tsa`
/// that match it, in the list's order, as `token_questions` does below its first line. What is no token, or has no
/// signer, or two, has none.
///
/// Errors: `SinkFault`, at the first failure of the sink. A beginning of the lines was then written.
pub fn put_under_token<S: Sink>(sink: &mut S, trust: &Trust, token: &[u8]) -> Result<(), SinkFault>
    // The lines of its questions were written and the count of failures is unchanged, or a beginning of them was
    // written and the count is raised by one.
    ensures wrote { PutsLines (OfToken trust.now token.now) result (S.tells sink.old) (S.taken sink.old)
        (S.taken sink.new) (S.failures sink.old) (S.failures sink.new) }
    // If it was known what the sink took, it still is.
    ensures telling { S.tells sink.old → S.tells sink.new }
{
    let Ok(signed) = opened(token) else {
        return Ok(());
    };
    match signed.signers().only() {
        Some(signer) => put_under_entries(sink, Role::Tsa, &signer, trust),
        None => Ok(()),
    }
}

// Writes the lines of the questions about the tokens of a signer, in their order.
fn put_under_tokens<S: Sink>(sink: &mut S, trust: &Trust, signer: &Signer) -> Result<(), SinkFault>
    ensures wrote { PutsLines (InOrder (OfToken trust.now) (tokens signer.now)) result (S.tells sink.old)
        (S.taken sink.old) (S.taken sink.new) (S.failures sink.old) (S.failures sink.new) }
    ensures telling { S.tells sink.old → S.tells sink.new }
{
    let mut left = signer.tokens();
    while let Some((first, others)) = left.next() {
        put_under_token(sink, trust, first.whole())?;
        left = others;
    }
    Ok(())
}

// Writes the lines of the questions about a signer and then about its tokens: none if it has no signed attributes.
fn put_under_signer<S: Sink>(sink: &mut S, trust: &Trust, signer: &Signer) -> Result<(), SinkFault>
    ensures wrote { PutsLines (OfSigner trust.now signer.now) result (S.tells sink.old) (S.taken sink.old)
        (S.taken sink.new) (S.failures sink.old) (S.failures sink.new) }
    ensures telling { S.tells sink.old → S.tells sink.new }
{
    let Some(_attributes) = signer.attributes() else {
        return Ok(());
    };
    put_under_entries(sink, Role::Signer, signer, trust)?;
    put_under_tokens(sink, trust, signer)
}

/// Writes the lines of the questions about signers, in their order.
pub(crate) fn put_under_signers<S: Sink>(
    sink: &mut S,
    trust: &Trust,
    signers: &Signers,
) -> Result<(), SinkFault>
    ensures wrote { PutsLines (AreQuestions trust.now signers.now) result (S.tells sink.old) (S.taken sink.old)
        (S.taken sink.new) (S.failures sink.old) (S.failures sink.new) }
    ensures telling { S.tells sink.old → S.tells sink.new }
{
    let mut left = signers.again();
    while let Some((first, others)) = left.next() {
        put_under_signer(sink, trust, &first)?;
        left = others;
    }
    Ok(())
}
