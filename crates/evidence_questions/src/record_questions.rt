ghost use Rattle.std.specs.Prelude.{◌≡◌, ◌↔◌, List, Err};
ghost use Rattle.devices.specs.Device.{Wrote};
ghost use Rattle.trust_lists.specs.Asking.{Asked};
ghost use Rattle.check_evidence.specs.Places.{stamps_of};
ghost use Rattle.check_evidence.specs.Refusing.{IsEncrypted};
ghost use Rattle.check_questions.specs.AskingSteps.{PutsLines};
ghost use Rattle.check_questions.specs.QuestionsText.{questions_text};
ghost use Rattle.evidence_questions.specs.RecordQuestions.{OfStamps, AreQuestionsOfRecord};
ghost use Rattle.evidence_questions.specs.RecordWritten.{IsOpenRecord, EncodesNoRecord, IsMalformed, IsRecordWritten};
ghost use Rattle.evidence_questions.specs.RecordWritten.{IsRecordWrittenWith, CountsRecordWrites};

use crate::fault::RecordQuestionsFault;
use check_evidence::RecordRule;
use check_questions::put_under_token;
use der_core::ReadFault;
use devices::{Sink, SinkFault, put_all};
use evidence_types::{Chain, Chains, EvidenceRecord};
use trust_lists::Trust;

/// The first line of the text.
const FIRST_LINE: &[u8] = b"cmsproof questions 1\n";

// Writes the lines of the questions about the tokens of a chain, in their order.
fn put_under_chain<S: Sink>(sink: &mut S, trust: &Trust, chain: &Chain) -> Result<(), SinkFault>
    ensures wrote { PutsLines (OfStamps trust.now chain.now) result (S.tells sink.old) (S.taken sink.old)
        (S.taken sink.new) (S.failures sink.old) (S.failures sink.new) }
    ensures telling { S.tells sink.old → S.tells sink.new }
{
    let mut left = chain.again();
    while let Some((first, others)) = left.next() {
        put_under_token(sink, trust, first.stamp())?;
        left = others;
    }
    Ok(())
}

// Writes the lines of the questions about the tokens of chains, in their order.
fn put_under_chains<S: Sink>(sink: &mut S, trust: &Trust, chains: &Chains) -> Result<(), SinkFault>
    ensures wrote { PutsLines (OfStamps trust.now (stamps_of chains.now)) result (S.tells sink.old)
        (S.taken sink.old) (S.taken sink.new) (S.failures sink.old) (S.failures sink.new) }
    ensures telling { S.tells sink.old → S.tells sink.new }
{
    let mut left = chains.again();
    while let Some((first, others)) = left.next() {
        put_under_chain(sink, trust, &first)?;
        left = others;
    }
    Ok(())
}

// Writes the text of the questions about the tokens of chains.
fn put_text<S: Sink>(sink: &mut S, trust: &Trust, chains: &Chains) -> Result<(), SinkFault>
    ensures wrote { (qs : List Asked) → OfStamps trust.now (stamps_of chains.now) qs → Wrote result
        (S.tells sink.old) (S.taken sink.old) (S.taken sink.new) (S.failures sink.old) (S.failures sink.new)
        (questions_text qs) }
    ensures telling { S.tells sink.old → S.tells sink.new }
{
    put_all(sink, FIRST_LINE)?;
    put_under_chains(sink, trust, chains)
}

// The evidence record that octets encode, whose data are not encrypted.
fn open_record<'a>(octets: &'a [u8]) -> Result<EvidenceRecord<'a>, RecordRule>
    ensures { IsOpenRecord octets.now result }
{
    let evidence = match EvidenceRecord::read(octets) {
        Ok(evidence) => evidence,
        Err(ReadFault::Malformed(fault)) => return Err(RecordRule::Malformed(fault)),
        Err(ReadFault::OutOfMemory) => unreachable!(),
    };
    if evidence.encryption().is_some() {
        return Err(RecordRule::Encrypted);
    }
    Ok(evidence)
}

/// Writes the questions that a verifier must be asked so that the time-stamps of an evidence record can be judged
/// (RFC 4998 5.3): the line `cmsproof questions 1`, and then, for each time-stamp in the order of the record, the lines
/// that `token_questions` writes of it below that line. A time-stamp that is no token, or has no signer or two, has
/// none. A question that occurs twice is written twice. It allocates nothing.
///
/// Errors: `Record`, with `Malformed` or `Encrypted`, and then nothing was written; `WriteFailed` if the sink fails,
/// and then a beginning of the text was written.
pub fn questions_of_record<S: Sink>(
    octets: &[u8],
    trust: &Trust,
    sink: &mut S,
) -> Result<(), RecordQuestionsFault>
    // The record has questions, and their text was written, or after `WriteFailed` a beginning of it; or a rule that it
    // fails is named, and nothing was written.
    ensures written { IsRecordWritten trust.now octets.now result (S.tells sink.old) (S.taken sink.old)
        (S.taken sink.new) (S.failures sink.old) (S.failures sink.new) }
    // For every list of the record's questions, its text was written.
    ensures only { (qs : List Asked) → AreQuestionsOfRecord trust.now octets.now qs
        → IsRecordWrittenWith (questions_text qs) result (S.tells sink.old) (S.taken sink.old) (S.taken sink.new)
        (S.failures sink.old) (S.failures sink.new) }
    // `Malformed` is returned exactly if the octets don't encode an evidence record.
    ensures malformed { IsMalformed result ↔ EncodesNoRecord octets.now }
    // `Encrypted` is returned exactly if they encode one whose data are encrypted.
    ensures encrypted { (result ≡ Err (RecordQuestionsFault.Record RecordRule.Encrypted)) ↔ IsEncrypted octets.now }
    // The count of failures is raised by one at `WriteFailed`, and otherwise unchanged.
    ensures count { CountsRecordWrites result (S.failures sink.old) (S.failures sink.new) }
    // If it was known what the sink took, it still is.
    ensures telling { S.tells sink.old → S.tells sink.new }
{
    match open_record(octets) {
        Ok(evidence) => match put_text(sink, trust, evidence.chains()) {
            Ok(()) => Ok(()),
            Err(_fault) => Err(RecordQuestionsFault::WriteFailed),
        },
        Err(rule) => Err(RecordQuestionsFault::Record(rule)),
    }
}
