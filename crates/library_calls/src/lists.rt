ghost use Rattle.std.specs.Prelude.{◌≡◌, Some, None, IfOk, IfErr};
ghost use Rattle.library_calls.specs.Lists.{ReadsTrust, ReadsAnswers, trust_numbers, answers_numbers};

use library_answers::{Answer, IS_MALFORMED, MALFORMED, NO_MEMORY, WRITTEN};
use list_answers::{Answers, AnswersFault, AnswersRule};
use std::alloc::Global;
use trust_lists::{Trust, TrustFault, TrustRule};

/// The numbers of a fault of a trust list.
fn trust_answer(fault: TrustFault) -> Answer
    ensures { result ≡ trust_numbers fault }
{
    let number = match fault.rule {
        TrustRule::Version => 1,
        TrustRule::Line => 2,
        TrustRule::Certificate => 3,
        TrustRule::OutOfMemory => return Answer::nothing(),
        TrustRule::Period => 5,
    };
    Answer {
        line: fault.line as u64,
        ..Answer::ruled(IS_MALFORMED, b'L', number)
    }
}

/// The numbers of a fault of an answers list.
fn answers_answer(fault: AnswersFault) -> Answer
    ensures { result ≡ answers_numbers fault }
{
    let number = match fault.rule {
        AnswersRule::Version => 1,
        AnswersRule::Line => 2,
        AnswersRule::OutOfMemory => return Answer::nothing(),
    };
    Answer {
        line: fault.line as u64,
        ..Answer::ruled(IS_MALFORMED, b'B', number)
    }
}

/// The trust list that a text states, or the status of the call, which says why there is none.
pub fn read_trust(alloc: Global, text: &[u8], said: &mut Answer) -> Result<Trust, u32>
    // The list of the text.
    ensures read { IfOk result (λ list. ReadsTrust text.now (Some list) said.new 1) }
    // The text has a fault, or memory was refused.
    ensures refused { IfErr result (ReadsTrust text.now None said.new) }
{
    match Trust::read(alloc, text) {
        Ok(list) => {
            *said = Answer::ruled(WRITTEN, 0, 0);
            Ok(list)
        }
        Err(fault) => {
            *said = trust_answer(fault);
            match fault.rule {
                TrustRule::OutOfMemory => Err(NO_MEMORY),
                _ => Err(MALFORMED),
            }
        }
    }
}

/// The answers list that a text states, or the status of the call, which says why there is none.
pub fn read_answers(alloc: Global, text: &[u8], said: &mut Answer) -> Result<Answers, u32>
    // A list that vouches for the questions of the text, and for no others.
    ensures read { IfOk result (λ list. ReadsAnswers text.now (Some list) said.new 1) }
    // The text has a fault, or memory was refused.
    ensures refused { IfErr result (ReadsAnswers text.now None said.new) }
{
    match Answers::read(alloc, text) {
        Ok(list) => {
            *said = Answer::ruled(WRITTEN, 0, 0);
            Ok(list)
        }
        Err(fault) => {
            *said = answers_answer(fault);
            match fault.rule {
                AnswersRule::OutOfMemory => Err(NO_MEMORY),
                _ => Err(MALFORMED),
            }
        }
    }
}
