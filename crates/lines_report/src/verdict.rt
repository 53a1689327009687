//! The line of a verdict: its texts, written one after the other. Decision 116 of `docs/DECISIONS.md`.
ghost use Rattle.std.specs.Prelude.{ℕ, List, [], ◌∷◌, ◌++◌, codes};
ghost use Rattle.std.specs.Fmt.{decimal};
ghost use Rattle.devices.specs.Device.{Wrote};
ghost use Rattle.der_core.specs.FaultTexts.{fault_text};
ghost use Rattle.check_fit.specs.RuleTexts.{signer_rule_text, token_rule_text, refused_text};
ghost use Rattle.lines_report.specs.VerdictLine.{IsVerdictLine};

use check_fit::{FileRule, Refused, SignerRule, TokenRule};
use check_verdict::Accepted;
use cms_types::CmsFault;
use der_core::Fault;
use der_time::generalized_text;
use devices::{Sink, SinkFault, put_all};
use itoa::Buffer;

// Writes two texts.
#[tactic(auto, using(devices::proofs::Putting::wrote_next, devices::proofs::Putting::wrote_part))]
fn put_two<S: Sink>(sink: &mut S, first: &str, second: &str) -> Result<(), SinkFault>
    ensures wrote { Wrote result (S.tells sink.old) (S.taken sink.old) (S.taken sink.new) (S.failures sink.old)
        (S.failures sink.new) (first.now ++ second.now) }
    ensures telling { S.tells sink.old → S.tells sink.new }
{
    put_all(sink, first.as_bytes())?;
    put_all(sink, second.as_bytes())
}

// Writes three texts.
#[tactic(auto, using(devices::proofs::Putting::wrote_next, devices::proofs::Putting::wrote_part))]
fn put_three<S: Sink>(sink: &mut S, first: &str, second: &str, third: &str) -> Result<(), SinkFault>
    ensures wrote { Wrote result (S.tells sink.old) (S.taken sink.old) (S.taken sink.new) (S.failures sink.old)
        (S.failures sink.new) (first.now ++ second.now ++ third.now) }
    ensures telling { S.tells sink.old → S.tells sink.new }
{
    put_two(sink, first, second)?;
    put_all(sink, third.as_bytes())
}

// Writes a word and the fault that follows it.
#[tactic(auto, using(devices::proofs::Putting::wrote_next, devices::proofs::Putting::wrote_part))]
fn put_with_fault<S: Sink>(sink: &mut S, word: &str, fault: &Fault) -> Result<(), SinkFault>
    ensures wrote { Wrote result (S.tells sink.old) (S.taken sink.old) (S.taken sink.new) (S.failures sink.old)
        (S.failures sink.new) (word.now ++ codes " " ++ fault_text fault.now) }
    ensures telling { S.tells sink.old → S.tells sink.new }
{
    let mut at = Buffer::new();
    put_two(sink, word, " ")?;
    put_three(sink, fault.kind.text(), " at ", at.format(fault.at))
}

// Writes the rule of a token.
fn put_token_rule<S: Sink>(sink: &mut S, rule: &TokenRule) -> Result<(), SinkFault>
    ensures wrote { Wrote result (S.tells sink.old) (S.taken sink.old) (S.taken sink.new) (S.failures sink.old)
        (S.failures sink.new) (token_rule_text rule.now) }
    ensures telling { S.tells sink.old → S.tells sink.new }
{
    let word = rule.word();
    match rule {
        TokenRule::Malformed(CmsFault::Malformed(fault)) | TokenRule::TstMalformed(fault) => {
            put_with_fault(sink, word, fault)
        }
        TokenRule::Attributes(rule) => put_three(sink, word, " ", rule.text()),
        _ => put_all(sink, word.as_bytes()),
    }
}

// Writes the number of a token and its rule.
#[tactic(auto, using(devices::proofs::Putting::wrote_next, devices::proofs::Putting::wrote_part))]
fn put_token<S: Sink>(sink: &mut S, token: usize, rule: &TokenRule) -> Result<(), SinkFault>
    ensures wrote { Wrote result (S.tells sink.old) (S.taken sink.old) (S.taken sink.new) (S.failures sink.old)
        (S.failures sink.new) (decimal token ++ codes " " ++ token_rule_text rule.now) }
    ensures telling { S.tells sink.old → S.tells sink.new }
{
    let mut number = Buffer::new();
    put_two(sink, number.format(token), " ")?;
    put_token_rule(sink, rule)
}

// Writes the number of a signer and what follows it.
fn put_signer<S: Sink>(sink: &mut S, signer: usize, behind: &str) -> Result<(), SinkFault>
    ensures wrote { Wrote result (S.tells sink.old) (S.taken sink.old) (S.taken sink.new) (S.failures sink.old)
        (S.failures sink.new) (codes "refused signer " ++ decimal signer ++ behind.now) }
    ensures telling { S.tells sink.old → S.tells sink.new }
{
    let mut number = Buffer::new();
    put_three(sink, "refused signer ", number.format(signer), behind)
}

// Writes the refusal of a signer.
#[tactic(auto, using(devices::proofs::Putting::wrote_next, devices::proofs::Putting::wrote_part))]
fn put_refused_signer<S: Sink>(
    sink: &mut S,
    signer: usize,
    rule: SignerRule,
) -> Result<(), SinkFault>
    ensures wrote { Wrote result (S.tells sink.old) (S.taken sink.old) (S.taken sink.new)
        (S.failures sink.old) (S.failures sink.new)
        (codes "refused signer " ++ decimal signer ++ codes " " ++ signer_rule_text rule) }
    ensures telling { S.tells sink.old → S.tells sink.new }
{
    put_signer(sink, signer, " ")?;
    put_all(sink, rule.text().as_bytes())
}

// Writes the refusal of a token.
#[tactic(auto, using(devices::proofs::Putting::wrote_next, devices::proofs::Putting::wrote_part))]
fn put_refused_token<S: Sink>(
    sink: &mut S,
    signer: usize,
    token: usize,
    rule: &TokenRule,
) -> Result<(), SinkFault>
    ensures wrote { Wrote result (S.tells sink.old) (S.taken sink.old) (S.taken sink.new)
        (S.failures sink.old) (S.failures sink.new)
        (codes "refused signer " ++ decimal signer ++ codes " token " ++ decimal token ++ codes " "
        ++ token_rule_text rule.now) }
    ensures telling { S.tells sink.old → S.tells sink.new }
{
    put_signer(sink, signer, " token ")?;
    put_token(sink, token, rule)
}

// Writes a refusal.
fn put_refused<S: Sink>(sink: &mut S, refused: &Refused) -> Result<(), SinkFault>
    ensures wrote { Wrote result (S.tells sink.old) (S.taken sink.old) (S.taken sink.new) (S.failures sink.old)
        (S.failures sink.new) (refused_text refused.now) }
    ensures telling { S.tells sink.old → S.tells sink.new }
{
    match refused {
        Refused::File(FileRule::Malformed(fault)) => put_with_fault(sink, "malformed", fault),
        Refused::File(rule) => put_two(sink, "refused ", rule.word()),
        Refused::Signer { signer, rule } => put_refused_signer(sink, *signer, *rule),
        Refused::Token {
            signer,
            token,
            rule,
        } => put_refused_token(sink, *signer, *token, rule),
        Refused::Device(fault) => put_two(sink, "failed ", fault.text()),
    }
}

// Writes a refusal and the end of its line.
#[tactic(auto, using(devices::proofs::Putting::wrote_next, devices::proofs::Putting::wrote_part))]
fn put_refused_line<S: Sink>(sink: &mut S, refused: &Refused) -> Result<(), SinkFault>
    ensures wrote { Wrote result (S.tells sink.old) (S.taken sink.old) (S.taken sink.new) (S.failures sink.old)
        (S.failures sink.new) (refused_text refused.now ++ 10 ∷ []) }
    ensures telling { S.tells sink.old → S.tells sink.new }
{
    put_refused(sink, refused)?;
    put_all(sink, b"\n")
}

/// Writes the line of a verdict of `check_verdict::check`, with a line feed after it: `accepted` and the moment as a
/// GeneralizedTime (X.690 11.7), as in `accepted 20240115100000Z`, or what `Display` prints for the refusal, as in
/// `refused signer 2 S9 SignatureFails`. Nothing is allocated.
///
/// Errors: `SinkFault`, at the first failure of the sink. A beginning of the line was then written, and nothing is
/// tried again.
pub fn report<S: Sink>(verdict: &Result<Accepted, Refused>, sink: &mut S) -> Result<(), SinkFault>
    // The whole line, or after a fault a beginning of it; the count of failures rose exactly if there was a fault.
    ensures wrote { (line : List ℕ) × IsVerdictLine verdict.now line × Wrote result (S.tells sink.old)
        (S.taken sink.old) (S.taken sink.new) (S.failures sink.old) (S.failures sink.new) line }
    // If it was known what the sink has taken, it still is.
    ensures telling { S.tells sink.old → S.tells sink.new }
{
    match verdict {
        Ok(accepted) => {
            let text = generalized_text(accepted.moment);
            put_three(sink, "accepted ", text.as_str(), "\n")
        }
        Err(refused) => put_refused_line(sink, refused),
    }
}
