ghost use Rattle.std.specs.Prelude.{◌≡◌, ◌⊎◌, ◌<◌, ◌++◌, ◌∷◌, [], List, length, Ok, Err, Some, None, IfOk, IfErr, IsOk};
ghost use Rattle.std.specs.Prelude.{IsErr, MatchOption, MatchResult, is_some, if◌then◌else◌, refl};
ghost use Rattle.std.proofs.Common.{◌∙◌};
ghost use Rattle.devices.specs.Device.{Counts};
ghost use Rattle.list_answers.specs.Asking.{Asked, is_among};
ghost use Rattle.list_answers.specs.AnswersText.{asked_of, asked_of_lines, answers_of, question_lines};
ghost use Rattle.list_answers.specs.AnswerLines.{fields_asked, Adds};
ghost use Rattle.list_answers.specs.AnswerSteps.{under_signature_cmp, asked_cmp, AreInOrder};

use crate::answer_lines::{Fields, are_asked, fields_of};
use crate::answers_fault::{AnswersFault, AnswersRule};
use crate::hexadecimal::decode;
use crate::question::Question;
use crate::texts::{Line, Lines};
use crate::verifier::{AskFault, Verifier};
use std::alloc::{AllocError, Global};
use std::cmp::Ordering;
use std::marker::Model;

/// The first line of an answers list.
const FIRST_LINE: &[u8] = b"cmsproof answers 1";

/// A question whose answer is yes.
#[derive(Debug, Drop)]
struct Vouched {
    key: Vec<u8>,
    digest_alg: Vec<u8>,
    signature_alg: Vec<u8>,
    tail: Vec<u8>,
    signature: Vec<u8>,
}

impl Model for Vouched {
    ghost use Rattle.list_answers.specs.Asking.{Asked};

    ghost Value = { Asked };

    ghost view = { λ v. record {
      key = v.key.items;
      digest_alg = v.digest_alg.items;
      signature_alg = v.signature_alg.items;
      tail = v.tail.items;
      signature = v.signature.items;
    } };
}

impl Vouched {
    // The question of fields, or `None` if they state none.
    fn of(alloc: Global, fields: &Fields<'_>) -> Result<Option<Vouched>, AllocError>
        ensures { IfOk result (λ o. MatchOption o (fields_asked fields.now ≡ None)
            (λ v. fields_asked fields.now ≡ Some v)) }
    {
        let Some(key) = decode(alloc, fields.key)? else {
            return Ok(None);
        };
        let Some(digest_alg) = decode(alloc, fields.digest_alg)? else {
            return Ok(None);
        };
        let Some(signature_alg) = decode(alloc, fields.signature_alg)? else {
            return Ok(None);
        };
        let Some(tail) = decode(alloc, fields.tail)? else {
            return Ok(None);
        };
        let Some(signature) = decode(alloc, fields.signature)? else {
            return Ok(None);
        };
        Ok(Some(Vouched {
            key,
            digest_alg,
            signature_alg,
            tail,
            signature,
        }))
    }

    fn question(&self) -> Question<'_>
        ensures { result ≡ self.now }
    {
        Question {
            key: &self.key,
            digest_alg: &self.digest_alg,
            signature_alg: &self.signature_alg,
            tail: &self.tail,
            signature: &self.signature,
        }
    }
}

/// An answers list: a verifier that answers yes to the questions that are in it, and no to all others. It never fails.
///
/// Contracts see the questions in the order of `specs/AnswerSteps.antt`.
#[derive(Debug, Drop)]
pub struct Answers {
    asked: Vec<Vouched>,
}

impl Model for Answers {
    ghost use Rattle.std.specs.Prelude.{List};
    ghost use Rattle.list_answers.specs.Asking.{Asked};
    ghost use Rattle.list_answers.specs.AnswerSteps.{AreInOrder};

    ghost Value = { List Asked };

    ghost view = { λ a. a.asked.items };

    ghost invariant = { λ a. AreInOrder a.asked.items };
}

// Which of two questions with the same signature is the first, by the first part in which they differ.
fn order_under_signature(first: &Question<'_>, second: &Question<'_>) -> Ordering
    ensures { result ≡ under_signature_cmp first.now second.now }
{
    let algorithms = first
        .digest_alg
        .cmp(&second.digest_alg)
        .then(first.signature_alg.cmp(&second.signature_alg));
    first
        .tail
        .cmp(&second.tail)
        .then(first.key.cmp(&second.key).then(algorithms))
}

// Which of two questions is the first. Signatures mostly differ in their first octets, and keys are mostly the same, so
// the signatures are compared first, and the other parts only if the signatures are the same.
fn order(first: &Question<'_>, second: &Question<'_>) -> Ordering
    ensures { result ≡ asked_cmp first.now second.now }
{
    match first.signature.cmp(&second.signature) {
        Ordering::Equal => order_under_signature(first, second),
        unequal => unequal,
    }
}

// Whether a line states a question. It takes no memory.
fn states(line: &[u8]) -> bool
    ensures { result ≡ is_some (asked_of line.now) }
{
    match fields_of(line) {
        Some(fields) => are_asked(&fields),
        None => false,
    }
}

// Tests that each line states a question. It takes no memory.
#[tactic(auto, using(crate::proofs::Behind::in_front))]
fn test(lines: &Lines<'_>) -> Result<(), AnswersFault>
    ensures tested { MatchResult result (λ _. IsOk (asked_of_lines lines.now)) (λ f. asked_of_lines lines.now ≡ Err f) }
    ensures line { IfErr result (λ f. f.rule ≡ AnswersRule.Line) }
{
    let mut left = lines.again();
    while let Some((line, others)) = left.next() {
        if !states(line.octets) {
            return Err(fault_at(&line));
        }
        left = others;
    }
    Ok(())
}

// The fault of a line that states no question.
fn fault_at(line: &Line<'_>) -> AnswersFault
    ensures { result ≡ record { rule = AnswersRule.Line; line = line.now.number } }
{
    AnswersFault {
        rule: AnswersRule::Line,
        line: line.number,
    }
}

// What is wrong where memory was refused at the first of these lines: the first of them that states no question, or
// that alone.
fn without_memory(lines: &Lines<'_>) -> AnswersFault
    ensures found { IsOk (asked_of_lines lines.now) → result ≡ record { rule = AnswersRule.OutOfMemory; line = 0 } }
    ensures refused { IsErr (asked_of_lines lines.now) → asked_of_lines lines.now ≡ Err result }
    ensures memory { result.rule ≡ AnswersRule.OutOfMemory → IsOk (asked_of_lines lines.now) }
{
    match test(lines) {
        Ok(()) => AnswersFault {
            rule: AnswersRule::OutOfMemory,
            line: 0,
        },
        Err(fault) => fault,
    }
}

// Adds the question of a line to others, if it states one: whether it does.
fn add(alloc: Global, line: &[u8], found: &mut Vec<Vouched>) -> Result<bool, AllocError>
    ensures { IfOk result (λ b. Adds (asked_of line.now) b found.old.items found.new.items) }
{
    let Some(fields) = fields_of(line) else {
        return Ok(false);
    };
    let Some(vouched) = Vouched::of(alloc, &fields)? else {
        return Ok(false);
    };
    found.push(vouched)?;
    Ok(true)
}

// The questions of lines, in their order.
#[tactic(auto, using(crate::proofs::Behind::in_front))]
fn asked_of_lines(alloc: Global, lines: Lines<'_>) -> Result<Vec<Vouched>, AnswersFault>
    ensures found { IfOk result (λ v. asked_of_lines lines.entry ≡ Ok v.items) }
    ensures refused { IfErr result (λ f. (f ≡ record { rule = AnswersRule.OutOfMemory; line = 0 })
        ⊎ (asked_of_lines lines.entry ≡ Err f)) }
    // A lack of memory is reported only if each line states a question, and there is one.
    ensures memory { IfErr result (λ f. f.rule ≡ AnswersRule.OutOfMemory → IsOk (asked_of_lines lines.entry)
        × (0 < length lines.entry)) }
{
    let mut found = Vec::new(alloc);
    let mut left = lines;
    while let Some((line, others)) = left.next() {
        match add(alloc, line.octets, &mut found) {
            Ok(true) => left = others,
            Ok(false) => return Err(fault_at(&line)),
            Err(_) => return Err(without_memory(&left)),
        }
    }
    Ok(found)
}

// The questions of a text, in its order.
fn all_asked(alloc: Global, text: &[u8]) -> Result<Vec<Vouched>, AnswersFault>
    ensures found { IfOk result (λ v. answers_of text.now ≡ Ok v.items) }
    ensures refused { IfErr result (λ f. (f ≡ record { rule = AnswersRule.OutOfMemory; line = 0 })
        ⊎ (answers_of text.now ≡ Err f)) }
    ensures memory { IfErr result (λ f. f.rule ≡ AnswersRule.OutOfMemory → IsOk (answers_of text.now)
        × (0 < length (question_lines text.now))) }
{
    let Some(lines) = Lines::under(text, FIRST_LINE) else {
        return Err(AnswersFault {
            rule: AnswersRule::Version,
            line: 1,
        });
    };
    asked_of_lines(alloc, lines)
}

impl Answers {
    /// The answers list that a text states: `cmsproof answers 1` and then a line for each question whose answer is yes,
    /// five fields in hexadecimal with one space between, in the order of `Question`, `-` for an empty one. Empty lines
    /// and lines that begin with `#` have no meaning.
    ///
    /// Errors: `Version`, or `Line` with the number of the first line of another form; `OutOfMemory` if memory is
    /// refused.
    pub fn read(alloc: Global, text: &[u8]) -> Result<Answers, AnswersFault>
        // It answers yes to the questions of the text's lines, each of which states one.
        ensures found { IfOk result (λ a. (asked : List Asked) × (answers_of text.now ≡ Ok asked)
            × ((q : Asked) → is_among a q ≡ is_among asked q)) }
        // A fault of a line is the text's first, and a lack of memory is reported without a line.
        ensures refused { IfErr result (λ f. (f ≡ record { rule = AnswersRule.OutOfMemory; line = 0 })
            ⊎ (answers_of text.now ≡ Err f)) }
        // A lack of memory is reported only if the text is an answers list with a question.
        ensures memory { IfErr result (λ f. f.rule ≡ AnswersRule.OutOfMemory → IsOk (answers_of text.now)
            × (0 < length (question_lines text.now))) }
    {
        let mut asked = all_asked(alloc, text)?;
        asked.sort_by(|first, second| order(&first.question(), &second.question()))?;
        Ok(Answers { asked })
    }
}

impl Verifier for Answers {
    ghost vouches = { λ a q. is_among a q };

    // It never fails.
    ghost failures = { λ _. 0 };

    // It keeps nothing of the questions.
    ghost asked_only = { λ _ a b. is_among b ≡ is_among a };

    ghost asked_nothing = { λ _ _. refl };

    ghost asked_further = { λ _ _ _ _ p q. q ∙ p };

    // The questions are in order, so the search takes as many steps as their number has binary digits.
    fn ask(&mut self, question: &Question<'_>) -> Result<bool, AskFault>
        // The answer says whether the question is one of these.
        ensures answer { IfOk result (λ b. b ≡ is_among self.old question.now) }
        // They are unchanged.
        ensures same { is_among self.new ≡ is_among self.old }
        // It never fails.
        ensures count { Counts result 0 0 }
        // It answers every question.
        ensures never { IsOk result }
    {
        let found = self
            .asked
            .as_slice()
            .binary_search_by(|vouched| order(&vouched.question(), question));
        Ok(found.is_ok())
    }
}
