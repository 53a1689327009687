//! Texts of sums with lines that continue the record of the line before them.
ghost use Rattle.std.specs.Prelude.{◌≡◌, ◌<◌, ◌⊎◌, ◌∷◌, List, [], Ok, Err, All, IfOk, IfErr, IsOk, MatchOption};
ghost use Rattle.std.specs.Prelude.{length};
ghost use Rattle.digests.specs.Digests.{alg_of};
ghost use Rattle.digests.specs.declared.value.Digest.{Digest};
ghost use Rattle.evidence_sums.specs.Lines.{lines_of};
ghost use Rattle.evidence_sums.specs.Records.{records_of, well_recorded};
ghost use Rattle.evidence_sums.specs.Walks.{behind_continued};

use crate::lines::{behind, first_line};
use crate::repeats::name_again;
use crate::sum_lines::continues;
use crate::sums::Sum;
use crate::sums_fault::{SumsFault, SumsRule};
use crate::testing::test;
use digests::{Alg, Digest};
use std::alloc::{AllocError, Global};
use std::marker::Model;

/// A record of a text of sums: its name, and the digests of its lines. It copies nothing of the text.
///
/// Contracts see a `RecordValue` (`specs/Records.antt`).
#[derive(Debug, Drop)]
pub struct RecordSum<'a> {
    alg: Alg,
    line: &'a [u8],
    others: &'a [u8],
}

impl<'a> Model for RecordSum<'a> {
    ghost use Rattle.std.specs.Prelude.{◌≡◌, true};
    ghost use Rattle.std.specs.List.{list_all};
    ghost use Rattle.evidence_sums.specs.Lines.{lines_of};
    ghost use Rattle.evidence_sums.specs.SumLines.{is_sum_line};
    ghost use Rattle.evidence_sums.specs.Records.{RecordValue, is_record_line, record_of};

    ghost Value = { RecordValue };

    ghost view = { λ r. record_of r.alg r.line.now (lines_of r.others.now) };

    ghost invariant = { λ r. (is_sum_line r.alg r.line.now ≡ true)
        × (list_all (is_record_line r.alg) (lines_of r.others.now) ≡ true) };
}

/// The records of a text of sums, from one of its lines on.
///
/// Contracts see what they state, in their order.
#[derive(Debug, Drop)]
pub struct RecordSums<'a> {
    alg: Alg,
    left: &'a [u8],
}

impl<'a> Model for RecordSums<'a> {
    ghost use Rattle.std.specs.Prelude.{◌≡◌, true, List};
    ghost use Rattle.std.specs.List.{list_all};
    ghost use Rattle.evidence_sums.specs.Lines.{lines_of};
    ghost use Rattle.evidence_sums.specs.Records.{RecordValue, is_record_line, records_in};

    ghost Value = { List RecordValue };

    ghost view = { λ s. records_in s.alg (lines_of s.left.now) };

    ghost invariant = { λ s. list_all (is_record_line s.alg) (lines_of s.left.now) ≡ true };
}

// The text from its first line on that begins a record.
fn behind_continued(text: &[u8]) -> &[u8]
    ensures { lines_of result.now ≡ behind_continued (lines_of text.now) }
{
    let mut left = text;
    while !left.is_empty() {
        let (line, others) = first_line(left);
        if !continues(line) {
            return left;
        }
        left = others;
    }
    left
}

impl<'a> RecordSums<'a> {
    /// What a text of sums by this algorithm states, in which a line that begins with a space continues the record of
    /// the line before it. All else is as `Sums::read` has it.
    ///
    /// Errors: as of `Sums::read`, where the names are those of the lines that begin a record; `Line` with the first
    /// line too if it begins with a space.
    pub fn read(alloc: Global, alg: Alg, text: &'a [u8]) -> Result<RecordSums<'a>, SumsFault>
        // The text states these, in this order.
        ensures found { IfOk result (λ s. records_of alg text.now ≡ Ok s) }
        // A fault is the text's first, and a lack of memory is reported without a line.
        ensures refused { IfErr result (λ f. (f ≡ record { rule = SumsRule.OutOfMemory; line = 0 })
            ⊎ (records_of alg text.now ≡ Err f)) }
        // A lack of memory is reported only if nothing but a name that is there twice can be wrong.
        ensures memory { IfErr result (λ f. f.rule ≡ SumsRule.OutOfMemory → IsOk (well_recorded alg text.now)) }
    {
        test(alg, true, text)?;
        match name_again(alloc, alg, true, text)? {
            Some(line) => Err(SumsFault {
                rule: SumsRule::NameTwice,
                line,
            }),
            None => Ok(RecordSums { alg, left: text }),
        }
    }

    /// The same records once more.
    pub fn again(&self) -> RecordSums<'a>
        ensures { result ≡ self.now }
    {
        RecordSums {
            alg: self.alg,
            left: self.left,
        }
    }

    /// The first of the records, and the others.
    pub fn next(&self) -> Option<(RecordSum<'a>, RecordSums<'a>)>
        ensures { MatchOption result (self.now ≡ []) (λ x. self.now ≡ x.0 ∷ x.1) }
    {
        let left = behind_continued(self.left);
        if left.is_empty() {
            return None;
        }
        let (line, others) = first_line(left);
        let alg = self.alg;
        Some((
            RecordSum { alg, line, others },
            RecordSums { alg, left: others },
        ))
    }
}

impl<'a> RecordSum<'a> {
    /// What the line states that begins the record.
    pub fn first(&self) -> Sum<'a>
        // It states the name of the record.
        ensures name { result.name ≡ self.now.name }
        // It states the first of its digests.
        ensures digest { (others : List Digest) × (self.now.digests ≡ result.digest ∷ others) }
    {
        Sum {
            alg: self.alg,
            line: self.line,
        }
    }

    /// The name.
    ///
    /// Errors: memory is refused.
    pub fn name(&self, alloc: Global) -> Result<Vec<u8>, AllocError>
        ensures { IfOk result (λ name. name.items ≡ self.now.name) }
    {
        self.first().name(alloc)
    }

    /// The algorithm of the digests.
    pub fn alg(&self) -> Alg
        ensures { result ≡ self.now.alg }
    {
        self.alg
    }

    /// The digests of the lines, in their order.
    ///
    /// Errors: memory is refused.
    pub fn digests(&self, alloc: Global) -> Result<Vec<Digest>, AllocError>
        // All are returned.
        ensures found { IfOk result (λ digests. digests.items ≡ self.now.digests) }
        // They are by the algorithm.
        ensures by { IfOk result (λ digests. All (λ d. alg_of d ≡ self.now.alg) digests.items) }
        // There is one.
        ensures some { IfOk result (λ digests. 0 < length digests.items) }
    {
        let mut digests = Vec::new(alloc);
        let first = Sum {
            alg: self.alg,
            line: self.line,
        };
        digests.push(first.digest(alloc)?)?;
        let mut left = self.others;
        while !left.is_empty() {
            let (line, others) = first_line(left);
            if !continues(line) {
                return Ok(digests);
            }
            let sum = Sum {
                alg: self.alg,
                line: behind(line, 1),
            };
            digests.push(sum.digest(alloc)?)?;
            left = others;
        }
        Ok(digests)
    }
}
