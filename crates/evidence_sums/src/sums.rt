ghost use Rattle.std.specs.Prelude.{◌≡◌, ◌⊎◌, ◌∷◌, [], Ok, Err, not, IfOk, IfErr, IfSome, IsOk, MatchOption, is_some};
ghost use Rattle.evidence_sums.specs.Names.{unescaped};
ghost use Rattle.evidence_sums.specs.Sums.{sums_of, well_formed};
ghost use Rattle.evidence_sums.specs.Written.{needs_escape};

use crate::lines::first_line;
use crate::names::unescaped;
use crate::repeats::name_again;
use crate::sum_lines::{digits_in, escaped_in, is_marked};
use crate::sums_fault::{SumsFault, SumsRule};
use crate::testing::test;
use digests::{Alg, Digest};
use list_answers::decode;
use std::alloc::{AllocError, Global};
use std::marker::Model;

/// A line of a text of sums: the digest of a file, and its name. It copies nothing of the text.
///
/// Contracts see a `SumValue` (`specs/SumLines.antt`).
#[derive(Debug, Drop)]
pub struct Sum<'a> {
    pub(crate) alg: Alg,
    pub(crate) line: &'a [u8],
}

impl<'a> Model for Sum<'a> {
    ghost use Rattle.std.specs.Prelude.{◌≡◌, true};
    ghost use Rattle.evidence_sums.specs.SumLines.{SumValue, is_sum_line, sum_in};

    ghost Value = { SumValue };

    ghost view = { λ s. sum_in s.alg s.line.now };

    ghost invariant = { λ s. is_sum_line s.alg s.line.now ≡ true };
}

/// The lines of a text of sums, from one of them on.
///
/// Contracts see what they state, in their order.
#[derive(Debug, Drop)]
pub struct Sums<'a> {
    alg: Alg,
    left: &'a [u8],
}

impl<'a> Model for Sums<'a> {
    ghost use Rattle.std.specs.Prelude.{◌≡◌, true, List, map};
    ghost use Rattle.std.specs.List.{list_all};
    ghost use Rattle.evidence_sums.specs.Lines.{lines_of};
    ghost use Rattle.evidence_sums.specs.SumLines.{SumValue, is_sum_line, sum_in};

    ghost Value = { List SumValue };

    ghost view = { λ s. map (sum_in s.alg) (lines_of s.left.now) };

    ghost invariant = { λ s. list_all (is_sum_line s.alg) (lines_of s.left.now) ≡ true };
}

impl<'a> Sums<'a> {
    /// What a text of sums by this algorithm states: lines as `sha256sum` and its kin write them, each with a digest in
    /// hexadecimal digits of either case, two spaces, or a space and `*`, and a name. If the name has a backslash, LF
    /// or CR, these stand as `\\`, `\n` and `\r`, and a backslash begins the line. The last line may lack its LF.
    ///
    /// Errors: `Line` with the number of the first line of another form; `Empty`; `Name` with the first line whose name
    /// is none of a file below a folder; `NameTwice` with the first whose name is that of a line before it; and
    /// `OutOfMemory` if memory is refused.
    pub fn read(alloc: Global, alg: Alg, text: &'a [u8]) -> Result<Sums<'a>, SumsFault>
        // The text states these, in this order.
        ensures found { IfOk result (λ s. sums_of alg text.now ≡ Ok s) }
        // A fault is the text's first, and a lack of memory is reported without a line.
        ensures refused { IfErr result (λ f. (f ≡ record { rule = SumsRule.OutOfMemory; line = 0 })
            ⊎ (sums_of alg text.now ≡ Err f)) }
        // A lack of memory is reported only if nothing but a name that is there twice can be wrong.
        ensures memory { IfErr result (λ f. f.rule ≡ SumsRule.OutOfMemory → IsOk (well_formed alg text.now)) }
    {
        test(alg, false, text)?;
        match name_again(alloc, alg, false, text)? {
            Some(line) => Err(SumsFault {
                rule: SumsRule::NameTwice,
                line,
            }),
            None => Ok(Sums { alg, left: text }),
        }
    }

    /// The same lines once more.
    pub fn again(&self) -> Sums<'a>
        ensures { result ≡ self.now }
    {
        Sums {
            alg: self.alg,
            left: self.left,
        }
    }

    /// The first of the lines, and the others.
    pub fn next(&self) -> Option<(Sum<'a>, Sums<'a>)>
        ensures { MatchOption result (self.now ≡ []) (λ x. self.now ≡ x.0 ∷ x.1) }
    {
        if self.left.is_empty() {
            return None;
        }
        let (line, left) = first_line(self.left);
        let alg = self.alg;
        Some((Sum { alg, line }, Sums { alg, left }))
    }
}

impl<'a> Sum<'a> {
    /// The digest.
    ///
    /// Errors: memory is refused.
    #[tactic(auto, using(crate::proofs::GoodLines::digest_length, crate::proofs::GoodLines::digest_is))]
    pub fn digest(&self, alloc: Global) -> Result<Digest, AllocError>
        ensures { IfOk result (λ d. d ≡ self.now.digest) }
    {
        let Some(octets) = decode(alloc, digits_in(self.alg, self.line))? else {
            unreachable!();
        };
        let Some(digest) = Digest::given(self.alg, &octets) else {
            unreachable!();
        };
        Ok(digest)
    }

    /// The name, if it stands in the line as it is.
    #[tactic(auto, using(crate::proofs::GoodLines::marked_needs, crate::proofs::GoodLines::plain_there))]
    pub fn plain_name(&self) -> Option<&'a [u8]>
        // It is the name.
        ensures found { IfSome result (λ name. name.now ≡ self.now.name) }
        // It is there exactly if the name can be written as it is.
        ensures plain { is_some result ≡ not (needs_escape self.now.name) }
    {
        if is_marked(self.line) {
            None
        } else {
            Some(escaped_in(self.alg, self.line))
        }
    }

    /// The name.
    ///
    /// Errors: memory is refused.
    pub fn name(&self, alloc: Global) -> Result<Vec<u8>, AllocError>
        ensures { IfOk result (λ name. name.items ≡ self.now.name) }
    {
        unescaped(alloc, escaped_in(self.alg, self.line))
    }
}
