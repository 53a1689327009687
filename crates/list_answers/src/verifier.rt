ghost use Rattle.std.specs.Prelude.{◌≡◌, ℕ, Bool, true, IfOk};
ghost use Rattle.devices.specs.Device.{Counts};
ghost use Rattle.list_answers.specs.Asking.{Asked};

use crate::question::Question;
use std::fmt;
use thiserror::Error;

/// A verifier did not answer.
#[derive(Clone, Copy, Debug, PartialEq, Eq, Error)]
pub struct AskFault;

impl fmt::Display for AskFault {
    ghost use Rattle.std.specs.Prelude.{Some, codes};

    ghost output = { λ _. Some (codes "an ask failed") };

    fn fmt<W: fmt::Write>(&self, f: &mut fmt::Formatter<W>) -> fmt::Result {
        f.write_str("an ask failed")
    }
}

/// A device that says which signatures are valid: a list of answers, or a key device that computes them.
pub trait Verifier {
    // Whether its answer about a signature is yes.
    ghost vouches: { Self → Asked → Bool };

    // How often it failed: a count of 64 bits that stays at its last value.
    ghost failures: { Self → ℕ };

    // From the first state to the second it was asked only questions for which the test is true.
    ghost asked_only: { (Asked → Bool) → Self → Self → Type 0 };

    // That holds if nothing was asked, and for one run of questions after another.
    ghost asked_nothing: { (test : Asked → Bool) (s : Self) → asked_only test s s };

    ghost asked_further: { (test : Asked → Bool) (s t u : Self) → asked_only test s t → asked_only test t u
        → asked_only test s u };

    /// Whether the signature that the question is about is valid.
    ///
    /// Errors: `AskFault`, when the device fails. The failure is counted.
    fn ask(&mut self, question: &Question<'_>) -> Result<bool, AskFault>
        // The answer is that of `vouches`.
        ensures answer { IfOk result (λ b. b ≡ vouches self.old question.now) }

        // `vouches` stays the same after any question.
        ensures same { vouches self.new ≡ vouches self.old }

        // A fault raises the count of failures by one, and an answer doesn't change it.
        ensures count { Counts result (failures self.old) (failures self.new) }

        // This question was asked, and no other.
        ensures only { (test : Asked → Bool) → test question.now ≡ true → asked_only test self.old self.new };
}
