ghost use Rattle.std.specs.Prelude.{◌≡◌, ◌-◌, ◌<◌, Bool, true, IfOk, IsErr};
ghost use Rattle.devices.specs.Device.{Counts};
ghost use Rattle.list_answers.specs.Asking.{Asked};

use crate::question::Question;
use crate::verifier::{AskFault, Verifier};

/// A verifier that passes a given number of questions to another one, and fails at each later one. Tests use it as a
/// device that breaks in the middle.
#[derive(Debug, Drop)]
pub struct FusedVerifier<V> {
    inner: V,
    /// How many questions it still passes on.
    pub left: u64,
    /// How often it failed.
    pub failed: u64,
}

impl<V: Verifier> FusedVerifier<V> {
    /// The verifier over `inner` that passes `calls` questions on, with no failure so far.
    pub fn new(inner: V, calls: u64) -> FusedVerifier<V>
        // Its answers are those of the other verifier.
        ensures vouches { ⟦<FusedVerifier<V> as Verifier>⟧.vouches result ≡ V.vouches inner }

        // Nothing failed yet.
        ensures failures { ⟦<FusedVerifier<V> as Verifier>⟧.failures result ≡ 0 }

        // It asks the other one, this many times.
        ensures inner { result.inner ≡ inner }
        // It passes this many questions on.
        ensures left { result.left ≡ calls }
    {
        FusedVerifier {
            inner,
            left: calls,
            failed: 0,
        }
    }
}

impl<V: Verifier> Verifier for FusedVerifier<V> {
    ghost vouches = { λ s. V.vouches s.inner };

    ghost failures = { λ s. s.failed };

    // It was asked exactly the questions that the other one was asked.
    ghost asked_only = { λ test s t. V.asked_only test s.inner t.inner };

    ghost asked_nothing = { λ test s. V.asked_nothing test s.inner };

    ghost asked_further = { λ test s t u p q. V.asked_further test s.inner t.inner u.inner p q };

    fn ask(&mut self, question: &Question<'_>) -> Result<bool, AskFault>
        // The answer is that of the other verifier, whose answers stay the same.
        ensures answer { IfOk result (λ b. b ≡ V.vouches self.old.inner question.now) }
        // The answers of the other verifier stay the same.
        ensures same { V.vouches self.new.inner ≡ V.vouches self.old.inner }

        // A fault raises the count of failures by one, and an answer doesn't change it.
        ensures count { Counts result self.old.failed self.new.failed }

        // The other one was asked this question, and no other.
        ensures only { (test : Asked → Bool)
            → test question.now ≡ true → V.asked_only test self.old.inner self.new.inner }

        // Each question is one less to pass on.
        ensures left { self.new.left ≡ self.old.left - 1 }

        // As long as some are left, it fails only if the other one does.
        ensures passed { 0 < self.old.left → Counts result (V.failures self.old.inner) (V.failures self.new.inner) }

        // Afterwards it fails, and the other one isn't asked.
        ensures fused { self.old.left ≡ 0 → IsErr result }
        // Once none are left, the other one is unchanged.
        ensures unasked { self.old.left ≡ 0 → self.new.inner ≡ self.old.inner }
    {
        if self.left > 0 {
            self.left -= 1;
            if let Ok(answer) = self.inner.ask(question) {
                return Ok(answer);
            }
        }
        self.failed = self.failed.saturating_add(1);
        Err(AskFault)
    }
}
