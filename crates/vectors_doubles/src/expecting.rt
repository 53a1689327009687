ghost use Rattle.std.specs.Prelude.{◌≡◌, ◌||◌, refl, Bool, true, false, not, IfOk};
ghost use Rattle.std.proofs.Common.{◌∙◌};
ghost use Rattle.devices.specs.Device.{Counts};
ghost use Rattle.list_answers.specs.Asking.{Asked, is_among};
ghost use Rattle.vectors_doubles.specs.Expecting.{AreExpected};

use list_answers::{Answers, AskFault, Question, Verifier};

/// A verifier that passes each question on to another one, and records whether a question was asked that isn't
/// expected. This shows which questions a caller asks at most.
#[derive(Debug, Drop)]
pub struct ExpectingVerifier<V> {
    inner: V,
    expected: Answers,
    /// Whether it was asked a question that isn't expected.
    pub surprised: bool,
}

impl<V: Verifier> ExpectingVerifier<V> {
    /// The verifier over `inner` that expects the questions of the list, with no surprise so far.
    pub fn new(inner: V, expected: Answers) -> ExpectingVerifier<V>
        // Its answers are those of the other verifier.
        ensures vouches { ⟦<ExpectingVerifier<V> as Verifier>⟧.vouches result ≡ V.vouches inner }

        // It failed as often as the other one.
        ensures failures { ⟦<ExpectingVerifier<V> as Verifier>⟧.failures result ≡ V.failures inner }

        // It asks the other one, expects these questions, and none was unexpected yet.
        ensures inner { result.inner ≡ inner }
        // It expects the questions of this list.
        ensures expected { is_among result.expected ≡ is_among expected }
        // No question was unexpected yet.
        ensures surprised { result.surprised ≡ false }
    {
        ExpectingVerifier {
            inner,
            expected,
            surprised: false,
        }
    }
}

impl<V: Verifier> Verifier for ExpectingVerifier<V> {
    ghost vouches = { λ s. V.vouches s.inner };

    ghost failures = { λ s. V.failures s.inner };

    // The other one was asked such questions only; and if all of these are expected, `surprised` didn't change.
    ghost asked_only = { λ test s t. V.asked_only test s.inner t.inner × (is_among t.expected ≡ is_among s.expected)
        × (AreExpected test (is_among s.expected) → s.surprised ≡ false → t.surprised ≡ false) };

    ghost asked_nothing = { λ test s. (V.asked_nothing test s.inner, refl, λ _ e. e) };

    ghost asked_further = { λ test s t u p q. (
      V.asked_further test s.inner t.inner u.inner p.0 q.0,
      q.1 ∙ p.1,
      λ all e. q.2 (λ a k. (λ i. p.1 i a) ∙ all a k) (p.2 all e),
    ) };

    fn ask(&mut self, question: &Question<'_>) -> Result<bool, AskFault>
        // The answer is that of the other verifier, whose answers stay the same.
        ensures answer { IfOk result (λ b. b ≡ V.vouches self.old.inner question.now) }
        // The answers of the other verifier stay the same.
        ensures same { V.vouches self.new.inner ≡ V.vouches self.old.inner }

        // It fails exactly if the other one does.
        ensures count { Counts result (V.failures self.old.inner) (V.failures self.new.inner) }

        // The other one was asked this question, and no other.
        ensures only { (test : Asked → Bool)
            → test question.now ≡ true → V.asked_only test self.old.inner self.new.inner }

        // The same questions are expected; after one that isn't among them `surprised` is set and stays set.
        ensures expected { is_among self.new.expected ≡ is_among self.old.expected }
        // A question that is not expected sets `surprised`, which then stays set.
        ensures surprised { self.new.surprised ≡ (self.old.surprised || not (is_among self.old.expected question.now)) }
    {
        if !matches!(self.expected.ask(question), Ok(true)) {
            self.surprised = true;
        }
        self.inner.ask(question)
    }
}
