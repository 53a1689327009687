ghost use Rattle.std.specs.Prelude.{◌≡◌, ◌↔◌, ◌⊎◌, ◌<◌, ◌≤◌, [], length, take, IfOk, IsErr};
ghost use Rattle.devices.specs.Device.{Counts, Hands, raised};

use devices::{Source, SourceFault};

/// A source that hands out what another source gives, but fails at the end of the other one. Tests use it as a device
/// that breaks in the middle. It is known what is still to come (`tells`) if that is known of the other source.
#[derive(Debug, Drop)]
pub struct Failing<S> {
    inner: S,
    /// How many times it has failed.
    pub failed: u64,
}

impl<S: Source> Failing<S> {
    /// The source over `inner`, with no failure so far.
    pub fn new(inner: S) -> Failing<S>
        // `tells` holds exactly when it holds of `inner`.
        ensures tells { ⟦<Failing<S> as Source>⟧.tells result ↔ S.tells inner }

        // What is still to come is what `inner` still has to come.
        ensures rest { ⟦<Failing<S> as Source>⟧.rest result ≡ S.rest inner }

        // It has not failed yet.
        ensures failures { ⟦<Failing<S> as Source>⟧.failures result ≡ 0 }
    {
        Failing { inner, failed: 0 }
    }
}

impl<S: Source> Source for Failing<S> {
    ghost rest = { λ s. S.rest s.inner };

    ghost tells = { λ s. S.tells s.inner };

    ghost failures = { λ s. s.failed };

    ghost octets = { λ s t. S.octets s.inner t };

    fn fill(&mut self, buf: &mut [u8]) -> Result<usize, SourceFault>
        // No more octets than there is room for.
        ensures bound { IfOk result (λ n. n ≤ length buf.new) }

        // It never reports the end: with room for an octet, it hands out at least one or fails.
        ensures some { 0 < length buf.new → IfOk result (λ n. 0 < n) }

        // It fails only if `inner` fails or has no more octets.
        ensures fails { IsErr result → S.tells self.old.inner
            → (S.failures self.new.inner ≡ raised (S.failures self.old.inner)) ⊎ (S.rest self.new.inner ≡ []) }

        // A fault raises the count of failures by one, and a success leaves it unchanged.
        ensures count { Counts result self.old.failed self.new.failed }

        // If it was known what is still to come, it still is.
        ensures telling { S.tells self.old.inner → S.tells self.new.inner }

        // The octets come from the front of `rest`, which then begins after them.
        ensures handed { S.tells self.old.inner → IfOk result
            (λ n. Hands (S.rest self.old.inner) (S.rest self.new.inner) (take n buf.new) (length buf.new)) }
    {
        match self.inner.fill(buf) {
            Ok(count) if count > 0 || buf.is_empty() => Ok(count),
            _ => {
                self.failed = self.failed.saturating_add(1);
                Err(SourceFault)
            }
        }
    }
}
