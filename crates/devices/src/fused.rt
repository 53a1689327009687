ghost use Rattle.std.specs.Prelude.{◌≡◌, ◌-◌, ◌++◌, ◌<◌, ◌≤◌, length, take, IfOk, IsErr, OnErr};
ghost use Rattle.devices.specs.Device.{Counts, Hands, Takes};

use crate::sink::{Sink, SinkFault};
use crate::source::{Source, SourceFault};

/// A source or a sink that passes a given number of calls to another one, and fails at each later call. Tests use it as
/// a device that breaks in the middle. It is known what is still to come, or what was taken (`tells`), if that is known
/// of the other device.
#[derive(Debug, Drop)]
pub struct Fused<S> {
    inner: S,
    /// How many calls it still passes on.
    pub left: u64,
    /// How many times it has failed.
    pub failed: u64,
}

impl<S> Fused<S> {
    /// The device over `inner` that passes `calls` calls on, with no failure so far.
    pub fn new(inner: S, calls: u64) -> Fused<S>
        // This many calls go to `inner`. What is still to come, what was taken and `tells` are those of `inner`.
        ensures inner { result.inner ≡ inner }
        // It passes this many calls on.
        ensures left { result.left ≡ calls }

        // It has not failed yet.
        ensures failed { result.failed ≡ 0 }
    {
        Fused {
            inner,
            left: calls,
            failed: 0,
        }
    }
}

impl<S: Source> Source for Fused<S> {
    ghost rest = { λ s. S.rest s.inner };

    ghost tells = { λ s. S.tells s.inner };

    ghost failures = { λ s. s.failed };

    ghost octets = { λ s t. S.octets s.inner t };

    fn fill(&mut self, buf: &mut [u8]) -> Result<usize, SourceFault>
        // No more octets than there is room for.
        ensures bound { IfOk result (λ n. n ≤ length buf.new) }

        // A fault, that of `inner` or its own, raises the count of failures by one. A success leaves it unchanged.
        ensures count { Counts result self.old.failed self.new.failed }

        // If it was known what is still to come, it still is.
        ensures telling { S.tells self.old.inner → S.tells self.new.inner }

        // The octets come from the front of `rest`, which then begins after them. If there is room, none come only at
        // the end.
        ensures handed { S.tells self.old.inner → IfOk result
            (λ n. Hands (S.rest self.old.inner) (S.rest self.new.inner) (take n buf.new) (length buf.new)) }

        // Each call is one less to pass on.
        ensures left { self.new.left ≡ self.old.left - 1 }

        // As long as calls are passed on, it fails exactly if `inner` does.
        ensures passed { 0 < self.old.left → Counts result (S.failures self.old.inner) (S.failures self.new.inner) }

        // Later it fails, and `inner` is not called.
        ensures fused { self.old.left ≡ 0 → IsErr result }
        // Later `inner` is unchanged.
        ensures uncalled { self.old.left ≡ 0 → self.new.inner ≡ self.old.inner }
    {
        if self.left > 0 {
            self.left -= 1;
            if let Ok(count) = self.inner.fill(buf) {
                return Ok(count);
            }
        }
        self.failed = self.failed.saturating_add(1);
        Err(SourceFault)
    }
}

impl<S: Sink> Sink for Fused<S> {
    ghost taken = { λ s. S.taken s.inner };

    ghost tells = { λ s. S.tells s.inner };

    ghost failures = { λ s. s.failed };

    fn put(&mut self, bytes: &[u8]) -> Result<usize, SinkFault>
        // No more than there are, and at least one unless there are none.
        ensures some { IfOk result (Takes (length bytes.now)) }

        // A fault, that of `inner` or its own, raises the count of failures by one. A success leaves it unchanged.
        ensures count { Counts result self.old.failed self.new.failed }

        // If it was known what was taken, it still is.
        ensures telling { S.tells self.old.inner → S.tells self.new.inner }

        // The octets that are taken come from the front of `bytes`, and follow what was taken before.
        ensures taken { S.tells self.old.inner
            → IfOk result (λ n. S.taken self.new.inner ≡ S.taken self.old.inner ++ take n bytes.now) }

        // After a fault none of the octets is taken.
        ensures none { S.tells self.old.inner → OnErr result (S.taken self.new.inner ≡ S.taken self.old.inner) }

        // Each call is one less to pass on.
        ensures left { self.new.left ≡ self.old.left - 1 }

        // As long as calls are passed on, it fails exactly if `inner` does.
        ensures passed { 0 < self.old.left → Counts result (S.failures self.old.inner) (S.failures self.new.inner) }

        // Later it fails, and `inner` is not called.
        ensures fused { self.old.left ≡ 0 → IsErr result }
        // Later `inner` is unchanged.
        ensures uncalled { self.old.left ≡ 0 → self.new.inner ≡ self.old.inner }
    {
        if self.left > 0 {
            self.left -= 1;
            if let Ok(count) = self.inner.put(bytes) {
                return Ok(count);
            }
        }
        self.failed = self.failed.saturating_add(1);
        Err(SinkFault)
    }
}
