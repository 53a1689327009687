ghost use Rattle.std.specs.Prelude.{◌≡◌, ◌↔◌, ◌-◌, ◌++◌, ◌<◌, ◌≤◌, length, take, IfOk, IsErr, OnErr};
ghost use Rattle.devices.specs.Device.{Counts, Takes};

use crate::sink::{Sink, SinkFault};

/// A sink over another one that passes on at most a given number of octets at each call, has room for a given number of
/// octets in all, and fails at each call once it is full. Tests use it as a device that fills up. It is known what it
/// has taken (`tells`) if that is known of the other sink.
#[derive(Debug, Drop)]
pub struct Limited<S> {
    inner: S,
    /// How many octets it passes on at most at each call.
    piece: usize,
    /// How many more octets it has room for.
    pub room: usize,
    /// How many times it has failed.
    pub failed: u64,

    // At least one octet may be passed on.
    ghost some: { 0 < piece },
}

impl<S: Sink> Limited<S> {
    /// The sink over `inner` that passes on at most `piece` octets at each call and `room` octets in all, with no
    /// failure so far.
    pub fn new(inner: S, piece: usize, room: usize) -> Limited<S>
        // At least one octet at each call.
        requires some { 0 < piece }

        // `tells` holds exactly when it holds of `inner`.
        ensures tells { ⟦<Limited<S> as Sink>⟧.tells result ↔ S.tells inner }

        // What it has taken is what `inner` has taken.
        ensures taken { ⟦<Limited<S> as Sink>⟧.taken result ≡ S.taken inner }

        // It has not failed yet.
        ensures failures { ⟦<Limited<S> as Sink>⟧.failures result ≡ 0 }

        // The octets go to `inner`, at most `piece` at each call and `room` in all.
        ensures inner { result.inner ≡ inner }
        // It passes on at most this many octets at each call.
        ensures piece { result.piece ≡ piece }
        // It has room for this many octets.
        ensures room { result.room ≡ room }
    {
        Limited {
            inner,
            piece,
            room,
            failed: 0,
        }
    }
}

impl<S: Sink> Sink for Limited<S> {
    ghost taken = { λ s. S.taken s.inner };

    ghost tells = { λ s. S.tells s.inner };

    ghost failures = { λ s. s.failed };

    fn put(&mut self, bytes: &[u8]) -> Result<usize, SinkFault>
        // No more than there are, and at least one unless there are none.
        ensures some { IfOk result (Takes (length bytes.now)) }

        // A fault, that of `inner` or its own, raises the count of failures by one. A success leaves it unchanged.
        ensures count { Counts result self.old.failed self.new.failed }

        // If it was known what was taken, it still is.
        ensures telling { S.tells self.old.inner → S.tells self.new.inner }

        // The octets that are taken come from the front of `bytes`, and follow what was taken before.
        ensures taken { S.tells self.old.inner
            → IfOk result (λ n. S.taken self.new.inner ≡ S.taken self.old.inner ++ take n bytes.now) }

        // After a fault none of the octets is taken.
        ensures none { S.tells self.old.inner → OnErr result (S.taken self.new.inner ≡ S.taken self.old.inner) }

        // No more than a piece is taken, and no more than there is room for. The length of a piece does not change.
        ensures piece { IfOk result (λ n. n ≤ self.old.piece) }
        // No more are taken than there is room for.
        ensures bound { IfOk result (λ n. n ≤ self.old.room) }
        // The length of a piece does not change.
        ensures same { self.new.piece ≡ self.old.piece }

        // The octets that are taken leave so much less room, and a fault leaves the room unchanged.
        ensures room { IfOk result (λ n. self.new.room ≡ self.old.room - n) }
        // A fault leaves the room unchanged.
        ensures unused { OnErr result (self.new.room ≡ self.old.room) }

        // As long as there is room, it fails exactly if `inner` does.
        ensures passed { 0 < self.old.room → Counts result (S.failures self.old.inner) (S.failures self.new.inner) }

        // Once it is full it fails, and `inner` is not called.
        ensures full { self.old.room ≡ 0 → IsErr result }
        // Once it is full, `inner` is unchanged.
        ensures uncalled { self.old.room ≡ 0 → self.new.inner ≡ self.old.inner }
    {
        let most = bytes.len().min(self.piece).min(self.room);
        if self.room > 0 {
            if let Ok(count) = self.inner.put(&bytes[..most]) {
                self.room -= count;
                return Ok(count);
            }
        }
        self.failed = self.failed.saturating_add(1);
        Err(SinkFault)
    }
}
