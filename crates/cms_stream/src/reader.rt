ghost use Rattle.std.specs.Prelude.{◌≡◌, ◌+◌, ◌<◌, ◌≤◌, [], length, IfOk};
ghost use Rattle.cms_stream.specs.Passing.{Gained, IsAtHand};
ghost use Rattle.cms_stream.specs.Calls.{IsInBody, Asks, Meets, IsCall};
ghost use Rattle.cms_stream.specs.Parts.{Keeps, Pours, Hands, IsInWindow};

use crate::stream_fault::StreamFault;
use crate::taker::Taker;
use crate::window::Window;
use der_core::{Fault, Kind};
use devices::Source;

/// Where a pass over a source is: a position, counted from 0 at the source's front, with the octets from there on that
/// the source has already handed out. It keeps no other octets, and takes its source at each call.
#[derive(Drop)]
pub(crate) struct Reader {
    pub(crate) window: Window,
    pub(crate) at: u64,
}

const LOST: Fault = Fault {
    kind: Kind::Overrun,
    at: 0,
};

impl Reader {
    /// At the front of a source, before any octet is handed out.
    pub(crate) fn new() -> Reader
        ensures window { result.window ≡ [] }
        ensures at { result.at ≡ 0 }
    {
        Reader {
            window: Window::new(),
            at: 0,
        }
    }

    /// Goes to the front of another source, before any octet of it is handed out: what an earlier one handed out, and
    /// was not passed, is none of its octets.
    pub(crate) fn restart(&mut self)
        ensures window { self.new.window ≡ [] }
        ensures at { self.new.at ≡ 0 }
    {
        self.window.clear();
        self.at = 0;
    }

    /// Asks the source until `count` octets are at hand, or all if fewer are to come.
    pub(crate) fn look<S: Source>(
        &mut self,
        source: &mut S,
        count: usize,
    ) -> Result<(), StreamFault>
        requires { count ≤ 6 }
        ensures asks { IsCall Asks S.Source self.old source.old result self.new source.new }
        ensures looked { IfOk result (λ _. S.tells source.old → IsAtHand count self.new.window (S.rest source.new)) }
    {
        while self.window.bytes().len() < count {
            match self.window.fill(source) {
                Ok(0) => return Ok(()),
                Ok(_) => {}
                Err(_) => return Err(StreamFault::ReadFailed),
            }
        }
        Ok(())
    }

    /// How many octets are at hand, of those that are left of a body that doesn't end here: at least one.
    ///
    /// Faults: `Overrun` at 0 if none are to come.
    pub(crate) fn piece<S: Source>(
        &mut self,
        source: &mut S,
        end: u64,
    ) -> Result<usize, StreamFault>
        requires { self.old.at < end }
        ensures meets { IsCall Meets S.Source self.old source.old result self.new source.new }
        ensures some { IfOk result (λ n. (0 < n) × (n ≤ length self.new.window) × (self.new.at + n ≤ end)) }
    {
        self.look(source, 1)?;
        let left = end - self.at;
        let count = left.min(self.window.bytes().len() as u64) as usize;
        if count == 0 {
            return Err(StreamFault::Malformed(LOST));
        }
        Ok(count)
    }

    /// Hands the first `count` octets at hand to a taker.
    pub(crate) fn hand<K: Taker>(&mut self, count: usize, taker: &mut K)
        requires { IsInWindow self.old count }
        ensures { Hands count K.Taker self.old taker.old self.new taker.new }
    {
        taker.take(&self.window.bytes()[..count]);
        self.window.pass(count);
        self.at += count as u64;
    }

    /// Hands all octets that are left of a body to a taker, piece by piece.
    ///
    /// Faults: those of `piece`.
    pub(crate) fn pour<S: Source, K: Taker>(
        &mut self,
        source: &mut S,
        end: u64,
        taker: &mut K,
    ) -> Result<(), StreamFault>
        requires { IsInBody self.old end }
        ensures { IsCall (Pours (Gained K.Taker taker.old taker.new) end)
            S.Source self.old source.old result self.new source.new }
    {
        while self.at < end {
            let count = self.piece(source, end)?;
            self.hand(count, taker);
        }
        Ok(())
    }

    /// Keeps all octets that are left of a body, for which the room is exactly large enough.
    ///
    /// Faults: those of `piece`.
    pub(crate) fn keep<S: Source>(
        &mut self,
        source: &mut S,
        end: u64,
        room: &mut [u8],
    ) -> Result<(), StreamFault>
        requires body { IsInBody self.old end }
        requires size { self.old.at + length room.old ≡ end }
        ensures { IsCall (Keeps room.old room.new end) S.Source self.old source.old result self.new source.new }
    {
        let mut done = 0;
        while done < room.len() {
            let count = self.piece(source, end)?;
            room[done..done + count].copy_from_slice(&self.window.bytes()[..count]);
            self.window.pass(count);
            self.at += count as u64;
            done += count;
        }
        Ok(())
    }
}
