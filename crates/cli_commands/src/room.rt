//! How many octets are kept of a file that is read in pieces. Decision 244 of `docs/DECISIONS.md`.
ghost use Rattle.std.specs.Prelude.{◌≡◌, ◌≤◌, ◌<◌, ◌*◌, ◌⊎◌, None, Some, IfSome};
ghost use Rattle.cli_commands.specs.Rooms.{IsLimit};

/// The most octets that are kept of a file that can be read again, if the words don't say: 64 MiB.
const MOST_AGAIN: u64 = 67_108_864;

/// The same of what can be read only once: 1 MiB.
const MOST_ONCE: u64 = 1_048_576;

/// How much room the first pass over a long file has.
const FIRST: u64 = 1_048_576;

/// How much room a pass has at least, if it may: some files don't say how long they are.
const LEAST: u64 = 4_096;

/// How many octets of a file may be kept.
pub fn limit_of(said: Option<u64>, again: bool) -> u64
    ensures { IsLimit said again result }
{
    match said {
        Some(octets) => octets,
        None if again => MOST_AGAIN,
        None => MOST_ONCE,
    }
}

/// How much room a pass over a file has.
#[derive(Clone, Copy)]
pub struct Rooms {
    /// The room of the pass.
    pub now: u64,
    /// What it has unless the file says that it is shorter.
    pub step: u64,
}

impl Rooms {
    /// Those of the first pass over a file: if it can be read again, what it says that it is long, from 4 KiB to 1 MiB;
    /// otherwise all that may be kept.
    pub fn first(stated: Option<u64>, limit: u64) -> Rooms
        ensures step { result.now ≡ result.step }
        ensures within { result.step ≤ limit }
        // What can be read only once has all the room at once.
        ensures once { stated ≡ None → result.now ≡ limit }
    {
        let room = match stated {
            Some(length) => length.max(LEAST).min(FIRST).min(limit),
            None => limit,
        };
        Rooms {
            now: room,
            step: room,
        }
    }

    /// Those of the pass after this one: it has the room of the next step, which is eight times this room, and at least
    /// 8 MiB, if it may; or as much as the file says that it is long, if that is less, since no more octets can be kept
    /// than there are. If even that is too little, the file is shorter than its elements state, or it grew after it was
    /// asked: then the pass after it has the whole step.
    pub fn next(self, stated: Option<u64>, limit: u64) -> Rooms
        requires now { self.now < limit }
        requires step { self.step ≤ limit }
        ensures more { self.now < result.now }
        // No pass has more room than its step.
        ensures most { result.now ≤ result.step }
        // It has its step's room, or what the file says that it is long.
        ensures room { (result.now ≡ result.step) ⊎ (stated ≡ Some result.now) }
        // The first one of a step has no more than that, unless the one before it had as much.
        ensures length { self.step ≤ self.now → IfSome stated (λ l. (l ≤ self.now) ⊎ (result.now ≤ l)) }
        ensures within { result.step ≤ limit }
        // A step is left out by no pass.
        ensures whole { self.now < self.step → (result.now ≡ self.step) × (result.step ≡ self.step) }
        // So there are few passes, however long the file is.
        ensures eight { self.now ≡ self.step → (result.step ≡ limit) ⊎ (8 * self.step ≤ result.step) }
    {
        if self.now < self.step {
            return Rooms {
                now: self.step,
                step: self.step,
            };
        }
        let step = self.now.max(FIRST).saturating_mul(8).min(limit);
        match stated {
            Some(length) if self.now < length => Rooms {
                now: length.min(step),
                step,
            },
            _ => Rooms { now: step, step },
        }
    }
}
