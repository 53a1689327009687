ghost use Rattle.std.specs.Prelude.{◌≡◌, ◌↔◌, ⊤, ℕ, ◌<◌, ◌≤◌, List, [], length, take, IfOk, IsSome, unwrap_or};
ghost use Rattle.devices.specs.Device.{AreOctets, Counts, Hands};

use std::fmt;
use std::io::Read;
use thiserror::Error;

/// The device failed to give octets.
#[derive(Clone, Copy, Debug, PartialEq, Eq, Error)]
pub struct SourceFault;

impl fmt::Display for SourceFault {
    ghost use Rattle.std.specs.Prelude.{Some, codes};

    ghost output = { λ _. Some (codes "a read failed") };

    fn fmt<W: fmt::Write>(&self, f: &mut fmt::Formatter<W>) -> fmt::Result {
        f.write_str("a read failed")
    }
}

/// A device that gives octets, such as a file or a slice.
pub trait Source {
    // The octets that are still to come, if `tells` holds.
    ghost rest: { Self → List ℕ };

    // `tells`: whether it is known which octets are still to come.
    ghost tells: { Self → Type 0 };

    // How many times it has failed: a count of 64 bits that stays at its highest value.
    ghost failures: { Self → ℕ };

    /// Writes the next octets to the front of `buf`, and returns how many: any number that `buf` has room for. If `buf`
    /// has room, 0 means the end. The octets of `buf` after them may be anything.
    ///
    /// Errors: `SourceFault`, if the device fails. The failure is counted. The octets of `buf`, and those still to
    /// come, may then be anything.
    fn fill(&mut self, buf: &mut [u8]) -> Result<usize, SourceFault>
        // No more octets than there is room for.
        ensures bound { IfOk result (λ n. n ≤ length buf.new) }

        // A fault raises the count of failures by one, and a success leaves it unchanged.
        ensures count { Counts result (failures self.old) (failures self.new) }

        // If it was known what is still to come, it still is.
        ensures telling { tells self.old → tells self.new }

        // The octets come from the front of `rest`, which then begins after them. If there is room, none come only at
        // the end.
        ensures handed { tells self.old
            → IfOk result (λ n. Hands (rest self.old) (rest self.new) (take n buf.new) (length buf.new)) };

    // What is still to come is a list of octets.
    ghost octets: { (s : Self) → tells s → AreOctets (rest s) };
}

/// A source over a slice. It is always known what is still to come, and it never fails.
#[derive(Debug, Drop)]
pub struct Slice<'a> {
    left: &'a [u8],

    // They are octets.
    ghost octets: { AreOctets left.now },
}

impl<'a> Slice<'a> {
    /// The source of the octets of `bytes`, with no failure so far.
    pub fn new(bytes: &'a [u8]) -> Slice<'a>
        // It is known what is still to come.
        ensures tells { ⟦<Slice<'a> as Source>⟧.tells result }

        // All of the octets are still to come.
        ensures rest { ⟦<Slice<'a> as Source>⟧.rest result ≡ bytes.now }

        // It has not failed yet.
        ensures failures { ⟦<Slice<'a> as Source>⟧.failures result ≡ 0 }
    {
        Slice { left: bytes }
    }
}

impl<'a> Source for Slice<'a> {
    ghost rest = { λ s. s.left.now };

    ghost tells = { λ _. ⊤ };

    // It never fails.
    ghost failures = { λ _. 0 };

    ghost octets = { λ s _. s.octets };

    // As many octets as there is room for.
    fn fill(&mut self, buf: &mut [u8]) -> Result<usize, SourceFault> {
        let count = self.left.len().min(buf.len());
        let (front, after) = self.left.split_at(count);
        buf[..count].copy_from_slice(front);
        self.left = after;
        Ok(count)
    }
}

/// A source over a slice that hands out at most a given number of octets at each call, at least 1. It is always known
/// what is still to come, and it never fails.
#[derive(Debug, Drop)]
pub struct Pieces<'a> {
    slice: Slice<'a>,
    most: usize,

    // At least one octet may be handed out.
    ghost some: { 0 < most },
}

impl<'a> Pieces<'a> {
    /// The source of the octets of `bytes`, at most `most` of them a call, with no failure so far.
    pub fn new(bytes: &'a [u8], most: usize) -> Pieces<'a>
        // At least one octet at each call.
        requires some { 0 < most }

        // It is known what is still to come.
        ensures tells { ⟦<Pieces<'a> as Source>⟧.tells result }

        // All of the octets are still to come.
        ensures rest { ⟦<Pieces<'a> as Source>⟧.rest result ≡ bytes.now }

        // It has not failed yet.
        ensures failures { ⟦<Pieces<'a> as Source>⟧.failures result ≡ 0 }

        // A call hands out at most `most` octets.
        ensures most { result.most ≡ most }
    {
        Pieces {
            slice: Slice::new(bytes),
            most,
        }
    }
}

impl<'a> Source for Pieces<'a> {
    ghost rest = { λ s. s.slice.left.now };

    ghost tells = { λ _. ⊤ };

    // It never fails.
    ghost failures = { λ _. 0 };

    ghost octets = { λ s _. s.slice.octets };

    fn fill(&mut self, buf: &mut [u8]) -> Result<usize, SourceFault>
        // No more octets than there is room for.
        ensures bound { IfOk result (λ n. n ≤ length buf.new) }

        // No more than a piece. The length of a piece does not change.
        ensures piece { IfOk result (λ n. n ≤ self.old.most) }
        // The length of a piece does not change.
        ensures most { self.new.most ≡ self.old.most }

        // It never fails: a fault would raise the count, which is 0 before and after.
        ensures count { Counts result 0 0 }

        // The octets come from the front of `rest`, which then begins after them. If there is room, none come only at
        // the end.
        ensures handed { IfOk result (λ n. Hands self.old.slice.left.now self.new.slice.left.now
            (take n buf.new) (length buf.new)) }
    {
        let room = buf.len().min(self.most);
        self.slice.fill(&mut buf[..room])
    }
}

/// A source over a reader. It is known what is still to come (`tells`) if the reader's type says what a reader has
/// left, as `&[u8]` does, and what it has left is a list of octets.
#[derive(Drop)]
pub struct FromRead<R> {
    inner: R,
    /// How many times it has failed. To go on with the count of another source, set it before the first call.
    pub failed: u64,
}

impl<R: Read> FromRead<R> {
    /// The source over `inner`, with no failure so far.
    pub fn new(inner: R) -> FromRead<R>
        // `tells` holds exactly when it is known what the reader has left, and that is a list of octets.
        ensures tells { ⟦<FromRead<R> as Source>⟧.tells result
            ↔ (IsSome (R.remaining inner) × AreOctets (unwrap_or (R.remaining inner) [])) }

        // What is still to come is what the reader has left.
        ensures rest { ⟦<FromRead<R> as Source>⟧.rest result ≡ unwrap_or (R.remaining inner) [] }

        // It has not failed yet.
        ensures failures { ⟦<FromRead<R> as Source>⟧.failures result ≡ 0 }
    {
        FromRead { inner, failed: 0 }
    }

    /// The reader.
    pub fn into_inner(self) -> R
        // This is known of the reader exactly when `tells` held of the source.
        ensures tells { (IsSome (R.remaining result) × AreOctets (unwrap_or (R.remaining result) []))
            ↔ ⟦<FromRead<R> as Source>⟧.tells self }

        // What the reader has left is what was still to come.
        ensures rest { unwrap_or (R.remaining result) [] ≡ ⟦<FromRead<R> as Source>⟧.rest self }
    {
        self.inner
    }
}

impl<R: Read> Source for FromRead<R> {
    ghost rest = { λ s. unwrap_or (R.remaining s.inner) [] };

    ghost tells = { λ s. IsSome (R.remaining s.inner) × AreOctets (unwrap_or (R.remaining s.inner) []) };

    ghost failures = { λ s. s.failed };

    ghost octets = { λ _ t. t.1 };

    // One read at each call: an error, an interrupted read included, is a failure, and is not tried again.
    fn fill(&mut self, buf: &mut [u8]) -> Result<usize, SourceFault> {
        match self.inner.read(buf) {
            Ok(count) => Ok(count),
            Err(_) => {
                self.failed = self.failed.saturating_add(1);
                Err(SourceFault)
            }
        }
    }
}
