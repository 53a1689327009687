ghost use Rattle.std.specs.Prelude.{◌≡◌, ◌<◌, ◌^◌, List, ℕ, ◌++◌, length, Err};
ghost use Rattle.digests.specs.declared.set.Algs.{Algs};
ghost use Rattle.digests.specs.Reading.{CountsReads, Feeds, LeavesOff};

use devices::Source;
use std::fmt;
use thiserror::Error;

/// The most octets that a content may have.
const MOST: u64 = 1 << 40;

/// How many octets are requested from a source at once.
const ROOM: usize = 65_536;

/// Why a content was not read.
#[derive(Clone, Copy, Debug, PartialEq, Eq, Error)]
pub enum ContentFault {
    /// The source failed.
    ReadFailed,
    /// The source has more than 2^40 octets.
    ContentTooLong,
}

impl fmt::Display for ContentFault {
    ghost use Rattle.std.specs.Prelude.{Some};
    ghost use Rattle.digests.specs.ContentFaultTexts.{content_fault_text};

    ghost output = { λ f. Some (content_fault_text f) };

    fn fmt<W: fmt::Write>(&self, f: &mut fmt::Formatter<W>) -> fmt::Result {
        f.write_str(match self {
            ContentFault::ReadFailed => "the content can't be read",
            ContentFault::ContentTooLong => "the content has more than 2^40 octets",
        })
    }
}

/// Hashers that are fed a message piece by piece.
pub(crate) trait Feed {
    // They were fed this message, all its pieces joined.
    ghost fed: { Self → List ℕ → Type 0 };

    // The algorithms whose hashers they are.
    ghost set: { Self → Algs };

    /// Feeds the next piece.
    fn feed(&mut self, piece: &[u8])
        ensures fed { (m : List ℕ) → fed self.old m → fed self.new (m ++ piece.now) }
        ensures kept { set self.new ≡ set self.old };
}

/// Feeds what the source gives until its end, and returns how many octets that was.
pub(crate) fn feed_from<F: Feed, S: Source>(
    hashers: &mut F,
    source: &mut S,
) -> Result<u64, ContentFault>
    ensures count { CountsReads result (S.failures source.old) (S.failures source.new) }
    ensures given { (given : List ℕ)
        × Feeds F.fed hashers.old hashers.new (S.tells source.old) (S.rest source.old) given
        × LeavesOff result (S.tells source.old) (S.rest source.old) (S.rest source.new) given }
    ensures too_long { result ≡ Err ContentFault.ContentTooLong → S.tells source.old
        → 2 ^ 40 < length (S.rest source.old) }
    ensures kept { F.set hashers.new ≡ F.set hashers.old }
{
    let mut room = [0u8; ROOM];
    let mut total: u64 = 0;
    loop {
        let count = match source.fill(&mut room) {
            Ok(count) => count,
            Err(_) => return Err(ContentFault::ReadFailed),
        };
        if count == 0 {
            return Ok(total);
        }
        hashers.feed(&room[..count]);
        total += count as u64;
        if total > MOST {
            return Err(ContentFault::ContentTooLong);
        }
    }
}
