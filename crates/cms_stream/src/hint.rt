ghost use Rattle.std.specs.Prelude.{◌≡◌, ◌<◌, ◌≤◌, ◌^◌, length, IfOk, IfSome};
ghost use Rattle.cms_stream.specs.Parts.{Counted};
ghost use Rattle.cms_stream.specs.Readers.{seen};
ghost use Rattle.cms_stream.specs.Hints.{AreNamedBy, AreNamedIn, FindsListed, IsListTooLong, Tells, body_until};
ghost use Rattle.cms_stream.specs.Hints.{signed_at, listed_at};

use crate::opening::Pass;
use crate::reader::Reader;
use crate::stream_fault::StreamFault;
use crate::tags::{CONTENT, VERSIONS};
use der_core::Cursor;
use der_core::tags::{INTEGER, SEQUENCE, SET};
use der_lists::AlgorithmIdentifiers;
use devices::Source;
use digests::{Alg, Algs};

// How many octets of the digestAlgorithms of a file are kept for a hint, at most.
const HINT_LIMIT: usize = 512;

// The algorithms that these identifiers name.
fn named(identifiers: &AlgorithmIdentifiers) -> Algs
    ensures { AreNamedBy identifiers.now result }
{
    let mut algorithms = Algs::none();
    let mut left = identifiers.again();
    while let Some((identifier, others)) = left.next() {
        if let Some(alg) = Alg::of(identifier.oid(), identifier.parameters()) {
            algorithms = algorithms.with(alg);
        }
        left = others;
    }
    algorithms
}

// The algorithms that a pass found to be named; none if it found no digestAlgorithms.
fn named_in(found: Result<Option<AlgorithmIdentifiers>, StreamFault>) -> Algs
    ensures { AreNamedIn found.entry result }
{
    match found {
        Ok(Some(identifiers)) => named(&identifiers),
        _ => Algs::none(),
    }
}

impl Reader {
    // Enters the contents of the SignedData of a file, and returns where they end; `None` if the file is of another
    // type.
    //
    // Faults: those of `begin`, `next_type` and `enter`.
    #[tactic(auto, unfolding(crate::specs::Hints::signed_at))]
    fn to_signed_data<S: Source>(&mut self, source: &mut S) -> Result<Option<u64>, StreamFault>
        requires first { self.old.at ≡ 0 }
        ensures passes { Counted S.Source source.old result source.new }
        ensures tells { S.tells source.old → Tells (body_until (seen self.new (S.rest source.new))) ⊥ result
            (signed_at (seen self.old (S.rest source.old)).rest) }
        ensures inside { IfOk result (λ e. IfSome e (λ end. (self.new.at ≤ end) × (end < 2 ^ 63))) }
    {
        let end = self.begin(source)?;
        if !self.next_type(source, end)? {
            return Ok(None);
        }
        let explicit = self.enter(source, CONTENT, end)?;
        let inner = self.enter(source, SEQUENCE, explicit)?;
        Ok(Some(inner))
    }

    // The digestAlgorithms of a file (RFC 5652 5.1), which are kept; `None` if the file is of another type.
    //
    // Faults: those of `to_signed_data`, `enter`, `version` and `keep`, and then those of `AlgorithmIdentifiers::read`.
    //
    // Errors: `TooLong` if they are longer than the room.
    #[tactic(auto, unfolding(crate::specs::Hints::listed_at, crate::specs::Hints::algorithms_at))]
    fn digest_algorithms<'b, S: Source>(
        &mut self,
        source: &mut S,
        room: &'b mut [u8],
    ) -> Result<Option<AlgorithmIdentifiers<'b>>, StreamFault>
        requires first { self.old.at ≡ 0 }
        ensures passes { Counted S.Source source.old result source.new }
        ensures tells { S.tells source.old → Tells (λ o. o) (IsListTooLong (length room.old)
            (seen self.old (S.rest source.old)).rest) result (listed_at (seen self.old (S.rest source.old)).rest) }
    {
        let Some(end) = self.to_signed_data(source)? else {
            return Ok(None);
        };
        let inside = self.enter(source, INTEGER, end)?;
        self.version(source, inside, &VERSIONS)?;
        let inner = self.enter(source, SET, end)?;
        let at = self.at;
        let size = inner - at;
        if (room.len() as u64) < size {
            return Err(StreamFault::TooLong);
        }
        let len = size as usize;
        self.keep(source, inner, &mut room[..len])?;
        match AlgorithmIdentifiers::read(Cursor::new(&room[..len], at)) {
            Ok(identifiers) => Ok(Some(identifiers)),
            Err(fault) => Err(StreamFault::Malformed(fault)),
        }
    }
}

impl Pass {
    /// As `listed_algorithms`, with this window.
    pub fn listed_algorithms<S: Source>(&mut self, source: &mut S) -> Algs
        ensures { FindsListed S.Source source.old source.new result }
    {
        self.reader.restart();
        let mut room = [0; HINT_LIMIT];
        named_in(self.reader.digest_algorithms(source, &mut room))
    }
}

/// The algorithms that the digestAlgorithms of a file name (RFC 5652 5.1), by a pass over its front: none if the file
/// isn't a SignedData, has a fault there or has more than 512 octets of them, or if the source fails. A file need not
/// name the algorithms that its signers use: they are a hint, which lets a second pass compute fewer digests.
pub fn listed_algorithms<S: Source>(source: &mut S) -> Algs
    ensures { FindsListed S.Source source.old source.new result }
{
    Pass::new().listed_algorithms(source)
}
