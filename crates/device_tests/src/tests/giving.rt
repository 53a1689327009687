//! Sources hand out all in order, or fail and count it.
use crate::tests::OCTETS;
use devices::{FromRead, Fused, Pieces, Slice, Source, SourceFault};
use std::alloc::Global;
use std::io::{self, Read};
use std::test::Fail;
use vectors_doubles::Failing;

/// Hands out at most this many octets at each call, and counts its calls; one of them and all later ones fail.
#[derive(Drop)]
struct Slow<'a> {
    left: &'a [u8],
    most: usize,
    calls: u64,
    fails_from: u64,
    kind: io::ErrorKind,
}

impl<'a> Read for Slow<'a> {
    fn read(&mut self, buf: &mut [u8]) -> io::Result<usize> {
        self.calls = self.calls.saturating_add(1);
        if self.calls >= self.fails_from {
            return Err(io::Error::from(self.kind));
        }
        let room = self.most.min(buf.len());
        self.left.read(&mut buf[..room])
    }
}

/// Such a reader, of which no call was made.
fn slow_reader<'a>(most: usize, fails_from: u64, kind: io::ErrorKind) -> Slow<'a> {
    Slow {
        left: &OCTETS,
        most,
        calls: 0,
        fails_from,
        kind,
    }
}

/// Calls the source with a buffer of `room` octets, 16 at most, until it hands out none or fails. Gives the octets, the
/// number of calls that handed out some, and what the last call gave.
fn drain<S: Source>(
    alloc: Global,
    source: &mut S,
    room: usize,
) -> Result<(Vec<u8>, u64, Result<usize, SourceFault>), Fail> {
    let mut held = Vec::new(alloc);
    let mut buffer = [0xee; 16];
    let room = room.min(16);
    for calls in 0..99 {
        match source.fill(&mut buffer[..room]) {
            Ok(count) if count > 0 => held.extend_from_slice(&buffer[..count])?,
            outcome => return Ok((held, calls, outcome)),
        }
    }
    Ok((held, 99, Ok(room)))
}

/// Whether the source hands out all octets in this many calls with this room, and none with no room or after them.
fn gives_all<S: Source>(
    alloc: Global,
    source: &mut S,
    room: usize,
    calls: u64,
) -> Result<bool, Fail> {
    let with_no_room = source.fill(&mut []);
    let (held, made, end) = drain(alloc, source, room)?;
    let ends = [with_no_room, end, source.fill(&mut [0; 3])];
    Ok(held.as_slice() == OCTETS.as_slice() && made == calls && ends == [Ok(0); 3])
}

#[test]
fn sources_give_all(rt: HostRuntime) -> Result<(), Fail> {
    let alloc = rt.alloc();
    // The room of the buffer; how many calls hand out octets.
    for (room, calls) in [(1, 7), (3, 3), (7, 1), (16, 1)] {
        let all = gives_all(alloc, &mut Slice::new(&OCTETS), room, calls)?;
        assert!(rt; all, "{room}");
    }
    // The most a call, the room of the buffer; how many calls hand out octets.
    for (most, room, calls) in [(1, 16, 7), (2, 16, 4), (7, 16, 1), (9, 16, 1), (3, 2, 4)] {
        let all = gives_all(alloc, &mut Pieces::new(&OCTETS, most), room, calls)?;
        assert!(rt; all, "{most} {room}");
    }
    let mut source = FromRead::new(OCTETS.as_slice());
    let all = gives_all(alloc, &mut source, 5, 2)?;
    let failed = source.failed;
    assert_eq!(rt; (all, failed, source.into_inner().len()), (true, 0, 0));
    Ok(())
}

#[test]
fn sources_fail(rt: HostRuntime) -> Result<(), Fail> {
    // The most a call, the call that fails and how; how many octets were handed out then.
    for (most, fails_from, kind, count) in [
        (3, 1, io::ErrorKind::Interrupted, 0),
        (3, 2, io::ErrorKind::Interrupted, 3),
        (3, 2, io::ErrorKind::Other, 3),
        (7, 2, io::ErrorKind::UnexpectedEof, 7),
    ] {
        let mut source = FromRead::new(slow_reader(most, fails_from, kind));
        let (held, _, outcome) = drain(rt.alloc(), &mut source, 16)?;
        assert_eq!(rt; (outcome, source.failed), (Err(SourceFault), 1));
        assert_eq!(rt; Some(held.as_slice()), OCTETS.get(..count));
        assert_eq!(rt; source.into_inner().calls, fails_from, "{most}");
    }
    // `Failing` fails at the end each time, and counts it.
    let mut source = Failing::new(Pieces::new(&OCTETS, 2));
    let with_no_room = source.fill(&mut []);
    let (held, calls, outcome) = drain(rt.alloc(), &mut source, 16)?;
    assert_eq!(rt; (with_no_room, calls), (Ok(0), 4));
    assert_eq!(rt; held.as_slice(), OCTETS.as_slice());
    assert_eq!(rt; (outcome, source.failed), (Err(SourceFault), 1));
    let again = source.fill(&mut [0; 3]);
    assert_eq!(rt; (again, source.failed), (Err(SourceFault), 2));
    // The count stays at its last value.
    let mut source = FromRead::new(slow_reader(7, 1, io::ErrorKind::Other));
    source.failed = u64::MAX - 1;
    for _ in 0..2 {
        let outcome = source.fill(&mut [0; 3]);
        assert_eq!(rt; (outcome, source.failed), (Err(SourceFault), u64::MAX));
    }
    Ok(())
}

/// The octets that a source hands out in four calls with room for two, of which `calls` reach it, and 100 for each call
/// that fails.
fn filled(alloc: Global, calls: u64) -> Result<Vec<u8>, Fail> {
    let mut all = Vec::new(alloc);
    let mut source = Fused::new(Slice::new(&OCTETS), calls);
    let mut buffer = [0; 2];
    for _ in 0..4 {
        match source.fill(&mut buffer) {
            Ok(count) => all.extend_from_slice(&buffer[..count])?,
            Err(_) => all.push(100)?,
        }
    }
    Ok(all)
}

#[test]
fn sources_break(rt: HostRuntime) -> Result<(), Fail> {
    // How many calls reach the source; what is handed out.
    let rows: [(u64, &[u8]); 3] = [
        (0, &[100, 100, 100, 100]),
        (2, &[1, 2, 3, 4, 100, 100]),
        (4, &OCTETS),
    ];
    for (calls, expected) in rows {
        let octets = filled(rt.alloc(), calls)?;
        assert_eq!(rt; octets.as_slice(), expected, "{calls}");
    }
    Ok(())
}
