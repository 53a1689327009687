//! Sinks take all or a beginning, and count what fails.
use crate::tests::OCTETS;
use devices::{FromWrite, Fused, Limited, Sink, SinkFault, put_all};
use std::alloc::Global;
use std::io::{self, Write};
use std::test::Fail;

/// Takes at most this many octets at each call, and counts its calls, one of which fails.
#[derive(Drop)]
struct Slow {
    held: Vec<u8>,
    most: usize,
    calls: u64,
    fails_at: u64,
}

impl Write for Slow {
    fn write(&mut self, bytes: &[u8]) -> io::Result<usize> {
        self.calls = self.calls.saturating_add(1);
        if self.calls == self.fails_at {
            return Err(io::Error::from(io::ErrorKind::Interrupted));
        }
        let count = bytes.len().min(self.most);
        self.held.extend_from_slice(&bytes[..count])?;
        Ok(count)
    }

    fn flush(&mut self) -> io::Result<()> {
        Ok(())
    }
}

/// Such a writer, of which no call was made.
fn slow_writer(alloc: Global, most: usize, fails_at: u64) -> Slow {
    Slow {
        held: Vec::new(alloc),
        most,
        calls: 0,
        fails_at,
    }
}

#[test]
fn sinks_take_all_or_a_beginning(rt: HostRuntime) -> Result<(), Fail> {
    // The most a call, the call that fails; how many octets are held then, calls, failures.
    let rows: [((&[u8], usize, u64), (usize, u64, u64)); 8] = [
        ((&OCTETS, 7, 0), (7, 1, 0)),
        ((&OCTETS, 9, 0), (7, 1, 0)),
        ((&OCTETS, 3, 0), (7, 3, 0)),
        ((&OCTETS, 1, 0), (7, 7, 0)),
        ((&OCTETS, 3, 1), (0, 1, 1)),
        ((&OCTETS, 3, 3), (6, 3, 1)),
        ((&OCTETS, 0, 0), (0, 1, 1)),
        ((&[], 0, 1), (0, 0, 0)),
    ];
    for ((octets, most, fails_at), (held, calls, failed)) in rows {
        let mut sink = FromWrite::new(slow_writer(rt.alloc(), most, fails_at));
        let is_put = put_all(&mut sink, octets).is_ok();
        assert_eq!(rt; (is_put, sink.failed), (failed == 0, failed));
        let writer = sink.into_inner();
        assert_eq!(rt; writer.calls, calls, "{most} {fails_at}");
        assert_eq!(rt; Some(writer.held.as_slice()), octets.get(..held));
    }
    Ok(())
}

#[test]
fn sinks_are_put_into_in_turn(rt: HostRuntime) -> Result<(), Fail> {
    // No write is made for no octets.
    let mut sink = FromWrite::new(slow_writer(rt.alloc(), 0, 1));
    let put = sink.put(&[]);
    assert_eq!(rt; (put, sink.into_inner().calls), (Ok(0), 0));
    let mut sink = FromWrite::new(Vec::new(rt.alloc()));
    put_all(&mut sink, &[0x30, 0x03])?;
    put_all(&mut sink, &[])?;
    put_all(&mut sink, &[0x02, 0x01, 0x05])?;
    let held = sink.into_inner();
    assert_eq!(rt; held.as_slice(), [0x30, 0x03, 0x02, 0x01, 0x05].as_slice());
    // A writer that takes nothing; the count stays at its last value.
    let nowhere: &mut [u8] = &mut [];
    let mut sink = FromWrite::new(nowhere);
    sink.failed = u64::MAX - 1;
    for _ in 0..2 {
        let put = sink.put(&[1]);
        assert_eq!(rt; (put, sink.failed), (Err(SinkFault), u64::MAX));
    }
    Ok(())
}

/// What a sink with this room holds of the octets, written in pieces of three in so many calls, and its count of
/// failures.
fn put_into(alloc: Global, room: usize, calls: u64) -> (Vec<u8>, u64) {
    let mut held = Vec::new(alloc);
    let mut sink = Fused::new(Limited::new(FromWrite::new(&mut held), 3, room), calls);
    let _ = put_all(&mut sink, &OCTETS);
    let failed = sink.failed;
    (held, failed)
}

#[test]
fn devices_fill_up(rt: HostRuntime) -> Result<(), Fail> {
    // How many calls reach the sink; how many octets it holds at most, and the room from which on it doesn't fail.
    for (calls, most, enough) in [(99, 7, 7), (2, 6, 9)] {
        for room in 0..9 {
            let (held, failed) = put_into(rt.alloc(), room, calls);
            assert_eq!(rt; Some(held.as_slice()), OCTETS.get(..room.min(most)));
            assert_eq!(rt; failed, if room < enough { 1 } else { 0 }, "{calls} {room}");
        }
    }
    Ok(())
}
