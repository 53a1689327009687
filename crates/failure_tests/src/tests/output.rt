//! An output in place of those of the process.
use std::io::{self, ErrorKind, Write};

/// What must be given yet, and whether something else was given.
#[derive(Clone, Copy)]
struct Due<'a> {
    left: &'a [u8],
    other: bool,
}

/// A writer that takes no memory. It takes this many octets and then fails; or, if it does not flush, it fails then.
/// One of two texts must be given; where there is less room, nobody asks whether it was.
#[derive(Clone, Copy)]
pub struct Output<'a> {
    room: usize,
    flushes: bool,
    one: Due<'a>,
    another: Due<'a>,
}

/// This text is due.
fn owed(text: &str) -> Due<'_> {
    Due {
        left: text.as_bytes(),
        other: false,
    }
}

impl Due<'_> {
    /// Takes these octets.
    fn take(&mut self, octets: &[u8]) {
        if self.left.starts_with(octets) {
            self.left = self.left.get(octets.len()..).unwrap_or(b"");
        } else {
            self.other = true;
        }
    }

    /// Whether all that is due was given, and nothing else.
    fn is_given(&self) -> bool {
        self.left.is_empty() && !self.other
    }
}

/// An output that must be given one of these texts.
pub fn must_be_given_one<'a>(one: &'a str, another: &'a str) -> Output<'a> {
    Output {
        room: 100_000,
        flushes: true,
        one: owed(one),
        another: owed(another),
    }
}

/// An output that must be given this text.
pub fn must_be_given(text: &str) -> Output<'_> {
    must_be_given_one(text, text)
}

/// An output with so much room; with no room given, one that takes all and does not flush.
pub fn with_room(room: Option<usize>) -> Output<'static> {
    let mut output = must_be_given("");
    output.flushes = room.is_some();
    output.room = room.unwrap_or(100_000);
    output
}

impl Output<'_> {
    /// Whether it was given what it must be, and nothing else.
    pub fn is_all(&self) -> bool {
        self.one.is_given() || self.another.is_given()
    }

    /// Whether it was given nothing, if this text is due.
    pub fn is_untouched(&self, text: &str) -> bool {
        !self.one.other && self.one.left.len() == text.len()
    }
}

impl Write for Output<'_> {
    fn write(&mut self, octets: &[u8]) -> io::Result<usize> {
        let taken = octets.len().min(self.room);
        if taken == 0 {
            return Err(io::Error::from(ErrorKind::StorageFull));
        }
        self.room -= taken;
        self.one.take(octets);
        self.another.take(octets);
        Ok(taken)
    }

    fn flush(&mut self) -> io::Result<()> {
        if self.flushes {
            Ok(())
        } else {
            Err(io::Error::from(ErrorKind::StorageFull))
        }
    }
}

/// Outputs that fail, and which each is.
pub static FAILING: [(Option<usize>, &str); 4] = [
    (Some(0), "no room"),
    (Some(1), "room for one octet"),
    (Some(9), "room for nine octets"),
    (None, "no flush"),
];
