//! Octet strings as text.
use crate::bad::Bad;
use crate::blobs::Blobs;
use der_core::header;
use std::alloc::Global;
use std::mem;

/// An element whose contents are being written: its identifier octet, and what was written before it.
#[derive(Drop)]
struct Open {
    tag: u8,
    before: Vec<u8>,
}

/// Octets that are put together: the elements that are open, outermost first, and the contents of the innermost.
#[derive(Drop)]
pub struct Octets {
    open: Vec<Open>,
    contents: Vec<u8>,
}

/// The octets that a text of parts is, which spaces or `+` divide:
///
/// - `3003020105`: octets in hexadecimal; `-`: none;
/// - `'text`: the octets of a text without a space or `+`;
/// - `$name`: the octet string of this name; `$name:3..7`, `$name:3..` and `$name:..7` some of its octets, counted from
/// 0;
/// - `30{` and `}`: an element in DER (X.690 8.1, 10.1) with this identifier octet, and the parts between them as its
/// contents;
/// - `9*00`: octets in hexadecimal, so many times.
///
/// Errors: a part that is none of these, or no memory.
pub fn octets_of(alloc: Global, text: &str, blobs: &Blobs) -> Result<Vec<u8>, Bad> {
    let mut octets = Octets::new(alloc);
    octets.add(alloc, text, blobs)?;
    octets.whole()
}

impl Octets {
    /// None.
    pub fn new(alloc: Global) -> Octets {
        Octets {
            open: Vec::new(alloc),
            contents: Vec::new(alloc),
        }
    }

    /// Adds the parts of a text.
    pub fn add(&mut self, alloc: Global, text: &str, blobs: &Blobs) -> Result<(), Bad> {
        for word in text.split(' ') {
            for part in word.split('+') {
                self.add_part(alloc, part, blobs)?;
            }
        }
        Ok(())
    }

    /// Adds a part.
    fn add_part(&mut self, alloc: Global, part: &str, blobs: &Blobs) -> Result<(), Bad> {
        if part.is_empty() || part == "-" {
            return Ok(());
        }
        if part == "}" {
            return self.close();
        }
        if let Some(name) = part.strip_prefix('$') {
            return self.put(octets_named(name, blobs)?);
        }
        if let Some(text) = part.strip_prefix('\'') {
            return self.put(text.as_bytes());
        }
        if let Some((tag, "")) = part.split_once('{') {
            return self.begin(alloc, tag);
        }
        match part.split_once('*') {
            Some((times, digits)) => self.repeat(alloc, times, digits),
            None => self.put(decoded(alloc, part)?.as_slice()),
        }
    }

    fn put(&mut self, octets: &[u8]) -> Result<(), Bad> {
        self.contents.extend_from_slice(octets)?;
        Ok(())
    }

    fn repeat(&mut self, alloc: Global, times: &str, digits: &str) -> Result<(), Bad> {
        let times = number_of(times)?;
        let octets = decoded(alloc, digits)?;
        for _ in 0..times {
            self.put(octets.as_slice())?;
        }
        Ok(())
    }

    fn begin(&mut self, alloc: Global, tag: &str) -> Result<(), Bad> {
        let octets = decoded(alloc, tag)?;
        let [tag] = octets.as_slice() else {
            return Err(Bad::Text("an identifier that is not one octet"));
        };
        let tag = *tag;
        let before = mem::replace(&mut self.contents, Vec::new(alloc));
        self.open.push(Open { tag, before })?;
        Ok(())
    }

    fn close(&mut self) -> Result<(), Bad> {
        let Some(Open { tag, before }) = self.open.pop() else {
            return Err(Bad::Text("a `}` that closes nothing"));
        };
        let contents = mem::replace(&mut self.contents, before);
        let Ok(front) = header(tag, contents.len() as u64) else {
            return Err(Bad::Text("an element that is too long"));
        };
        self.put(front.bytes())?;
        self.put(contents.as_slice())
    }

    /// All of them, once each element is closed.
    pub fn whole(self) -> Result<Vec<u8>, Bad> {
        if self.open.is_empty() {
            Ok(self.contents)
        } else {
            Err(Bad::Text("a `{` that nothing closes"))
        }
    }
}

/// The number that a text is.
///
/// Errors: it is none.
pub fn number_of(text: &str) -> Result<usize, Bad> {
    text.parse::<usize>()
        .map_err(|_| Bad::Text("a number that is none"))
}

fn decoded(alloc: Global, digits: &str) -> Result<Vec<u8>, Bad> {
    hex::decode(alloc, digits).map_err(|_| Bad::Text("a part that is no octets"))
}

/// The octets of a name, or some of them.
fn octets_named<'a>(named: &str, blobs: &'a Blobs) -> Result<&'a [u8], Bad> {
    let (name, range) = named.split_once(':').unwrap_or((named, ".."));
    let known = blobs.get(name);
    let octets = known.ok_or(Bad::Text("a name that is not known"))?;
    let (first, end) = range_of(range, octets.len())?;
    let some = octets.get(first..end);
    some.ok_or(Bad::Text("a range beyond the octets"))
}

/// The range `FIRST..END` that a text is, counted from 0; without FIRST it begins at 0, without END it ends here.
///
/// Errors: it is none.
pub fn range_of(text: &str, otherwise: usize) -> Result<(usize, usize), Bad> {
    let Some((first, end)) = text.split_once("..") else {
        return Err(Bad::Text("a range that is none"));
    };
    let first = if first.is_empty() { "0" } else { first };
    if end.is_empty() {
        return Ok((number_of(first)?, otherwise));
    }
    Ok((number_of(first)?, number_of(end)?))
}
