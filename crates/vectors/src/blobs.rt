//! Octet strings by name.
use crate::bad::Bad;
use crate::notation::Octets;
use std::alloc::Global;

/// An octet string and its name.
#[derive(Drop)]
struct Blob {
    name: String,
    octets: Vec<u8>,
}

/// Octet strings that have names.
#[derive(Drop)]
pub struct Blobs {
    all: Vec<Blob>,
}

impl Blobs {
    /// No octet string.
    pub fn new(alloc: Global) -> Blobs {
        Blobs {
            all: Vec::new(alloc),
        }
    }

    /// How many there are.
    pub fn count(&self) -> usize {
        self.all.len()
    }

    /// Keeps so many, those that came first, and forgets the others.
    pub fn keep_first(&mut self, count: usize) {
        self.all.truncate(count);
    }

    /// The octet string of this name.
    pub fn get(&self, name: &str) -> Option<&[u8]> {
        for blob in &self.all {
            if blob.name.as_str() == name {
                return Some(blob.octets.as_slice());
            }
        }
        None
    }

    /// Adds the octet strings of a file. A line `NAME = PARTS` begins one, lines that begin with a space go on with it;
    /// empty lines and those that begin with `#` say nothing. PARTS are as `octets_of` reads them, divided by spaces,
    /// and may have the names of earlier ones.
    ///
    /// Errors: which line, counted from 1, is the first that isn't so, has a name that was given before, or parts that
    /// can't be read, or for which there is no memory; and why.
    pub fn read(&mut self, alloc: Global, text: &str) -> Result<(), (usize, Bad)> {
        let mut begun: Option<(&str, Octets)> = None;
        let mut number: usize = 0;
        for line in text.lines() {
            number = number.saturating_add(1);
            if line.is_empty() || line.starts_with('#') {
                continue;
            }
            begun = self.taken(alloc, begun, line).map_err(|bad| (number, bad))?;
        }
        self.keep(alloc, begun).map_err(|bad| (number, bad))
    }

    /// What is begun after this line, in place of what was begun before it.
    fn taken<'a>(
        &mut self,
        alloc: Global,
        begun: Option<(&'a str, Octets)>,
        line: &'a str,
    ) -> Result<Option<(&'a str, Octets)>, Bad> {
        if line.starts_with(' ') {
            let Some((name, mut octets)) = begun else {
                return Err(Bad::Text("a line that goes on with nothing"));
            };
            octets.add(alloc, line, self)?;
            return Ok(Some((name, octets)));
        }
        self.keep(alloc, begun)?;
        let Some((name, parts)) = line.split_once(" =") else {
            return Err(Bad::Text("a line that is no `NAME = PARTS`"));
        };
        if self.get(name).is_some() {
            return Err(Bad::Text("a name that was given before"));
        }
        let mut octets = Octets::new(alloc);
        octets.add(alloc, parts, self)?;
        Ok(Some((name, octets)))
    }

    /// Keeps what was begun.
    fn keep(&mut self, alloc: Global, begun: Option<(&str, Octets)>) -> Result<(), Bad> {
        let Some((name, octets)) = begun else {
            return Ok(());
        };
        let octets = octets.whole()?;
        let name = String::from_str(alloc, name)?;
        self.all.push(Blob { name, octets })?;
        Ok(())
    }
}
