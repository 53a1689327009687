//! What is said, word by word.
use crate::bad::Bad;
use crate::rows::Row;
use der_core::{AlgorithmIdentifier, Flag};
use std::alloc::Global;
use std::fmt::Display;

/// Words with a space between them. No call fails: a word for which there is no memory, and a value of a row that can't
/// be read, make the answer bad at its end. A step after a call that may fail is dear to prove.
#[derive(Drop)]
pub struct Said {
    /// Where memory comes from.
    pub alloc: Global,
    // The words so far.
    text: String,
    // Octets that are said as `known`.
    known: Vec<u8>,
    // Why there is no answer, if so.
    bad: Option<Bad>,
}

impl Said {
    /// No word yet. Octets are said as `known` that are those of the row's value of this name.
    ///
    /// Errors: they can't be read, or no memory.
    pub fn new(row: &Row<'_>) -> Result<Said, Bad> {
        Ok(Said {
            alloc: row.alloc,
            text: String::new(row.alloc),
            known: row.octets_or("known", "-")?,
            bad: None,
        })
    }

    /// The words.
    ///
    /// Errors: a row that is bad, or no memory.
    pub fn end(self) -> Result<String, Bad> {
        match self.bad {
            Some(bad) => Err(bad),
            None => Ok(self.text),
        }
    }

    /// Makes the answer bad.
    pub fn refuse(&mut self, bad: Bad) {
        self.bad = Some(bad);
    }

    /// What is given, or without it another value, which makes the answer bad.
    pub fn taken<T: Drop>(&mut self, given: Result<T, Bad>, otherwise: T) -> T {
        match given {
            Ok(given) => given,
            Err(bad) => {
                self.refuse(bad);
                otherwise
            }
        }
    }

    /// The octets of this name in a row. A row that has none is bad, and these are none.
    pub fn given(&mut self, row: &Row<'_>, name: &str) -> Vec<u8> {
        self.taken(row.octets(name), Vec::new(row.alloc))
    }

    /// The octets of this name in a row, or none.
    pub fn given_if_any(&mut self, row: &Row<'_>, name: &str) -> Vec<u8> {
        self.taken(row.octets_or(name, "-"), Vec::new(row.alloc))
    }

    /// This text behind the others.
    fn put(&mut self, text: &str) {
        if self.text.push_str(text).is_err() {
            self.refuse(Bad::Memory);
        }
    }

    /// A word, more, or none.
    pub fn word(&mut self, word: &str) {
        if !word.is_empty() {
            self.mark(" ");
        }
        self.put(word);
    }

    /// This mark behind the last word, if there is one.
    pub fn mark(&mut self, mark: &str) {
        if !self.text.is_empty() {
            self.put(mark);
        }
    }

    /// What a value prints.
    pub fn shown<T: Display>(&mut self, value: &T) {
        match format!(in self.alloc; "{value}") {
            Ok(word) => self.word(word.as_str()),
            Err(_) => self.refuse(Bad::Memory),
        }
    }

    /// Octets in hexadecimal, or `-` if there are none.
    pub fn octets(&mut self, octets: &[u8]) {
        if octets.is_empty() {
            return self.word("-");
        }
        if octets == self.known.as_slice() {
            return self.word("known");
        }
        match hex::encode(self.alloc, octets) {
            Ok(digits) => self.word(digits.as_str()),
            Err(_) => self.refuse(Bad::Memory),
        }
    }

    /// A name, and what a value prints.
    pub fn value<T: Display>(&mut self, name: &str, value: &T) {
        self.word(name);
        self.shown(value);
    }

    /// A name, and octets.
    pub fn part(&mut self, name: &str, octets: &[u8]) {
        self.word(name);
        self.octets(octets);
    }

    /// A name, and octets that may be absent.
    pub fn maybe(&mut self, name: &str, octets: Option<&[u8]>) {
        self.word(name);
        match octets {
            Some(octets) => self.octets(octets),
            None => self.word("absent"),
        }
    }

    /// A name, and a flag as it is spelled.
    pub fn flag(&mut self, name: &str, flag: Flag) {
        self.word(name);
        self.word(match flag {
            Flag::Absent => "absent",
            Flag::False => "false",
            Flag::True => "true",
        });
    }

    /// A name, and the identifier of an algorithm and its parameters.
    pub fn algorithm(&mut self, name: &str, algorithm: &AlgorithmIdentifier<'_>) {
        self.part(name, algorithm.oid().bytes());
        self.maybe("", algorithm.parameters());
    }

    /// Whether what was written, without a failure, is what was read. It fails only if memory was refused.
    pub fn written<E: Drop>(&mut self, done: Result<(), E>, out: Vec<u8>, read: &[u8]) {
        match done {
            Ok(()) if out.as_slice() == read => self.word("written same"),
            Ok(()) => self.part("written", out.as_slice()),
            Err(_) => self.refuse(Bad::Memory),
        }
    }
}
