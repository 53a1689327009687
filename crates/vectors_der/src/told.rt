//! Values of which something is said.
use der_core::{AlgorithmIdentifier, Bits, Element, Flag, Int, Oid};
use std::fmt::Display;
use vectors::Said;

/// Says what was found, or what the fault prints.
pub fn found<T: Told + Drop, E: Display + Drop>(said: &mut Said, found: Result<T, E>) {
    match found {
        Ok(value) => value.told(said),
        Err(fault) => said.shown(&fault),
    }
}

/// A value of which something is said.
pub trait Told {
    /// Says it.
    fn told(&self, said: &mut Said);
}

impl Told for () {
    fn told(&self, said: &mut Said) {
        said.word("ok");
    }
}

impl Told for bool {
    fn told(&self, said: &mut Said) {
        said.word(if *self { "yes" } else { "no" });
    }
}

impl Told for u64 {
    fn told(&self, said: &mut Said) {
        said.shown(self);
    }
}

impl Told for &[u8] {
    fn told(&self, said: &mut Said) {
        said.octets(self);
    }
}

impl Told for Vec<u8> {
    fn told(&self, said: &mut Said) {
        said.octets(self.as_slice());
    }
}

impl Told for String {
    fn told(&self, said: &mut Said) {
        said.word(self.as_str());
    }
}

impl Told for Int<'_> {
    fn told(&self, said: &mut Said) {
        said.octets(self.again().bytes());
    }
}

impl Told for Oid<'_> {
    fn told(&self, said: &mut Said) {
        said.octets(self.again().bytes());
    }
}

impl Told for Bits<'_> {
    fn told(&self, said: &mut Said) {
        said.octets(self.bytes());
    }
}

impl Told for Flag {
    fn told(&self, said: &mut Said) {
        said.flag("", *self);
    }
}

/// Identifier, contents and the whole element.
impl Told for Element<'_> {
    fn told(&self, said: &mut Said) {
        said.octets(&[self.tag]);
        said.octets(self.body);
        said.octets(self.whole);
    }
}

/// The whole element, its object identifier, and its parameters.
impl Told for AlgorithmIdentifier<'_> {
    fn told(&self, said: &mut Said) {
        said.octets(self.whole());
        said.octets(self.oid().bytes());
        self.parameters().told(said);
    }
}

impl<T: Told> Told for Option<T> {
    fn told(&self, said: &mut Said) {
        match self {
            Some(value) => value.told(said),
            None => said.word("none"),
        }
    }
}
