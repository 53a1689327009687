//! One row: what is asked, with which values, and what must be answered.
use crate::bad::{Bad, needed};
use crate::blobs::Blobs;
use crate::notation::{number_of, octets_of};
use std::alloc::Global;
use std::fmt::Display;

/// A row, `KIND NAME=VALUE .. => WANTED`. Spaces divide the words before the arrow; all after it is what is wanted.
#[derive(Drop)]
pub struct Row<'a> {
    /// Where memory comes from.
    pub alloc: Global,
    blobs: &'a Blobs,
    /// The first word: what is asked.
    pub kind: &'a str,
    values: Vec<(&'a str, &'a str)>,
    /// What must be answered.
    pub wanted: &'a str,
}

impl<'a> Row<'a> {
    /// The row in a line, which may name these octet strings.
    ///
    /// Errors: the line isn't a row, a name is there twice, or no memory.
    pub fn read(alloc: Global, line: &'a str, blobs: &'a Blobs) -> Result<Row<'a>, Bad> {
        let Some((asked, wanted)) = line.split_once(" => ") else {
            return Err(Bad::Text("a row with no ` => `"));
        };
        let (kind, words) = asked.split_once(' ').unwrap_or((asked, ""));
        let mut row = Row {
            alloc,
            blobs,
            kind,
            values: Vec::new(alloc),
            wanted,
        };
        for word in words.split(' ') {
            row.take_word(word)?;
        }
        Ok(row)
    }

    fn take_word(&mut self, word: &'a str) -> Result<(), Bad> {
        if word.is_empty() {
            return Ok(());
        }
        let Some((name, value)) = word.split_once('=') else {
            return Err(Bad::Text("a word that is no `NAME=VALUE`"));
        };
        if self.value(name).is_some() {
            return Err(Bad::Text("a name that is there twice"));
        }
        self.values.push((name, value))?;
        Ok(())
    }

    /// The value of this name, if the row has one.
    pub fn value(&self, name: &str) -> Option<&'a str> {
        for (known, value) in &self.values {
            if *known == name {
                return Some(*value);
            }
        }
        None
    }

    /// Refuses a row that has values of other names than these, which spaces divide. `case`, which says what the row is
    /// about, is always allowed.
    pub fn takes(&self, names: &str) -> Result<(), Bad> {
        for (name, _) in &self.values {
            if *name != "case" && !has_part(names, ' ', name) {
                return Err(Bad::Text("a name that this kind of row doesn't take"));
            }
        }
        Ok(())
    }

    /// The value of this name.
    ///
    /// Errors: the row has none.
    pub fn text(&self, name: &str) -> Result<&'a str, Bad> {
        self.value(name).ok_or(Bad::Text("a value that is missing"))
    }

    /// The number of this name, counted as the row's kind says.
    ///
    /// Errors: the row has none, or it is no number.
    pub fn number(&self, name: &str) -> Result<usize, Bad> {
        number_of(self.text(name)?)
    }

    /// The number of this name, or without it this one.
    ///
    /// Errors: it is no number.
    pub fn number_or(&self, name: &str, other: usize) -> Result<usize, Bad> {
        self.value(name).map_or(Ok(other), number_of)
    }

    /// Whether the row has `NAME=yes`; without the name it is `no`.
    ///
    /// Errors: another value.
    pub fn flag(&self, name: &str) -> Result<bool, Bad> {
        match self.value(name) {
            Some("yes") => Ok(true),
            Some("no") | None => Ok(false),
            Some(_) => Err(Bad::Text("a value that is neither yes nor no")),
        }
    }

    /// The octets of these parts, as `octets_of` reads them.
    ///
    /// Errors: they can't be read, or no memory.
    pub fn made(&self, parts: &str) -> Result<Vec<u8>, Bad> {
        octets_of(self.alloc, parts, self.blobs)
    }

    /// The octets of this name.
    ///
    /// Errors: the row has none, they can't be read, or no memory.
    pub fn octets(&self, name: &str) -> Result<Vec<u8>, Bad> {
        self.made(self.text(name)?)
    }

    /// The octets of this name, or without it of these parts.
    ///
    /// Errors: they can't be read, or no memory.
    pub fn octets_or(&self, name: &str, parts: &str) -> Result<Vec<u8>, Bad> {
        self.made(self.value(name).unwrap_or(parts))
    }

    /// The text that a value spells: `end` ends a line, `^` before it is a carriage return, `,` is a space, and a word
    /// `$name` is the octet string of this name in hexadecimal.
    ///
    /// Errors: a name that isn't known, or no memory.
    pub fn spelled(&self, value: &str, end: &str) -> Result<String, Bad> {
        let mut text = Vec::new(self.alloc);
        for line in value.split(end) {
            for word in line.split(',') {
                self.add_word(&mut text, word)?;
                text.push(b' ')?;
            }
            text.pop();
            text.push(b'\n')?;
        }
        text.pop();
        needed(String::from_utf8(text), "words that are no text")
    }

    fn add_word(&self, text: &mut Vec<u8>, word: &str) -> Result<(), Bad> {
        let bare = word.strip_suffix('^').unwrap_or(word);
        if bare.starts_with('$') {
            let digits = hex::encode(self.alloc, self.made(bare)?)?;
            text.extend_from_slice(digits.as_bytes())?;
        } else {
            text.extend_from_slice(bare.as_bytes())?;
        }
        if bare.len() < word.len() {
            text.push(b'\r')?;
        }
        Ok(())
    }

    /// Answers a word, or more.
    pub fn word(&self, word: &str) -> Result<String, Bad> {
        Ok(String::from_str(self.alloc, word)?)
    }

    /// Answers what a value prints.
    pub fn shown<T: Display>(&self, value: &T) -> Result<String, Bad> {
        Ok(format!(in self.alloc; "{value}")?)
    }

    /// Answers this word, or the fault.
    pub fn ended<E: Display + Drop>(&self, word: &str, end: Result<(), E>) -> Result<String, Bad> {
        match end {
            Ok(()) => self.word(word),
            Err(fault) => self.shown(&fault),
        }
    }
}

/// Whether this is a part of a text that is divided so. An empty one never is.
pub fn has_part(text: &str, between: char, wanted: &str) -> bool {
    for part in text.split(between) {
        if part == wanted && !wanted.is_empty() {
            return true;
        }
    }
    false
}
