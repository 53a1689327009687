//! The parts of which files and lists are made, as they stand in a text.

use crate::bad::Bad;
use digests::Alg;
use std::alloc::Global;

/// What is filled in.
#[derive(Clone, Copy)]
pub(crate) enum What {
    /// The length, of `size` octets, of an element that ends with the file.
    Ends,
    /// The length of an element that ends with the content.
    Holds,
    /// The digest of the content.
    Kept,
    /// Any octets.
    Random,
    /// The SHA-256 of `size` octets from another place on.
    Digest,
}

/// What is filled in at a place.
#[derive(Clone, Copy)]
pub(crate) struct Step {
    pub(crate) what: What,
    pub(crate) at: usize,
    pub(crate) from: usize,
    pub(crate) size: usize,
}

/// Octets in which something is filled in.
#[derive(Drop)]
pub(crate) struct Piece {
    pub(crate) octets: Vec<u8>,
    pub(crate) steps: Vec<Step>,
}

/// Of what a signed file consists beside its content: a front, a back, and signers.
#[derive(Drop)]
pub(crate) struct Template {
    name: String,
    pub(crate) alg: Alg,
    pub(crate) pieces: Vec<Piece>,
}

/// An entry of trust lists: its line, the place of the digits that can be exchanged, and its line in the other role.
#[derive(Drop)]
pub(crate) struct Entry {
    pub(crate) line: Vec<u8>,
    pub(crate) at: usize,
    pub(crate) size: usize,
    pub(crate) twisted: Vec<u8>,
}

/// All parts.
#[derive(Drop)]
pub(crate) struct Parts {
    templates: Vec<Template>,
    pub(crate) entries: Vec<Entry>,
    pub(crate) unstamped: Vec<u8>,
    pub(crate) token: Vec<u8>,
}

/// What is left of a line. No call fails: what can't be read is noted, and told at the end of the text.
#[derive(Drop)]
struct Values<'a> {
    alloc: Global,
    left: &'a str,
    good: bool,
}

impl<'a> Values<'a> {
    // The next word.
    fn word(&mut self) -> &'a str {
        let (word, left) = self.left.split_once(' ').unwrap_or((self.left, ""));
        self.left = left;
        word
    }

    // What was found, or something in its place, which is noted.
    fn taken<T: Drop, E: Drop>(&mut self, found: Result<T, E>, otherwise: T) -> T {
        match found {
            Ok(found) => found,
            Err(_) => {
                self.good = false;
                otherwise
            }
        }
    }

    // The next word, as a number.
    fn number(&mut self) -> usize {
        let word = self.word();
        self.taken(word.parse::<usize>(), 0)
    }

    // The next word, as octets.
    fn octets(&mut self) -> Vec<u8> {
        let word = self.word();
        self.taken(hex::decode(self.alloc, word), Vec::new(self.alloc))
    }

    // The line of an entry in this role.
    fn line(&mut self, role: &str, digits: &str) -> Vec<u8> {
        let line = format!(in self.alloc; "{role} {digits}\n");
        self.taken(line, String::new(self.alloc)).into_bytes()
    }

    // What the line with this word fills in.
    fn step(&mut self, word: &str) -> Step {
        let what = what_of(word);
        self.good &= what.is_some();
        Step {
            what: what.unwrap_or(What::Kept),
            at: self.number(),
            from: if word == "digest" { self.number() } else { 0 },
            size: if word == "kept" { 0 } else { self.number() },
        }
    }
}

// What lines with this word fill in.
fn what_of(word: &str) -> Option<What> {
    match word {
        "ends" => Some(What::Ends),
        "holds" => Some(What::Holds),
        "kept" => Some(What::Kept),
        "random" => Some(What::Random),
        "digest" => Some(What::Digest),
        _ => None,
    }
}

impl Parts {
    /// The parts of a text.
    pub(crate) fn read(alloc: Global, text: &str) -> Result<Parts, Bad> {
        let mut parts = Parts {
            templates: Vec::new(alloc),
            entries: Vec::new(alloc),
            unstamped: Vec::new(alloc),
            token: Vec::new(alloc),
        };
        let mut values = Values {
            alloc,
            left: "",
            good: true,
        };
        for line in text.lines() {
            values.left = line;
            parts.add_line(&mut values);
        }
        if values.good {
            Ok(parts)
        } else {
            Err(Bad("a line of parts can't be read"))
        }
    }

    // What a line states.
    fn add_line(&mut self, values: &mut Values<'_>) {
        match values.word() {
            "entry" => self.add_entry(values),
            "template" => self.add_template(values),
            "unstamped" => self.unstamped = values.octets(),
            "token" => self.token = values.octets(),
            "front" | "back" | "item" => self.add_piece(values),
            word => self.add_step(word, values),
        }
    }

    // An entry: its role, its certificate, and the place and number of the octets that can be exchanged.
    fn add_entry(&mut self, values: &mut Values<'_>) {
        let role = values.word();
        let digits = values.word();
        let entry = Entry {
            line: values.line(role, digits),
            twisted: values.line(if role == "tsa" { "signer" } else { "tsa" }, digits),
            at: values
                .number()
                .saturating_mul(2)
                .saturating_add(role.len())
                .saturating_add(1),
            size: values.number().saturating_mul(2),
        };
        values.good &= self.entries.push(entry).is_ok();
    }

    // The beginning of a template.
    fn add_template(&mut self, values: &mut Values<'_>) {
        let name = String::from_str(values.alloc, values.word());
        let alg = Alg::named(values.word());
        values.good &= alg.is_some();
        let template = Template {
            name: values.taken(name, String::new(values.alloc)),
            alg: alg.unwrap_or(Alg::Sha256),
            pieces: Vec::new(values.alloc),
        };
        values.good &= self.templates.push(template).is_ok();
    }

    // A piece of the last template.
    fn add_piece(&mut self, values: &mut Values<'_>) {
        let piece = Piece {
            octets: values.octets(),
            steps: Vec::new(values.alloc),
        };
        match self.templates.as_mut_slice() {
            [.., template] => values.good &= template.pieces.push(piece).is_ok(),
            _ => values.good = false,
        }
    }

    // What is filled in in its last piece.
    fn add_step(&mut self, word: &str, values: &mut Values<'_>) {
        let step = values.step(word);
        let [.., template] = self.templates.as_mut_slice() else {
            values.good = false;
            return;
        };
        match template.pieces.as_mut_slice() {
            [.., piece] => values.good &= piece.steps.push(step).is_ok(),
            _ => values.good = false,
        }
    }

    /// The template with this name.
    pub(crate) fn template(&self, name: &str) -> Result<&Template, Bad> {
        for template in self.templates.as_slice() {
            if template.name.as_str() == name {
                return Ok(template);
            }
        }
        Err(Bad("a template is missing"))
    }
}
