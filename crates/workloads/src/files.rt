//! Small files of several kinds, one after another.

use crate::bad::{Bad, needed};
use crate::job::Job;
use crate::making::make;
use crate::numbers::Numbers;
use crate::octets::Octets;
use crate::parts::Template;
use crate::results::Results;
use digests::{Digest, digest};

/// How many octets a small file's content has.
const SIZE: usize = 3_000;

/// How many contents there are, of which each file has one.
const CONTENTS: usize = 64;

/// The templates of the files, one after another: with an RSA signer, an ECDSA signer, one of each, and with a signer
/// that names another digest than the file lists.
const KINDS: &str = "rsa ecdsa rsa two ecdsa rsa two other";

/// Small files, of which no two are the same: their contents, their templates, and the digests of all contents by the
/// algorithm of each template.
#[derive(Drop)]
pub(crate) struct Files<'a> {
    numbers: Numbers,
    contents: Vec<u8>,
    templates: Vec<&'a Template>,
    digests: Vec<Digest>,
}

// The content with this number.
fn content_at(contents: &[u8], number: usize) -> &[u8] {
    let from = (number % CONTENTS) * SIZE;
    if from + SIZE <= contents.len() {
        &contents[from..from + SIZE]
    } else {
        contents
    }
}

impl<'a> Files<'a> {
    /// The files of a job.
    pub(crate) fn new(job: &Job<'a>) -> Result<Files<'a>, Bad> {
        let mut numbers = Numbers::new(job.seed);
        let mut contents = vec![in job.alloc; 0; SIZE * CONTENTS]?;
        numbers.fill(contents.as_mut_slice());
        let mut files = Files {
            numbers,
            contents,
            templates: Vec::new(job.alloc),
            digests: Vec::new(job.alloc),
        };
        files.add_kinds(job)?;
        Ok(files)
    }

    // All kinds.
    fn add_kinds(&mut self, job: &Job<'a>) -> Result<(), Bad> {
        for name in KINDS.split(' ') {
            self.add_kind(job.parts.template(name)?)?;
        }
        Ok(())
    }

    // One more kind.
    fn add_kind(&mut self, template: &'a Template) -> Result<(), Bad> {
        for number in 0..CONTENTS {
            let digest = digest(template.alg, content_at(self.contents.as_slice(), number));
            needed(self.digests.push(digest), "no memory")?;
        }
        needed(self.templates.push(template), "no memory")
    }

    /// Makes the file with this number in place of what `file` holds.
    pub(crate) fn make(&mut self, number: usize, file: &mut Octets, results: &mut Results) {
        let kind = number % 8;
        let chosen = (number / 8) % CONTENTS;
        let place = kind * CONTENTS + chosen;
        if kind >= self.templates.len() || place >= self.digests.len() {
            return results.note(false, "a kind of files is missing");
        }
        let template = self.templates[kind];
        let octets = content_at(self.contents.as_slice(), chosen);
        let digest = self.digests[place];
        let signers = template.pieces.len().saturating_sub(2);
        make(template, octets, &digest, signers, &mut self.numbers, file);
        results.note(file.whole && signers > 0, "a file can't be made");
    }
}
