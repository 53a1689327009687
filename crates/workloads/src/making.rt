//! Signed files, made of a template.

use crate::bad::Bad;
use crate::job::Job;
use crate::numbers::Numbers;
use crate::octets::Octets;
use crate::parts::{Piece, Step, Template, What};
use digests::{Digest, digest};

/// What is filled in of a content: its digest, and where it ends.
#[derive(Clone, Copy)]
struct Content<'a> {
    digest: &'a Digest,
    end: usize,
}

// Fills in one thing of a piece that stands at `base`.
fn fill_step(step: Step, base: usize, content: &Content, numbers: &mut Numbers, file: &mut Octets) {
    let at = base.saturating_add(step.at);
    match step.what {
        What::Ends => file.put_length(at, step.size, file.as_slice().len()),
        What::Holds => file.put_length(at, step.size, content.end),
        What::Kept => file.put(at, content.digest.bytes()),
        What::Random => numbers.fill(file.part(at, step.size)),
        What::Digest => file.put_digest(at, base.saturating_add(step.from), step.size),
    }
}

// Fills in what a piece that stands at `base` has of its own.
fn fill(piece: &Piece, base: usize, content: &Content, numbers: &mut Numbers, file: &mut Octets) {
    for step in piece.steps.as_slice() {
        fill_step(*step, base, content, numbers, file);
    }
}

// Adds a signer.
fn add_item(item: &Piece, content: &Content, numbers: &mut Numbers, file: &mut Octets) {
    let base = file.as_slice().len();
    file.add(item.octets.as_slice());
    fill(item, base, content, numbers, file);
}

/// Makes a file of so many signers over octets with this digest, in place of what `file` holds.
pub(crate) fn make(
    template: &Template,
    octets: &[u8],
    digest: &Digest,
    signers: usize,
    numbers: &mut Numbers,
    file: &mut Octets,
) {
    file.clear();
    let [front, back, items @ ..] = template.pieces.as_slice() else {
        file.whole = false;
        return;
    };
    file.add(front.octets.as_slice());
    file.add(octets);
    let end = file.as_slice().len();
    let content = Content { digest, end };
    file.add(back.octets.as_slice());
    for number in 0..signers {
        match items.get(number % items.len().max(1)) {
            Some(item) => add_item(item, &content, numbers, file),
            None => file.whole = false,
        }
    }
    fill(front, 0, &content, numbers, file);
    fill(back, end, &content, numbers, file);
}

/// A file by the template of this name, of so many signers, over a content of `size` octets, and the content's digest.
pub(crate) fn made(
    job: &Job<'_>,
    name: &str,
    size: usize,
    signers: usize,
    numbers: &mut Numbers,
) -> Result<(Octets, Digest), Bad> {
    let template = job.parts.template(name)?;
    let mut octets = vec![in job.alloc; 0; size]?;
    numbers.fill(octets.as_mut_slice());
    let digest = digest(template.alg, octets.as_slice());
    let mut file = Octets::new(job.alloc);
    make(
        template,
        octets.as_slice(),
        &digest,
        signers,
        numbers,
        &mut file,
    );
    if file.whole {
        Ok((file, digest))
    } else {
        Err(Bad("a file can't be made"))
    }
}
