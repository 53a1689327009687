//! What somebody looks at: the lines that show a file, whether content and signers fit, whether signers of two files
//! sign the same, and a file with one more token.

use crate::bad::Bad;
use crate::files::Files;
use crate::job::Job;
use crate::making::made;
use crate::numbers::Numbers;
use crate::octets::Octets;
use crate::results::Results;
use crate::trusting::{none, policy};
use cmsproof_api::{FromWrite, attach, compare, fits};
use lines_shown::show_signed;
use std::mem;

pub(crate) fn run(job: &Job<'_>, results: &mut Results) -> Result<(), Bad> {
    let mut files = Files::new(job)?;
    let mut numbers = Numbers::new(job.seed ^ 6);
    let mut before = Octets::new(job.alloc);
    let mut file = Octets::new(job.alloc);
    files.make(0, &mut before, results);
    for number in 0..job.count {
        files.make(number, &mut file, results);
        look(file.as_slice(), results);
        look_at_both(before.as_slice(), file.as_slice(), results);
        look_at_many(job, number, &mut numbers, results);
        mem::swap(&mut before, &mut file);
    }
    attach_tokens(job, results)
}

// Shows a file, and says how many of its signers fit.
fn look(file: &[u8], results: &mut Results) {
    match show_signed::text_of(results.alloc, file) {
        Ok(lines) => results.take(lines.as_bytes()),
        Err(_) => results.note(false, "a file that can't be shown"),
    }
    if let Ok(count) = fits(file, &mut none(), &policy()) {
        results.take_number(count as u64);
    }
}

// Compares the first signers of two files.
fn look_at_both(before: &[u8], file: &[u8], results: &mut Results) {
    if let Ok(compared) = compare(before, 1, file, 1) {
        results.take_number(compared as u64);
    }
}

// After one in a hundred files looks at one of a hundred signers.
fn look_at_many(job: &Job<'_>, number: usize, numbers: &mut Numbers, results: &mut Results) {
    if number % 100 == 0 {
        match made(job, "many_ecdsa", 3_000, 100, numbers) {
            Ok((many, _)) => look(many.as_slice(), results),
            Err(Bad(why)) => results.note(false, why),
        }
    }
}

// Adds one token after another to a file.
fn attach_tokens(job: &Job<'_>, results: &mut Results) -> Result<(), Bad> {
    let mut file = Vec::new(job.alloc);
    file.extend_from_slice(job.parts.unstamped.as_slice())?;
    for _ in 0..20 {
        let mut sink = FromWrite::new(Vec::new(job.alloc));
        let attached = attach(file.as_slice(), 1, job.parts.token.as_slice(), &mut sink);
        results.note(attached.is_ok(), "a token that can't be attached");
        file = sink.into_inner();
        results.take(file.as_slice());
    }
    Ok(())
}
