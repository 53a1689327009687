//! Large contents: in the file, beside it, and in a file that comes through a pipe and so is hashed by all algorithms.

use crate::bad::Bad;
use crate::job::Job;
use crate::lists::trust_of;
use crate::making::made;
use crate::numbers::Numbers;
use crate::results::Results;
use crate::trusting::take_streamed;
use cmsproof_api::Trust;

/// How many octets a content has.
const SIZE: usize = 33_554_432;

/// How many octets the content of a file has that comes through a pipe.
const PIPED_SIZE: usize = SIZE / 2 + 1_000_000;

/// How many octets of a file are kept at most.
const ROOM: usize = 65_536;

pub(crate) fn run(job: &Job<'_>, results: &mut Results) -> Result<(), Bad> {
    let mut numbers = Numbers::new(job.seed ^ 5);
    let trust = trust_of(job, 0, &mut numbers)?;
    for _ in 0..job.count {
        run_one(job, "large_256", SIZE, &trust, &mut numbers, results);
        run_one(job, "large_512", SIZE, &trust, &mut numbers, results);
        run_one(job, "large_256", PIPED_SIZE, &trust, &mut numbers, results);
    }
    Ok(())
}

// Checks a file with a content of this size, which says whether it comes through a pipe.
fn run_one(
    job: &Job<'_>,
    name: &str,
    size: usize,
    trust: &Trust,
    numbers: &mut Numbers,
    results: &mut Results,
) {
    match made(job, name, size, 1, numbers) {
        Ok((file, digest)) => {
            results.take(digest.bytes());
            let pipe = size == PIPED_SIZE;
            take_streamed(file.as_slice(), (ROOM, pipe), trust, results);
        }
        Err(Bad(why)) => results.note(false, why),
    }
}
