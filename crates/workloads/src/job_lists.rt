//! Long trust lists, read at each start, with a file checked under each.

use crate::bad::Bad;
use crate::files::Files;
use crate::job::Job;
use crate::lists::trust_of;
use crate::numbers::Numbers;
use crate::octets::Octets;
use crate::results::Results;
use crate::trusting::{Always, take_verdict, verdict};

/// How many entries a list has beside those that files need.
const ENTRIES: usize = 5_000;

pub(crate) fn run(job: &Job<'_>, results: &mut Results) -> Result<(), Bad> {
    let mut numbers = Numbers::new(job.seed ^ 3);
    let mut files = Files::new(job)?;
    let mut file = Octets::new(job.alloc);
    for number in 0..job.count {
        files.make(number, &mut file, results);
        run_one(job, file.as_slice(), &mut numbers, results);
    }
    Ok(())
}

// Reads a list, and checks a file under it.
fn run_one(job: &Job<'_>, file: &[u8], numbers: &mut Numbers, results: &mut Results) {
    match trust_of(job, ENTRIES, numbers) {
        Ok(trust) => {
            take_verdict(&verdict(file, &trust, &mut Always), results);
            results.take_number(trust.entries().len() as u64);
        }
        Err(Bad(why)) => results.note(false, why),
    }
}
