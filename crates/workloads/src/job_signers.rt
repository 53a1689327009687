//! Containers of many signers, each with a token of its own: of RSA and ECDSA signers under few entries, of ECDSA
//! signers under a list in which their certificates stand hundreds of times in the other role, and of signers with
//! twenty tokens each, of which the last passes.

use crate::bad::Bad;
use crate::job::Job;
use crate::lists::{trust_of, twisted_trust_of};
use crate::making::made;
use crate::numbers::Numbers;
use crate::results::Results;
use crate::trusting::take_streamed;
use cmsproof_api::Trust;

/// How many octets a content has.
const SIZE: usize = 3_000;

/// How many octets of a file are kept at most.
const ROOM: usize = 4_194_304;

pub(crate) fn run(job: &Job<'_>, results: &mut Results) -> Result<(), Bad> {
    let mut numbers = Numbers::new(job.seed ^ 4);
    let few = trust_of(job, 0, &mut numbers)?;
    let twisted = twisted_trust_of(job, 250)?;
    for _ in 0..job.count {
        run_one(job, "many_rsa", 1_000, &few, &mut numbers, results);
        run_one(job, "many_ecdsa", 1_000, &few, &mut numbers, results);
        run_one(job, "many_ecdsa", 300, &twisted, &mut numbers, results);
        run_one(job, "twenty", 30, &few, &mut numbers, results);
    }
    Ok(())
}

// Checks a file of so many signers.
fn run_one(
    job: &Job<'_>,
    name: &str,
    signers: usize,
    trust: &Trust,
    numbers: &mut Numbers,
    results: &mut Results,
) {
    match made(job, name, SIZE, signers, numbers) {
        Ok((file, _)) => take_streamed(file.as_slice(), (ROOM, false), trust, results),
        Err(Bad(why)) => results.note(false, why),
    }
}
