//! The jobs that users wait for, on files that the program makes itself: `workloads JOB COUNT PARTS SEED`. It prints
//! how many answers there were, how many files were accepted, and a digest of all answers, the same at each run.
//!
//! The files are made of the parts in PARTS and of octets that follow from SEED. Signatures are any octets, for which a
//! verifier vouches; all digests are true. `bench/make_inputs.py` says what the parts are, and `docs/PERF.md` what the
//! program is for.
#![tactic(auto)]

mod bad;
mod files;
mod job;
mod job_contents;
mod job_files;
mod job_lists;
mod job_looks;
mod job_questions;
mod job_signers;
mod lists;
mod making;
mod numbers;
mod octets;
mod parts;
mod results;
mod trusting;

use bad::{Bad, needed};
use job::Job;
use parts::Parts;
use results::Results;
use std::rt::Files;
use std::{env, fs, io};

/// The words: a job, how much of it, the file of the parts, and the number from which the octets follow.
fn words_read(words: &[String]) -> Option<(&str, usize, &str, u64)> {
    let [_, job, count, parts, seed] = words else {
        return None;
    };
    let count = count.as_str().parse::<usize>().ok()?;
    let seed = seed.as_str().parse::<u64>().ok()?;
    Some((job.as_str(), count, parts.as_str(), seed))
}

/// Does the job of this name.
fn done(name: &str, job: &Job<'_>, results: &mut Results) -> Result<(), Bad> {
    match name {
        "files" => job_files::run(job, results),
        "questions" => job_questions::run(job, results),
        "lists" => job_lists::run(job, results),
        "signers" => job_signers::run(job, results),
        "contents" => job_contents::run(job, results),
        "looks" => job_looks::run(job, results),
        "all" => all_done(job, results),
        _ => Err(Bad("a job that isn't known")),
    }
}

/// Does each job but that of large contents.
fn all_done(job: &Job<'_>, results: &mut Results) -> Result<(), Bad> {
    let once = Job { count: 1, ..*job };
    job_files::run(job, results)?;
    job_questions::run(job, results)?;
    job_lists::run(&once, results)?;
    job_signers::run(&once, results)?;
    job_looks::run(job, results)
}

/// Reads the parts, and does the job.
fn worked<R: Files + AllocGlobal>(rt: &R, words: &[String]) -> Result<Results, Bad> {
    let asked = words_read(words).ok_or(Bad("not the words JOB COUNT PARTS SEED"));
    let (name, count, path, seed) = asked?;
    let text = needed(fs::read_to_string(rt, path), "no file of parts")?;
    let parts = Parts::read(rt.alloc(), text.as_str())?;
    let job = Job {
        alloc: rt.alloc(),
        parts: &parts,
        count,
        seed,
    };
    let mut results = Results::new(rt.alloc());
    let done = done(name, &job, &mut results);
    results.end(done)
}

fn main(rt: HostRuntime) -> io::Result<()> {
    let words: Vec<String> = env::args(&rt)?.collect(rt.alloc())?;
    match worked(&rt, words.as_slice()) {
        Ok(results) => {
            let count = results.count;
            let accepted = results.accepted;
            let mixed = results.mixed;
            println!(rt; "{count} answers, {accepted} files accepted, {mixed:016x}")
        }
        Err(Bad(why)) => println!(rt; "{why}"),
    }
}
