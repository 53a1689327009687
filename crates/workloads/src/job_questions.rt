//! What a verifier must be asked of many small files, and the verdicts by its answers: a hundred files at a time.

use crate::bad::{Bad, needed};
use crate::files::Files;
use crate::job::Job;
use crate::lists::trust_of;
use crate::numbers::Numbers;
use crate::octets::Octets;
use crate::results::Results;
use crate::trusting::{take_verdict, verdict};
use cmsproof_api::{Answers, FromWrite, Pass, Slice, Trust, questions_stream};
use std::alloc::Global;

/// How many files are asked about at a time.
const BATCH: usize = 100;

/// How many octets of a small file are kept at most.
const ROOM: usize = 16_384;

/// The first line of an answers list.
const HEADING: &[u8] = b"cmsproof answers 1\n";

pub(crate) fn run(job: &Job<'_>, results: &mut Results) -> Result<(), Bad> {
    let trust = trust_of(job, 46, &mut Numbers::new(job.seed ^ 2))?;
    let mut files = Files::new(job)?;
    for batch in 0..job.count / BATCH {
        run_batch(&trust, &mut files, batch, results);
    }
    Ok(())
}

// Asks about the files of a batch, and checks each by the answers.
fn run_batch(trust: &Trust, files: &mut Files<'_>, batch: usize, results: &mut Results) {
    let alloc = results.alloc;
    let first = batch.wrapping_mul(BATCH);
    let mut made = Vec::new(alloc);
    let mut text = Octets::new(alloc);
    text.add(HEADING);
    for number in 0..BATCH {
        let mut file = Octets::new(alloc);
        files.make(first.wrapping_add(number), &mut file, results);
        let asked = add_questions(alloc, trust, file.as_slice(), &mut text);
        results.note(asked.is_ok(), "a file without questions");
        results.note(made.push(file).is_ok(), "no memory");
    }
    results.note(text.whole, "no memory");
    results.take(text.as_slice());
    check_batch(trust, made.as_slice(), text.as_slice(), results);
}

// Checks files by the answers of a text.
fn check_batch(trust: &Trust, files: &[Octets], text: &[u8], results: &mut Results) {
    let Ok(mut answers) = Answers::read(results.alloc, text) else {
        return results.note(false, "answers with a fault");
    };
    for file in files {
        take_verdict(&verdict(file.as_slice(), trust, &mut answers), results);
    }
}

// Adds the questions of a file, without their first line.
fn add_questions(alloc: Global, trust: &Trust, file: &[u8], text: &mut Octets) -> Result<(), Bad> {
    let mut buffer = vec![in alloc; 0; ROOM]?;
    let mut sink = FromWrite::new(Vec::new(alloc));
    let asked = questions_stream(
        &mut Pass::new(),
        &mut Slice::new(file),
        buffer.as_mut_slice(),
        trust,
        &mut sink,
    );
    let questions = sink.into_inner();
    let mut lines = questions
        .as_slice()
        .split_inclusive(|octet| *octet == b'\n');
    let _ = lines.next();
    for line in lines {
        text.add(line);
    }
    needed(asked, "a file without questions")
}
