//! Verdicts of many small files under one list: every other file in pieces, as the command reads it, and every other
//! one in memory, as the library does.

use crate::bad::Bad;
use crate::files::Files;
use crate::job::Job;
use crate::lists::trust_of;
use crate::numbers::Numbers;
use crate::octets::Octets;
use crate::results::Results;
use crate::trusting::{Always, Verdict, stream_verdict, take_verdict, verdict};
use cmsproof_api::Trust;

/// How many octets of a small file are kept at most.
const ROOM: usize = 16_384;

pub(crate) fn run(job: &Job<'_>, results: &mut Results) -> Result<(), Bad> {
    let mut buffer = vec![in job.alloc; 0; ROOM]?;
    let trust = trust_of(job, 46, &mut Numbers::new(job.seed ^ 1))?;
    let mut files = Files::new(job)?;
    let mut file = Octets::new(job.alloc);
    for number in 0..job.count {
        files.make(number, &mut file, results);
        let judged = judged(number, &mut file, buffer.as_mut_slice(), &trust);
        take_verdict(&judged, results);
    }
    Ok(())
}

// The verdict of the file with this number.
fn judged(number: usize, file: &mut Octets, buffer: &mut [u8], trust: &Trust) -> Verdict {
    if number % 16 == 15 {
        // one in sixteen files ends with another octet than it must
        let _ = file.octets.pop();
    }
    if (number / 8) % 2 == 0 {
        stream_verdict(file.as_slice(), buffer, false, trust)
    } else {
        verdict(file.as_slice(), trust, &mut Always)
    }
}
