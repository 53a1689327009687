//! Whether a task would read standard input in the place of two files.
ghost use Rattle.std.specs.Prelude.{◌≡◌, ◌||◌, ◌++◌, [], map, nat_lt};
ghost use Rattle.cli_words.specs.Inputs.{content_of, evidence_paths, inputs_among, lists_of, several_paths, task_paths};
ghost use Rattle.cli_words.specs.Inputs.{with_content};

use cli_tasks::{Each, EvidenceTask, Many, Several, Task, TextTask};

/// Standard input, in the place of the path of a file that is read.
pub const STANDARD_INPUT: &str = "-";

/// Whether two of the files that a task reads are standard input.
pub fn is_read_twice(task: &Task<'_>) -> bool
    ensures { result ≡ nat_lt 1 (inputs_among (task_paths task.now)) }
{
    match task {
        Task::Questions(words) => is_twice(&[words.trust], &[words.file]),
        Task::Text(task) => match task {
            TextTask::Check(words) => {
                let paths = [words.trust, words.answers, words.file];
                is_twice(words.content.as_slice(), &paths)
            }
            TextTask::Fit(words) => is_twice(words.content.as_slice(), &[words.file]),
            TextTask::Match(words) => is_twice(&[words.request], &[words.response]),
            TextTask::Compare(words) => is_twice(&[words.first_file], &[words.second_file]),
            TextTask::Attach(words) => is_twice(&[words.token], &[words.file]),
            TextTask::CheckStamp(words) => {
                is_twice(&[words.trust, words.answers], &[words.stamp, words.data])
            }
            TextTask::AskStamp(words) => is_twice(&[words.trust], &[words.stamp]),
            TextTask::Request(_)
            | TextTask::ShowRequest(_)
            | TextTask::ShowResponse(_)
            | TextTask::ShowTst(_)
            | TextTask::ShowSigned(_)
            | TextTask::ShowEvidence(_)
            | TextTask::ShowCertificate(_)
            | TextTask::Migrate(_) => false,
        },
    }
}

/// Whether two of the files that a task about an evidence record reads are standard input.
pub fn is_evidence_read_twice(task: &EvidenceTask<'_>) -> bool
    ensures { result ≡ nat_lt 1 (inputs_among (evidence_paths task.now)) }
{
    match task {
        EvidenceTask::Check(words) => {
            let lists_and_record = [words.trust, words.answers, words.record];
            is_twice(&lists_and_record, words.data.as_slice())
        }
        EvidenceTask::CheckUnder(words) => {
            let paths = [words.trust, words.answers, words.record, words.file];
            is_twice(words.content.as_slice(), &paths)
        }
        EvidenceTask::Questions(words) => is_twice(&[words.trust], &[words.record]),
        EvidenceTask::Request(words) => is_twice(&[words.sums], &[]),
        EvidenceTask::Make(words) => is_twice(&[words.token], &[words.sums]),
        EvidenceTask::RequestRenewal(words) => is_twice(&[], words.records.as_slice()),
        EvidenceTask::Renew(words) => is_twice(&[words.token], words.records.as_slice()),
        EvidenceTask::RequestRehash(words) => is_twice(&[words.sums], &[]),
        EvidenceTask::Rehash(words) => is_twice(&[words.token], &[words.sums]),
    }
}

/// Whether what is asked of several files reads standard input more than once: a content is read for each file.
pub fn is_read_again(many: &Many<'_>) -> bool
    ensures { result ≡ nat_lt 0 (inputs_among (with_content (content_of many.now.each) []))
        || nat_lt 1 (inputs_among (lists_of many.now.each ++ several_paths many.now.files)) }
{
    match &many.each {
        Each::Check(words) => {
            inputs_among(words.content.as_slice()) > 0
                || is_in_several(&[words.trust, words.answers], &many.files)
        }
        Each::Fit(words) => {
            inputs_among(words.content.as_slice()) > 0 || is_in_several(&[], &many.files)
        }
        Each::Questions(words) => is_in_several(&[words.trust], &many.files),
    }
}

/// Whether two of these lists and of the files, or of their list, are standard input.
fn is_in_several(lists: &[&str], files: &Several<'_>) -> bool
    ensures { result ≡ nat_lt 1 (inputs_among (map (λ p. p.now) lists.now ++ several_paths files.now)) }
{
    match files {
        Several::Listed(words) => is_twice(lists, &[words.list]),
        Several::Words(paths) => is_twice(lists, paths.as_slice()),
    }
}

/// Whether two of all these paths name standard input.
fn is_twice(paths: &[&str], others: &[&str]) -> bool
    ensures { result ≡ nat_lt 1 (inputs_among (map (λ p. p.now) paths.now ++ map (λ p. p.now) others.now)) }
{
    let (before, after) = (inputs_among(paths), inputs_among(others));
    before > 1 || after > 1 || before + after > 1
}

/// How many of these paths name standard input.
fn inputs_among(paths: &[&str]) -> usize
    ensures { result ≡ inputs_among (map (λ p. p.now) paths.now) }
{
    let mut count = 0;
    for path in paths {
        if *path == STANDARD_INPUT {
            count += 1;
        }
    }
    count
}
