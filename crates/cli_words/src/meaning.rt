ghost use Rattle.std.specs.Prelude.{◌≡◌, ◌⊎◌, ◌<◌, ◌≤◌, codes, option_map, Err, IfErr, IfOk, IfSome, Some, true, false};
ghost use Rattle.clap.specs.Matches.{found_of, subcommand_name_of};
ghost use Rattle.clap.specs.Simple.{subcommand_rows_of};
ghost use Rattle.clap.specs.Walk.{rows_of};
ghost use Rattle.clap.specs.declared.parser.matches.Found.{Found};
ghost use Rattle.clap.specs.Values.{kind_of};
ghost use Rattle.cli_failures.specs.Causes.{Names};
ghost use Rattle.cli_words.specs.Words.{asks_for_help, text_command_of, IsHelp, IsTextTaskIn, IsWords};
ghost use Rattle.cli_words.specs.Groups.{evidence_group_of, text_group_of};
ghost use Rattle.cli_words.specs.Several.{IsManyIn, each_command_of};
ghost use Rattle.cli_words.specs.Records.{IsEvidenceTaskIn, evidence_command_of};
ghost use Rattle.cli_words.specs.Meanings.{AsksFor, IsMeaningIn};
ghost use Rattle.cli_words.specs.Inputs.{evidence_paths, inputs_among, task_paths, IsReadAgain};

use crate::grammar::{Group, group_named, line_of, place_of};
use crate::inputs::{STANDARD_INPUT, is_evidence_read_twice, is_read_again, is_read_twice};
use crate::several::{each_of, several_in};
use crate::words::{
    attach_words, check_words, compare_words, evidence_questions_words, evidence_words, fit_words,
    make_words, match_words, migrate_words, questions_words, request_words, root_request_words,
    shown, some_values, stamp_questions_words, stamp_words, under_words, value,
};
use clap::error::ErrorKind;
use clap::{ArgMatches, Command};
use cli_failures::Failure;
use cli_tasks::{
    EvidenceTask, Many, RehashRequestWords, RehashWords, RenewWords, RenewalRequestWords, Task,
    TextTask,
};
use std::alloc::Global;
use std::convert::AsStr;

/// What the words of the command line ask for.
#[derive(Drop)]
pub enum Meaning<'a> {
    /// A task.
    Task(Task<'a>),
    /// A task about an evidence record.
    Evidence(EvidenceTask<'a>),
    /// What a command asks of several files.
    Many(Many<'a>),
    /// Help, or the version: this text.
    Help(String),
}

/// What the words ask for, by what the parser found in the grammar of this group. (It is a call of its own, so that its
/// room on the stack does not lie below the parser.)
#[inline(never)]
fn meaning_in<'a>(
    alloc: Global,
    group: Group,
    matches: &ArgMatches<'a>,
) -> Result<Meaning<'a>, Failure<'a>>
    ensures command { IfOk result (AsksFor (subcommand_name_of matches.now)) }
    // The values are those of the arguments that the parser found for this command.
    ensures words { IfOk result (λ meaning. (given : Found)
        × (option_map (λ p. p.1) (subcommand_rows_of matches.now) ≡ Some (rows_of given))
        × IsMeaningIn group given meaning) }
{
    match matches.subcommand() {
        Some((command, given)) => meaning_of_command(alloc, group, command, given),
        // The parser demands a command.
        None => Err(Failure::Usage("command")),
    }
}

/// What the words of this command, in this group, ask for.
fn meaning_of_command<'a>(
    alloc: Global,
    group: Group,
    command: &str,
    given: &ArgMatches<'a>,
) -> Result<Meaning<'a>, Failure<'a>>
    ensures command { IfOk result (AsksFor (Some command.now)) }
    ensures words { IfOk result (IsMeaningIn group (found_of given.now)) }
{
    if let Some(many) = many_in(alloc, group, command, given)? {
        return unambiguous_many(many);
    }
    match (group, command) {
        (Group::Program, "check") if given.get_str("evidence").is_some() => {
            unambiguous_evidence(EvidenceTask::CheckUnder(under_words(alloc, given)?))
        }
        (Group::Program, "questions") => unambiguous(Task::Questions(questions_words(given)?)),
        (Group::Program, _) => unambiguous(Task::Text(text_task_in(command, given)?)),
        (Group::Stamps, _) => unambiguous(Task::Text(stamp_task_in(command, given)?)),
        (Group::Evidence, _) => unambiguous_evidence(evidence_task_in(alloc, command, given)?),
    }
}

/// The command that takes several records together.
const RENEW: &str = "renew";

/// What the command asks of several files, or stamps, or records, each by itself, if the words name several, or a list
/// of them.
fn many_in<'a>(
    alloc: Global,
    group: Group,
    command: &str,
    given: &ArgMatches<'a>,
) -> Result<Option<Many<'a>>, Failure<'a>>
    ensures command { IfOk result (λ many. IfSome many (λ m. command.now ≡ each_command_of m.each)) }
    ensures words { IfOk result (λ many. IfSome many (IsManyIn group (found_of given.now))) }
{
    if command == RENEW {
        return Ok(None);
    }
    let Some(files) = several_in(alloc, place_of(group), given)? else {
        return Ok(None);
    };
    let each = each_of(group, command, given)?;
    Ok(Some(Many { each, files }))
}

/// The task of this command, if it is one whose text is made before it is printed.
fn text_task_in<'a>(command: &str, given: &ArgMatches<'a>) -> Result<TextTask<'a>, Failure<'a>>
    ensures command { IfOk result (λ task. command.now ≡ text_command_of task) }
    ensures words { IfOk result (IsTextTaskIn (found_of given.now)) }
    ensures group { IfOk result (λ task. text_group_of task ≡ Group.Program) }
{
    match command {
        "request" => Ok(TextTask::Request(request_words(given)?)),
        "show" => shown(given),
        "cert" => Ok(TextTask::ShowCertificate(value(given, "FILE")?)),
        "fit" => Ok(TextTask::Fit(fit_words(given)?)),
        "match" => Ok(TextTask::Match(match_words(given)?)),
        "check" => Ok(TextTask::Check(check_words(given)?)),
        "attach" => Ok(TextTask::Attach(attach_words(given)?)),
        "compare" => Ok(TextTask::Compare(compare_words(given)?)),
        "migrate" => Ok(TextTask::Migrate(migrate_words(given)?)),
        // The parser knows no other command.
        _ => Err(Failure::Usage("command")),
    }
}

/// The task of this command about stamps.
fn stamp_task_in<'a>(command: &str, given: &ArgMatches<'a>) -> Result<TextTask<'a>, Failure<'a>>
    ensures command { IfOk result (λ task. command.now ≡ text_command_of task) }
    ensures words { IfOk result (IsTextTaskIn (found_of given.now)) }
    ensures group { IfOk result (λ task. text_group_of task ≡ Group.Stamps) }
{
    match command {
        "check" => Ok(TextTask::CheckStamp(stamp_words(given)?)),
        "questions" => Ok(TextTask::AskStamp(stamp_questions_words(given)?)),
        // The parser knows no other command.
        _ => Err(Failure::Usage("command")),
    }
}

/// The task of this command about evidence records.
fn evidence_task_in<'a>(
    alloc: Global,
    command: &str,
    given: &ArgMatches<'a>,
) -> Result<EvidenceTask<'a>, Failure<'a>>
    ensures command { IfOk result (λ task. command.now ≡ evidence_command_of task) }
    ensures words { IfOk result (IsEvidenceTaskIn (found_of given.now)) }
    ensures group { IfOk result (λ task. evidence_group_of task ≡ Group.Evidence) }
{
    match command {
        "check" => Ok(EvidenceTask::Check(evidence_words(alloc, given)?)),
        "questions" => Ok(EvidenceTask::Questions(evidence_questions_words(given)?)),
        "request" => Ok(EvidenceTask::Request(root_request_words(given)?)),
        "make" => Ok(EvidenceTask::Make(make_words(given)?)),
        RENEW => renewal_in(alloc, given),
        "rehash" => rehash_in(given),
        // The parser knows no other command.
        _ => Err(Failure::Usage("command")),
    }
}

/// The task of `evidence renew`: a request, if a file is named that it goes into, or a renewal, if a token is.
///
/// Errors: `Usage`, which names `request`, if neither or both are.
fn renewal_in<'a>(alloc: Global, given: &ArgMatches<'a>) -> Result<EvidenceTask<'a>, Failure<'a>>
    ensures command { IfOk result (λ task. evidence_command_of task ≡ codes "renew") }
    ensures words { IfOk result (IsEvidenceTaskIn (found_of given.now)) }
    ensures group { IfOk result (λ task. evidence_group_of task ≡ Group.Evidence) }
{
    let records = some_values(alloc, given, "RECORD")?;
    match (given.get_str("request"), given.get_str("token")) {
        (Some(out), None) => Ok(EvidenceTask::RequestRenewal(RenewalRequestWords { records, out })),
        (None, Some(token)) => Ok(EvidenceTask::Renew(RenewWords { records, token })),
        _ => Err(Failure::Usage("request")),
    }
}

/// The task of `evidence rehash`: a request, if a file is named that it goes into, or new chains, if a token is.
///
/// Errors: `Usage`, which names `request`, if neither or both are.
fn rehash_in<'a>(given: &ArgMatches<'a>) -> Result<EvidenceTask<'a>, Failure<'a>>
    ensures command { IfOk result (λ task. evidence_command_of task ≡ codes "rehash") }
    ensures words { IfOk result (IsEvidenceTaskIn (found_of given.now)) }
    ensures group { IfOk result (λ task. evidence_group_of task ≡ Group.Evidence) }
{
    let (alg, sums) = (value(given, "alg")?, value(given, "SUMS")?);
    let (into, alone) = (value(given, "into")?, given.get_flag("alone"));
    match (given.get_str("request"), given.get_str("token")) {
        (Some(out), None) => Ok(EvidenceTask::RequestRehash(RehashRequestWords {
            alg,
            sums,
            into,
            alone,
            out,
        })),
        (None, Some(token)) => Ok(EvidenceTask::Rehash(RehashWords {
            alg,
            sums,
            into,
            alone,
            token,
        })),
        _ => Err(Failure::Usage("request")),
    }
}

/// What the parser's error means: help and the version if they were requested; all others are faults of the words.
fn meaning_of_error<'a>(alloc: Global, error: &clap::Error) -> Result<Meaning<'a>, Failure<'a>>
    ensures help { IfOk result (λ meaning. IsHelp meaning × (asks_for_help (kind_of error.now) ≡ true)) }
    ensures fault { IfErr result (λ f. (f ≡ Failure.Memory)
        ⊎ (IsWords f × (asks_for_help (kind_of error.now) ≡ false))) }
    ensures memory { kind_of error.now ≡ ErrorKind.OutOfMemory → result ≡ Err Failure.Memory }
{
    let kind = error.kind();
    if kind == ErrorKind::OutOfMemory {
        return Err(Failure::Memory);
    }
    let text = format!(in alloc; "{error}")?;
    if matches!(kind, ErrorKind::DisplayHelp | ErrorKind::DisplayVersion) {
        Ok(Meaning::Help(text))
    } else {
        Err(Failure::Words(text))
    }
}

/// What the words ask for; the first word is the program's name. Behind `stamp` and `evidence` stand commands of their
/// own. (The grammar is made before the words are parsed: each gives its room on the stack back, so that none of it
/// lies below the other, or below the command.)
#[inline(never)]
pub fn meaning_of<'a, S: AsStr>(alloc: Global, words: &'a [S]) -> Result<Meaning<'a>, Failure<'a>> {
    let word = match words {
        [_, word, ..] => word.as_str(),
        _ => "",
    };
    let group = group_named(word);
    meaning_by(alloc, group, line_of(alloc, group, word)?, words)
}

/// The same by this grammar, which is that of this group: for the words behind the program's name, or behind the word
/// that names the group.
#[inline(never)]
fn meaning_by<'a, S: AsStr>(
    alloc: Global,
    group: Group,
    line: Command<'a>,
    words: &'a [S],
) -> Result<Meaning<'a>, Failure<'a>> {
    let behind = match (group, words) {
        (Group::Stamps | Group::Evidence, [_, behind @ ..]) => behind,
        _ => words,
    };
    match line.try_get_matches_from(behind) {
        Ok(matches) => meaning_in(alloc, group, &matches),
        Err(error) => meaning_of_error(alloc, &error),
    }
}

/// The task, unless it would read standard input in the place of two files.
fn unambiguous<'a>(task: Task<'a>) -> Result<Meaning<'a>, Failure<'a>>
    ensures task { IfOk result (λ meaning. meaning ≡ Meaning.Task task.entry) }
    ensures once { IfOk result (λ _. inputs_among (task_paths task.entry) ≤ 1) }
    ensures refused { IfErr result (λ f. Names (codes "-") f × (1 < inputs_among (task_paths task.entry))) }
{
    if is_read_twice(&task) {
        Err(Failure::Usage(STANDARD_INPUT))
    } else {
        Ok(Meaning::Task(task))
    }
}

/// The same for a task about an evidence record.
fn unambiguous_evidence<'a>(task: EvidenceTask<'a>) -> Result<Meaning<'a>, Failure<'a>>
    ensures task { IfOk result (λ meaning. meaning ≡ Meaning.Evidence task.entry) }
    ensures once { IfOk result (λ _. inputs_among (evidence_paths task.entry) ≤ 1) }
    ensures refused { IfErr result (λ f. Names (codes "-") f × (1 < inputs_among (evidence_paths task.entry))) }
{
    if is_evidence_read_twice(&task) {
        Err(Failure::Usage(STANDARD_INPUT))
    } else {
        Ok(Meaning::Evidence(task))
    }
}

/// What is asked of several files, unless it would read standard input more than once.
fn unambiguous_many<'a>(many: Many<'a>) -> Result<Meaning<'a>, Failure<'a>>
    ensures many { IfOk result (λ meaning. meaning ≡ Meaning.Many many.entry) }
    ensures once { IfOk result (λ _. ¬ (IsReadAgain many.entry)) }
    ensures refused { IfErr result (λ f. Names (codes "-") f × IsReadAgain many.entry) }
{
    if is_read_again(&many) {
        Err(Failure::Usage(STANDARD_INPUT))
    } else {
        Ok(Meaning::Many(many))
    }
}
