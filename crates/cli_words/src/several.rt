//! The files that a command takes if it takes several, and what it asks of each.
ghost use Rattle.std.specs.Prelude.{◌≡◌, IfOk, IfSome};
ghost use Rattle.clap.specs.Matches.{found_of};
ghost use Rattle.cli_words.specs.Several.{IsCheckEachIn, IsEachIn, IsFitEachIn, IsQuestionsEachIn, IsSeveralIn};
ghost use Rattle.cli_words.specs.Several.{each_command_of};
ghost use Rattle.cli_words.specs.Groups.{about_group_of, each_group_of};

use crate::grammar::{Group, place_of};
use crate::words::{buffer_octets, value};
use clap::ArgMatches;
use cli_failures::Failure;
use cli_tasks::{About, CheckEach, Each, FitEach, ListWords, QuestionsEach, Several};
use std::alloc::Global;

/// The files in the places of this name, if there are two or more, or those that are in a list.
pub fn several_in<'a>(
    alloc: Global,
    place: &'static str,
    given: &ArgMatches<'a>,
) -> Result<Option<Several<'a>>, Failure<'a>>
    ensures { IfOk result (λ files. IfSome files (IsSeveralIn place.now (found_of given.now))) }
{
    if let Some(list) = given.get_str("files-from") {
        return Ok(Some(Several::Listed(ListWords {
            list,
            null: given.get_flag("null"),
        })));
    }
    match given.get_strs(place) {
        Some(paths) if paths.len() > 1 => {
            let mut words = Vec::new(alloc);
            words.extend_from_slice(paths)?;
            Ok(Some(Several::Words(words)))
        }
        _ => Ok(None),
    }
}

/// What the command of this name, in this group, asks of each of several files.
pub fn each_of<'a>(
    group: Group,
    command: &str,
    given: &ArgMatches<'a>,
) -> Result<Each<'a>, Failure<'a>>
    ensures command { IfOk result (λ each. command.now ≡ each_command_of each) }
    ensures words { IfOk result (IsEachIn (found_of given.now)) }
    ensures group { IfOk result (λ each. each_group_of each ≡ group) }
{
    match (group, command) {
        (Group::Program, "check") => Ok(Each::Check(check_each(given)?)),
        (Group::Program, "fit") => Ok(Each::Fit(fit_each(given))),
        (_, "questions") => Ok(Each::Questions(questions_each(group, given)?)),
        // The parser takes several files for no other command.
        _ => Err(Failure::Usage(place_of(group))),
    }
}

/// The lists that each file is checked with, and what is allowed.
///
/// Errors: `Usage`, which names `FILE` if there is an evidence record, which is for one file; otherwise `evidence`, if
/// there is what stands beside one alone.
fn check_each<'a>(given: &ArgMatches<'a>) -> Result<CheckEach<'a>, Failure<'a>>
    ensures { IfOk result (IsCheckEachIn (found_of given.now)) }
{
    match (
        given.get_str("evidence"),
        given.get_str("end"),
        given.get_str("at"),
    ) {
        (None, None, None) => Ok(CheckEach {
            trust: value(given, "trust")?,
            answers: value(given, "answers")?,
            content: given.get_str("content"),
            sha1: given.get_flag("sha1"),
            buffer: buffer_octets(given)?,
        }),
        (Some(_), _, _) => Err(Failure::Usage("FILE")),
        _ => Err(Failure::Usage("evidence")),
    }
}

/// The content that the signed attributes of each file are compared with.
fn fit_each<'a>(given: &ArgMatches<'a>) -> FitEach<'a>
    ensures { IsFitEachIn (found_of given.now) result }
{
    FitEach {
        content: given.get_str("content"),
        sha1: given.get_flag("sha1"),
    }
}

/// Who is trusted, whatever the file is whose questions are printed, and what the files of this group hold.
fn questions_each<'a>(
    group: Group,
    given: &ArgMatches<'a>,
) -> Result<QuestionsEach<'a>, Failure<'a>>
    ensures words { IfOk result (IsQuestionsEachIn (found_of given.now)) }
    ensures group { IfOk result (λ words. about_group_of words.about ≡ group) }
{
    let trust = value(given, "trust")?;
    let about = match group {
        Group::Program => About::Signed(buffer_octets(given)?),
        Group::Stamps => About::Stamps,
        Group::Evidence => About::Records,
    };
    Ok(QuestionsEach { trust, about })
}
