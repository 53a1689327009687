use crate::commands::Named;
use crate::vocabulary::{ALGORITHMS, KINDS, Takes, Word};
use clap::builder::ValueParser;
use clap::{Arg, ArgAction, Command};
use std::alloc::{AllocError, Global};

/// The command, with its help and the words that it takes.
#[inline(never)]
pub fn command<'a>(alloc: Global, named: &Named) -> Result<Command<'a>, AllocError> {
    let name: &'a str = named.name();
    let about: &'a str = named.about();
    let lines: &'a str = named.lines();
    let mut command = Command::new(alloc, name).about(about).after_help(lines);
    for word in named.words() {
        command = command.arg(argument(alloc, word)?)?;
    }
    Ok(command)
}

/// The word, taking what it takes. (Its room on the stack is given back before the command takes it.)
#[inline(never)]
fn argument<'a>(alloc: Global, word: &'static Word) -> Result<Arg<'a>, AllocError> {
    let arg = Arg::new(alloc, word.name)
        .required(word.required)
        .help(word.help);
    match word.takes {
        Takes::Place => Ok(arg),
        Takes::Kind => Ok(arg.value_parser(KINDS.as_slice())),
        Takes::Several => Ok(arg.num_args(1..)),
        Takes::Places(list) => arg.num_args(1..).required_unless_present(list),
        _ => option(arg.long(word.name), &word.takes),
    }
}

/// `--name`, taking what it takes.
fn option<'a>(arg: Arg<'a>, takes: &'static Takes) -> Result<Arg<'a>, AllocError> {
    match *takes {
        Takes::Nothing => Ok(arg.action(ArgAction::SetTrue)),
        Takes::NothingOf(list, letter) => arg
            .short(letter)
            .action(ArgAction::SetTrue)
            .requires_arg(list),
        Takes::Text(value) => Ok(arg.value_name(value)),
        Takes::List(places, value) => arg.value_name(value).conflicts_with(places),
        Takes::TextOf(other, value) => arg.value_name(value).requires_arg(other),
        Takes::TextApart(one, other, value) => {
            arg.value_name(value).conflicts_with_all(&[one, other])
        }
        Takes::Texts(value) => Ok(arg.value_name(value).action(ArgAction::Append)),
        Takes::TextsOf(other, value) => arg
            .value_name(value)
            .action(ArgAction::Append)
            .requires_arg(other),
        Takes::Number(least, most) => Ok(
            arg.value_name("N")
                .value_parser(ValueParser::unsigned(least, most)),
        ),
        Takes::Algorithm => Ok(
            arg.value_name("NAME")
                .default_value("sha256")
                .value_parser(ALGORITHMS.as_slice()),
        ),
        Takes::NamedAlgorithm | Takes::Place | Takes::Kind | Takes::Several | Takes::Places(_) =>
            Ok(arg.value_name("NAME").value_parser(ALGORITHMS.as_slice())),
    }
}
