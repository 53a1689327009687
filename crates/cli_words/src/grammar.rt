//! The grammar of the command line, by groups of commands: two of them have a word behind the program's name, and their
//! commands stand behind that.
ghost use Rattle.std.specs.Prelude.{◌≡◌};
ghost use Rattle.cli_words.specs.Groups.{IsNamed, place_of};

use crate::arguments::command;
use crate::commands::{ALL, EVIDENCE, Named, STAMPS};
use clap::Command;
use std::alloc::{AllocError, Global};

/// What `--version` says behind the program's name: its version, and the toolchain that it was proved with, as
/// `rt version` names it.
const VERSION: &str = "1.0.0 (rattle-kit-13f, logic dac8208d650f15bf)";

/// It asks for the version, whatever stands behind it.
const VERSION_WORD: &str = "--version";

/// A group of commands.
#[derive(Clone, Copy)]
pub enum Group {
    /// Those that stand behind the program's name.
    Program,
    /// Those about stamps by themselves, behind `stamp`.
    Stamps,
    /// Those about evidence records, behind `evidence`.
    Evidence,
}

/// The group that the word behind the program's name names.
pub fn group_named(word: &str) -> Group
    ensures { IsNamed result word.now }
{
    match word {
        "stamp" => Group::Stamps,
        "evidence" => Group::Evidence,
        _ => Group::Program,
    }
}

/// The name of the places of the files that are read, in a group.
pub fn place_of(group: Group) -> &'static str
    ensures { result.now ≡ place_of group }
{
    match group {
        Group::Program => "FILE",
        Group::Stamps => "STAMP",
        Group::Evidence => "RECORD",
    }
}

/// What the program takes on its command line in this group, where this word stands behind its name. If that is a
/// command, no other one is made, and none if it asks for the version: each takes thousands of instructions.
#[inline(never)]
pub fn line_of<'a>(alloc: Global, group: Group, word: &str) -> Result<Command<'a>, AllocError> {
    let mut line = line_alone(alloc, group)?;
    let commands = commands_of(group);
    let is_named = word == VERSION_WORD || commands.iter().any(|named| named.name() == word);
    for named in commands {
        if !is_named || named.name() == word {
            line = line.subcommand(command(alloc, named)?)?;
        }
    }
    Ok(line)
}

/// The commands of a group, in the order of the help.
fn commands_of(group: Group) -> &'static [Named] {
    match group {
        Group::Program => ALL.as_slice(),
        Group::Stamps => STAMPS.as_slice(),
        Group::Evidence => EVIDENCE.as_slice(),
    }
}

/// The same line, with no command yet.
#[inline(never)]
fn line_alone<'a>(alloc: Global, group: Group) -> Result<Command<'a>, AllocError> {
    let (named, behind) = match group {
        Group::Program => (&Named::Program, None),
        Group::Stamps => (&Named::Stamp, Some("cmsproof stamp")),
        Group::Evidence => (&Named::Evidence, Some("cmsproof evidence")),
    };
    let line = command(alloc, named)?
        .subcommand_required(true)
        .arg_required_else_help(true);
    match behind {
        Some(name) => line.bin_name(name),
        None => Ok(line.version(VERSION)),
    }
}
