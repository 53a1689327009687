//! The words that the program takes on its command line, as a grammar of `clap`, with the texts of its help; and what
//! the words that the parser found ask for: a task with its values, or help.
#![tactic(auto)]

mod arguments;
mod commands;
mod grammar;
mod help;
mod inputs;
mod meaning;
mod several;
mod vocabulary;
mod words;

pub use meaning::{Meaning, meaning_of};
