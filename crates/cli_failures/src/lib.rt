//! How a command fails: the line that says so, the exit status that it ends with, and what may fail: the files that it
//! reads and writes, and the standard output.
//!
//! `signature`, `token`, `request` and `ends` give what a command and a call of the library for C both make of octets
//! and words, or why it can't be had.
#![tactic(auto)]

pub mod ends;
mod failure;
pub mod files;
mod folder;
pub mod output;
mod replacing;
pub mod request;
pub mod signature;
mod status;
pub mod token;

pub use failure::{Failure, Message, OfRecord, STANDARD_OUTPUT};
pub use status::Status;
