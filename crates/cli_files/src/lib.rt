//! What a command does that is asked of several files: what it prints of each, under lists that are read once.
#![tactic(auto)]

mod asking;
mod checking;
mod fitting;
mod lines;
mod names;
mod paths;
mod running;
mod stopping;
mod worst;

pub use running::run;
