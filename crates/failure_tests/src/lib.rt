//! Tests of what commands and calls do if an output fails or memory is refused, and of words that the command line
//! keeps from commands. There is no code but the tests.
#![tactic(auto)]

#[cfg(test)]
mod tests;
