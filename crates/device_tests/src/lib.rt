//! Tests with devices that fail, take little or hand out pieces. There is no code but the tests.
#![tactic(auto)]

#[cfg(test)]
mod tests;
