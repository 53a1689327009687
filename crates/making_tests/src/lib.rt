//! Tests of what makes and renews evidence records (RFC 4998): hash trees, lists of digests, records, and the commands,
//! beside what other programs made of the same. There is no code but the tests.
#![tactic(auto)]

#[cfg(test)]
mod asserts;
#[cfg(test)]
mod commands;
#[cfg(test)]
mod documents;
#[cfg(test)]
mod double;
#[cfg(test)]
mod ends;
#[cfg(test)]
mod groups;
#[cfg(test)]
mod making;
#[cfg(test)]
mod memory;
#[cfg(test)]
mod records;
#[cfg(test)]
mod renewals;
#[cfg(test)]
mod renewing;
#[cfg(test)]
mod sums;
#[cfg(test)]
mod tokens;
#[cfg(test)]
mod trees;
