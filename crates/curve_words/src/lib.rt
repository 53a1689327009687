//! Words of 64 bits with carries, for numbers of a fixed count of words; and what words in Montgomery's form stand for
//! (`specs/Forms.antt`).
#![tactic(auto)]

mod words;

pub use words::{Wide, add_carry, multiply_add, subtract_borrow};
