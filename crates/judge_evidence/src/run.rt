//! What is known while one goes through the archive time-stamps of a record.
use check_evidence::StampRule;
use der_time::Moment;
use digests::Alg;

// The first archive time-stamp that fails to last, by its numbers from 1.
#[derive(Clone, Copy)]
pub(crate) struct Lapse {
    pub chain: usize,
    pub stamp: usize,
    pub rule: StampRule,
}

// What the first archive time-stamp of all shows.
#[derive(Clone, Copy)]
pub(crate) struct Begun {
    pub moment: Moment,
    // Whether it has hash values that aren't of the data, where none may be.
    pub others: bool,
}

// What is known.
#[derive(Clone, Copy)]
pub(crate) struct Run {
    // The algorithm of the chain, once its first stamp was judged.
    pub alg: Option<Alg>,
    // The moment of the stamp before.
    pub before: Option<Moment>,
    pub lapsed: Option<Lapse>,
    pub begun: Option<Begun>,
}
