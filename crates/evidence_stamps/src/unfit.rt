use check_evidence::StampRule;
use check_fit::DeviceFault;
use der_time::Moment;
use digests::Alg;

/// The algorithm of an archive time-stamp that fits, and the moment of its token.
#[derive(Clone, Copy, Debug, PartialEq, Eq)]
pub struct Fit {
    /// The algorithm of its lists.
    pub alg: Alg,
    /// The moment of its token.
    pub moment: Moment,
}

/// Why an archive time-stamp doesn't fit.
#[derive(Clone, Copy, Debug, PartialEq, Eq)]
pub enum Unfit {
    /// The first of W1 to W5 that it fails.
    Rule(StampRule),
    /// A device failed.
    Device(DeviceFault),
}
