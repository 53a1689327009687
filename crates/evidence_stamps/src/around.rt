use check_evidence::Covered;
use der_time::Moment;
use digests::Alg;

/// What must be known of the place of an archive time-stamp to judge it by itself (RFC 4998 5.1 to 5.3).
#[derive(Clone, Copy, Debug)]
pub struct Around<'d> {
    /// The algorithm of the first archive time-stamp of its chain, which may be itself. `None` if that has none.
    pub alg: Option<Alg>,
    /// The values by this algorithm that it must cover. Without an algorithm they are not looked at.
    pub covered: Covered<'d>,
    /// The moment of the archive time-stamp before it, if there is one.
    pub before: Option<Moment>,
    /// The last moment that it may have: if it is the last one, that which the user names, if any.
    pub latest: Option<Moment>,
}
