/// Which form the lines of a trust list have.
#[derive(Clone, Copy, Debug, PartialEq, Eq)]
pub(crate) enum Version {
    /// A role and a certificate.
    First,
    /// A role, the first and the last moment, and a certificate.
    Second,
}
