/// What a certificate is trusted for.
#[derive(Clone, Copy, Debug, PartialEq, Eq)]
pub enum Role {
    /// To sign files.
    Signer,
    /// To stamp signatures with a time, as a time-stamping authority (RFC 3161 2.1).
    Tsa,
}
