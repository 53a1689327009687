/// A BOOLEAN with the default FALSE. This profile keeps its three spellings apart, so that each value has one encoding
/// (DER would forbid the middle one, X.690 11.5).
#[derive(Clone, Copy, Debug, PartialEq, Eq)]
pub enum Flag {
    /// No element: the default.
    Absent,
    /// The default spelled out, `01 01 00`.
    False,
    /// `01 01 ff`.
    True,
}
