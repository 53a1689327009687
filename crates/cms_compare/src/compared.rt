/// How two signatures compare.
#[derive(Clone, Copy, Debug, PartialEq, Eq)]
pub enum Compared {
    /// The signers name different digest algorithms, or signed different octets.
    Different,
    /// The same octets are signed, by one digest algorithm, and the contents are the same.
    Same,
    /// The same octets are signed, by one digest algorithm, and the contents differ: they have one digest.
    Collision,
}
