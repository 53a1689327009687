/// An element of DER (X.690 8.1): its identifier octet, its contents, and the whole element with identifier and length.
#[derive(Clone, Copy, Debug)]
pub struct Element<'a> {
    /// The identifier octet.
    pub tag: u8,
    /// The contents octets.
    pub body: &'a [u8],
    /// Identifier, length and contents octets.
    pub whole: &'a [u8],
}
