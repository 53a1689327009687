//! The folder that records are in.

/// Where records are, and what they are taken for.
#[derive(Clone, Copy, Debug)]
pub struct RecordFolder<'a> {
    /// The path of the folder.
    pub path: &'a str,
    /// Whether other values of a record's first list are of neighbours in its tree.
    pub alone: bool,
}
