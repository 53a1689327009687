use check_evidence::RecordRule;

/// Why the questions of an evidence record were not written.
#[derive(Clone, Copy, Debug, PartialEq, Eq)]
pub enum RecordQuestionsFault {
    /// It has none: V1, it is not an evidence record, or V2, its data are encrypted. Never V3.
    Record(RecordRule),
    /// Q3: the sink failed.
    WriteFailed,
}
