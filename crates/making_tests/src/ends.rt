//! How the making and the renewing of records end.
use cli_failures::Failure;
use evidence_making::StampFault;
use evidence_sums::{SumsFault, SumsRule};

/// How it ended.
#[derive(Clone, Copy)]
pub(crate) enum End {
    Done,
    /// Putting a file into memory failed.
    Cut,
    /// The imprint of the token differs.
    ImprintDiffers,
    /// The token is malformed.
    TokenMalformed,
    /// Another reason for which the token is refused.
    Unstamping,
    /// A record is malformed.
    Malformed,
    /// A name stands twice in the sums, the second time in this line.
    Twice(usize),
    /// Another failure.
    Failed,
}

/// How it ended, if this is the answer. It is a function of its own, since a failure has many forms, and each makes the
/// steps beside it slow to check.
pub(crate) fn end_of(answer: &Result<(), Failure<'_>>) -> End {
    match answer {
        Ok(()) => End::Done,
        Err(Failure::Write(path)) if *path == "memory" => End::Cut,
        Err(Failure::Unstamping(StampFault::ImprintDiffers)) => End::ImprintDiffers,
        Err(Failure::Unstamping(StampFault::TokenMalformed)) => End::TokenMalformed,
        Err(Failure::Unstamping(_)) => End::Unstamping,
        Err(Failure::Malformed(_)) => End::Malformed,
        Err(
            Failure::Sums(
                SumsFault {
                    rule: SumsRule::NameTwice,
                    line,
                },
            ),
        ) => End::Twice(*line),
        Err(_) => End::Failed,
    }
}
