ghost use Rattle.std.specs.Prelude.{◌≡◌};
ghost use Rattle.cli_failures.specs.Statuses.{code_of};

/// How a command ended.
#[derive(Clone, Copy)]
pub enum Status {
    /// It did what was requested, or help was requested.
    Done,
    /// A rule isn't met.
    Refused,
    /// A file isn't of the form that was expected.
    Malformed,
    /// The words of the command line, or a value among them, aren't as they must be.
    Usage,
    /// A file, a standard stream or memory failed.
    Failed,
}

impl Status {
    /// The exit status of the process.
    pub fn code(self) -> u8
        ensures { result ≡ code_of self }
    {
        match self {
            Status::Done => 0,
            Status::Refused => 1,
            Status::Malformed => 2,
            Status::Usage => 3,
            Status::Failed => 4,
        }
    }
}
