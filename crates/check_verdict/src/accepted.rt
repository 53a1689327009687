use der_time::Moment;
use std::marker::Model;

/// An acceptance, of a file or of a token.
///
/// Contracts see its moment.
#[derive(Clone, Copy, Debug, PartialEq, Eq)]
pub struct Accepted {
    /// The moment by which what was stamped existed: for a token its genTime (RFC 3161 2.4.2); for a file the latest of
    /// its signers' moments, each of which is the earliest genTime of a token of that signer that passes.
    pub moment: Moment,
}

impl Model for Accepted {
    ghost use Rattle.std.specs.Prelude.{ℕ};

    ghost Value = { ℕ };

    ghost view = { λ a. a.moment };

    ghost inverse = { λ m. record { moment = m } };
}
