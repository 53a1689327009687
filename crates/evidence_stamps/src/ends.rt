//! Until when digest algorithms hold.
ghost use Rattle.std.specs.Prelude.{◌≡◌, ◌↔◌, IsTrue};
ghost use Rattle.check_evidence.specs.Ends.{AlgHolds};

use der_time::Moment;
use digests::Alg;
use std::marker::Model;

/// The last moment at which a digest algorithm holds, as a user says.
///
/// Contracts see an `AlgEnd` (`check_evidence/specs/Grounds.antt`).
#[derive(Clone, Copy, Debug, PartialEq, Eq)]
pub struct End {
    alg: Alg,
    last: Moment,
}

impl Model for End {
    ghost use Rattle.check_evidence.specs.Grounds.{AlgEnd};

    ghost Value = { AlgEnd };

    ghost view = { λ e. record { alg = e.alg; last = e.last } };

    ghost inverse = { λ e. record { alg = e.alg; last = e.last } };
}

impl End {
    /// The algorithm holds until this moment, which is its last.
    pub fn of(alg: Alg, last: Moment) -> End
        ensures { result ≡ record { alg = alg; last = last } }
    {
        End { alg, last }
    }

    /// The algorithm.
    pub fn alg(&self) -> Alg
        ensures { result ≡ self.now.alg }
    {
        self.alg
    }

    /// The last moment at which it holds.
    pub fn last(&self) -> Moment
        ensures { result ≡ self.now.last }
    {
        self.last
    }
}

/// Whether an algorithm holds at a moment: no end that is given for it is earlier. SHA-1 holds only until an end that
/// is given.
pub fn alg_holds(ends: &[End], alg: Alg, moment: Moment) -> bool
    ensures { IsTrue result ↔ AlgHolds ends.now alg moment }
{
    let mut given = alg != Alg::Sha1;
    for end in ends {
        if end.alg() == alg {
            if end.last() < moment {
                return false;
            }
            given = true;
        }
    }
    given
}
