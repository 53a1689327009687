use std::alloc::{AllocError, AllocFailed};
use thiserror::Error;

/// Why a row or an octet string can't be read, or can't be answered. `Display` prints the reason.
#[derive(Clone, Copy, Debug, Drop, Error)]
pub enum Bad {
    /// It isn't as it must be.
    #[error("{0}")]
    Text(&'static str),
    /// Memory was refused.
    #[error("no memory")]
    Memory,
}

impl From<AllocError> for Bad {
    ghost use Rattle.std.specs.Prelude.{◌≡◌};
    ghost use Rattle.vectors.specs.declared.bad.Bad.TheVariants.{Memory};

    ghost from_gives = { λ _ bad. bad ≡ Memory };

    fn from(_error: AllocError) -> Bad {
        Bad::Memory
    }
}

impl<T: Drop> From<AllocFailed<T>> for Bad {
    ghost use Rattle.std.specs.Prelude.{◌≡◌};
    ghost use Rattle.vectors.specs.declared.bad.Bad.TheVariants.{Memory};

    ghost from_gives = { λ _ bad. bad ≡ Memory };

    fn from(_error: AllocFailed<T>) -> Bad {
        Bad::Memory
    }
}

/// What was found, or that a row's values are bad, and why.
pub fn needed<T: Drop, E: Drop>(found: Result<T, E>, why: &'static str) -> Result<T, Bad> {
    match found {
        Ok(found) => Ok(found),
        Err(_) => Err(Bad::Text(why)),
    }
}
