use std::alloc::AllocError;

/// Why a job wasn't done, in words.
#[derive(Clone, Copy)]
pub(crate) struct Bad(pub(crate) &'static str);

impl From<AllocError> for Bad {
    fn from(_error: AllocError) -> Bad {
        Bad("no memory")
    }
}

/// What was found, or why it had to be.
pub(crate) fn needed<T: Drop, E: Drop>(found: Result<T, E>, why: &'static str) -> Result<T, Bad> {
    match found {
        Ok(found) => Ok(found),
        Err(_) => Err(Bad(why)),
    }
}
