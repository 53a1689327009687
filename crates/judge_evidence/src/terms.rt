//! What a check of an evidence record goes by.
use der_time::Moment;
use evidence_stamps::End;
use trust_lists::Trust;

// The trusted entries, the ends of algorithms, the moment at which the last time-stamp must hold, if one is named, and
// whether the first list may have no hash values but those of the data.
#[derive(Clone, Copy)]
pub(crate) struct Terms<'l> {
    pub trust: &'l Trust,
    pub ends: &'l [End],
    pub at: Option<Moment>,
    pub whole: bool,
}
