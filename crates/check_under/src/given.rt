use der_time::Moment;
use digests::WantedDigests;
use evidence_stamps::End;
use trust_lists::Trust;

/// An evidence record that is handed in for a signed file, and what both are judged by.
#[derive(Clone, Copy, Debug)]
pub struct UnderRecord<'r> {
    /// The octets of the record.
    pub octets: &'r [u8],
    /// The digests of the file and then, if one is handed in, of the content.
    pub digests: &'r [WantedDigests],
    /// The trusted entries.
    pub trust: &'r Trust,
    /// Until when algorithms hold.
    pub ends: &'r [End],
    /// When the last time-stamp of the record must hold; if none is named, at its own moment.
    pub at: Option<Moment>,
    /// Whether the first list of the record may have no hash values but those of the file and the content.
    pub whole: bool,
}
