ghost use Rattle.std.specs.Prelude.{◌≡◌};
ghost use Rattle.digests.specs.Selection.{AreOfWanted, set_given};
ghost use Rattle.check_fit.specs.FileFitting.{HashesSource};

use crate::rules::DeviceFault;
use devices::Source;
use digests::{Algs, ContentFault, Wanted, WantedDigests};

// The digests of octets by these algorithms.
pub(crate) fn digests_of(wanted: Algs, octets: &[u8]) -> WantedDigests
    ensures set { set_given result ≡ wanted }
    ensures digests { AreOfWanted result octets.now }
{
    let mut hashers = Wanted::new(wanted);
    hashers.update(octets);
    hashers.finish()
}

/// The digests by these algorithms of what the source gives until its end.
///
/// Errors: X1 if the source fails, and X5 if it gives more than 2^40 octets.
pub fn digests_from<S: Source>(wanted: Algs, source: &mut S) -> Result<WantedDigests, DeviceFault>
    // Returns the digests of all that the source gave until its end; or X1, which it counted, or X5.
    ensures { HashesSource wanted (S.tells source.old) (S.rest source.old) (S.rest source.new) (S.failures source.old)
        (S.failures source.new) result }
{
    let mut hashers = Wanted::new(wanted);
    match hashers.read_from(source) {
        Ok(_) => Ok(hashers.finish()),
        Err(ContentFault::ReadFailed) => Err(DeviceFault::ReadFailed),
        Err(ContentFault::ContentTooLong) => Err(DeviceFault::ContentTooLong),
    }
}
