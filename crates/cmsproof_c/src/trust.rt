ghost use Rattle.std.specs.Prelude.{◌≡◌, None};
ghost use Rattle.library_calls.specs.Lists.{ReadsTrust};
ghost use Rattle.cmsproof_c.specs.Held.{CountsEntries, SharesList};

use crate::trust_handle::TrustHandle;
use library_answers::{Answer, DONE, NO_LIST, NO_MEMORY};
use library_calls::read_trust;
use std::alloc::Global;

/// Reads a trust list into a handle, and frees what it held.
#[unsafe(no_mangle)]
pub extern "C" fn cmsproof_trust_read(
    alloc: Global,
    trust: &mut TrustHandle,
    list: &[u8],
    said: &mut Answer,
) -> u32
    // The handle holds the list that the text states, or none: the text is refused by the rule and at the line that are
    // said, or memory was refused.
    ensures { ReadsTrust list.now trust.new.inside.kept said.new result }
{
    cmsproof_trust_free(alloc, trust);
    keep_in!(alloc, trust: TrustHandle, read_trust(alloc, list, said), said)
}

/// How many entries the list of a handle has.
#[unsafe(no_mangle)]
pub extern "C" fn cmsproof_trust_count(
    alloc: Global,
    trust: &mut TrustHandle,
    count: &mut usize,
) -> u32
    // The number of entries; without a list, 0 and status 8.
    ensures count { CountsEntries trust.old.inside.kept count.new result }
    // The handle holds what it held.
    ensures same { trust.new.inside.kept ≡ trust.old.inside.kept }
{
    *count = 0;
    let Some(list) = trust.take(alloc) else {
        return NO_LIST;
    };
    *count = list.list().entries().len();
    *trust = TrustHandle::of(list);
    DONE
}

/// Has another handle hold the list of a handle, and frees what it held. The list is in memory once, and is freed with
/// the last handle that holds it.
#[unsafe(no_mangle)]
pub extern "C" fn cmsproof_trust_share(
    alloc: Global,
    trust: &mut TrustHandle,
    other: &mut TrustHandle,
) -> u32
    // The other handle holds the list that the first one holds, with status 1; or none, with status 8 if the first one
    // holds none, and with 7 if memory was refused.
    ensures shared { SharesList trust.old.inside.kept other.new.inside.kept result }
    // The first handle holds what it held.
    ensures same { trust.new.inside.kept ≡ trust.old.inside.kept }
{
    drop(other.take(alloc));
    let Some(list) = trust.take(alloc) else {
        return NO_LIST;
    };
    let shared = TrustHandle::share(alloc, &list);
    *trust = TrustHandle::of(list);
    match shared {
        Some(shared) => {
            *other = shared;
            DONE
        }
        None => NO_MEMORY,
    }
}

/// Frees the list of a handle, if it holds one.
#[unsafe(no_mangle)]
pub extern "C" fn cmsproof_trust_free(alloc: Global, trust: &mut TrustHandle)
    // The handle holds none.
    ensures { trust.new.inside.kept ≡ None }
{
    drop(trust.take(alloc));
}
