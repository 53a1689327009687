ghost use Rattle.std.specs.Prelude.{◌≡◌, ◌+◌, ◌^◌, ◌<◌, ◌≤◌, [], length};
ghost use Rattle.der_core.specs.Reading.{Gives};
ghost use Rattle.cms_stream_laws.specs.OpenReading.{open_spot, length_in, heading};
ghost use Rattle.der_core.specs.OpenFaults.{whole_length};
ghost use Rattle.cms_stream.specs.Passing.{header_in, next_header_in, outer_size};
ghost use Rattle.cms_stream.specs.Headers.{StatesLength, StatesWithin};
ghost use Rattle.cms_stream.specs.declared.window.TheConstants.{WINDOW_SIZE};

use der_core::octets::is_tag;
use der_core::tags::SEQUENCE;
use der_core::{Fault, Kind, length_of};

/// How many octets the header of an element has if its contents have `len` octets (X.690 8.1.3, 10.1).
#[tactic(auto, using(der_core::proofs::Headings::length_octets))]
pub(crate) fn heading(len: u64) -> usize
    requires { len < 2 ^ 32 }
    ensures is { result ≡ heading len }
    ensures small { result ≤ 6 }
{
    match len {
        0..=0x7f => 2,
        0x80..=0xff => 3,
        0x100..=0xffff => 4,
        0x1_0000..=0xff_ffff => 5,
        _ => 6,
    }
}

/// How many octets an element has if its contents have `len` octets.
pub(crate) fn whole(len: u64) -> u64
    requires { len < 2 ^ 32 }
    ensures { result ≡ whole_length len }
{
    heading(len) as u64 + len
}

// The length that the header at the front states; its first octet is at `at`. The tag is any that this profile reads.
fn size_in(at: u64, octets: &[u8]) -> Result<u64, Fault>
    requires { at + length octets.now < 2 ^ 64 }
    ensures { Gives (λ l. l) result (length_in (open_spot 0 at []) octets.now) }
{
    match octets {
        [] => Err(Fault::new(Kind::End, at)),
        [tag, after @ ..] => {
            if !is_tag(*tag) {
                return Err(Fault::new(Kind::HighTag, at));
            }
            let (len, _) = length_of(at + 1, after)?;
            Ok(len)
        }
    }
}

// The same. If a length is stated, it is complete in the octets, and four octets can state it.
fn stated(at: u64, octets: &[u8]) -> Result<u64, Fault>
    requires { at + length octets.now < 2 ^ 64 }
    ensures { StatesLength (length_in (open_spot 0 at []) octets.now) octets.now result }
{
    let len = size_in(at, octets)?;
    Ok(len)
}

/// The length that the header at the front of a body states, in octets of contents (X.690 8.1.2, 8.1.3, 10.1). The
/// element must end within the body, of which `left` octets are left; `ahead` are the first six of all octets to come,
/// or all of them if there are fewer.
///
/// Faults: `HighTag` at `at`; `LengthForm` and `Indefinite` at the length octets; `End` if the body ends within the
/// header; `Overrun` at `at` if the element would exceed the end of the body, and at 0 if the octets end within a
/// header that the body has room for.
#[tactic(auto, unfolding(crate::specs::Passing::next_header_in))]
pub(crate) fn next_header(left: u64, at: u64, ahead: &[u8]) -> Result<u64, Fault>
    requires { at + length ahead.now < 2 ^ 64 }
    ensures { StatesWithin (next_header_in left at ahead.now) left ahead.now result }
{
    let count = left.min(ahead.len() as u64) as usize;
    let known = &ahead[..count];
    let missing = ahead.len() < 6 && (ahead.len() as u64) < left;
    let len = match stated(at, known) {
        Ok(len) => len,
        Err(fault) => {
            if missing && matches!(fault.kind, Kind::End) {
                return Err(Fault::new(Kind::Overrun, 0));
            }
            return Err(fault);
        }
    };
    if left < heading(len) as u64 + len {
        return Err(Fault::new(Kind::Overrun, at));
    }
    Ok(len)
}

/// The same for a header that must have this tag.
///
/// Faults: `Tag` at `at` if another tag is at the front, before its length is read; otherwise those of `next_header`.
#[tactic(auto, unfolding(crate::specs::Passing::header_in))]
pub(crate) fn header_of(tag: u8, left: u64, at: u64, ahead: &[u8]) -> Result<u64, Fault>
    requires { at + length ahead.now < 2 ^ 64 }
    ensures { StatesWithin (header_in tag left at ahead.now) left ahead.now result }
{
    let count = left.min(ahead.len() as u64) as usize;
    match &ahead[..count] {
        [first, ..] if is_tag(*first) && *first != tag => {
            return Err(Fault::new(Kind::Tag, at));
        }
        _ => {}
    }
    next_header(left, at, ahead)
}

/// The length that the header of the outermost element states, which must be a SEQUENCE; `ahead` are the first six
/// octets of all, or all of them if there are fewer.
///
/// Faults: those of `header_of`, except those that depend on a stated end: nothing states where this element must end.
#[tactic(auto, unfolding(crate::specs::Passing::outer_size))]
pub(crate) fn outermost(ahead: &[u8]) -> Result<u64, Fault>
    requires { length ahead.now ≤ WINDOW_SIZE }
    ensures { StatesLength (outer_size ahead.now) ahead.now result }
{
    match ahead {
        [first, ..] if is_tag(*first) && *first != SEQUENCE => {
            return Err(Fault::new(Kind::Tag, 0));
        }
        _ => {}
    }
    let len = stated(0, ahead)?;
    Ok(len)
}
