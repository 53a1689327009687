//! Numbers of octets, in words.
ghost use Rattle.std.specs.Prelude.{◌≡◌, ◌*◌, ◌^◌, ◌<◌, ◌≤◌, IfSome, None, length};
ghost use Rattle.curve_points.specs.Words.{number};
ghost use Rattle.ecdsa_octets.specs.Octets.{number_of, is_natural};

use ecdsa_signatures::Curve;

/// The number of the octets, if the words of the curve's numbers hold it.
pub(crate) fn number_of<const WORDS: usize, C: Curve<WORDS>>(octets: &[u8]) -> Option<[u64; WORDS]>
    ensures found { IfSome result (λ words. number words ≡ number_of octets.now) }
    ensures none { result ≡ None → 256 ^ (8 * WORDS) ≤ number_of octets.now }
    ensures long { result ≡ None → 8 * WORDS < length octets.now }
{
    let mut now = C::zero();
    for i in 0..octets.len() {
        match C::pushed(&now, octets[i]) {
            None => return None,
            Some(more) => now = more,
        }
    }
    Some(now)
}

/// Whether the contents of an INTEGER are those of a number that is not negative.
pub(crate) fn is_natural(contents: &[u8]) -> bool
    ensures { result ≡ is_natural contents.now }
{
    match contents {
        [] => false,
        [first, ..] => *first < 128,
    }
}
