//! Where octets are cut, and the lines of a text.
ghost use Rattle.std.specs.Prelude.{◌≡◌, ◌∷◌, [], ◌<◌, ◌+◌, take, drop, length, MatchOption};
ghost use Rattle.list_answers.specs.Texts.{parts};
ghost use Rattle.evidence_sums.specs.Lines.{lines_of};

/// So many octets from the beginning, or all if there are fewer.
pub(crate) fn front(octets: &[u8], count: usize) -> &[u8]
    ensures { result.now ≡ take count octets.now }
{
    if count < octets.len() {
        &octets[..count]
    } else {
        octets
    }
}

/// The octets behind so many, or none if there are fewer.
pub(crate) fn behind(octets: &[u8], count: usize) -> &[u8]
    ensures { result.now ≡ drop count octets.now }
{
    if count < octets.len() {
        &octets[count..]
    } else {
        &octets[octets.len()..]
    }
}

/// The octets before the first octet of this value, and those behind it if there is one.
#[tactic(auto, using(crate::proofs::Cuts::whole, crate::proofs::Cuts::before))]
pub(crate) fn cut(octets: &[u8], at: u8) -> (&[u8], Option<&[u8]>)
    ensures parts { MatchOption result.1 (parts at octets.now ≡ result.0.now ∷ [])
        (λ r. parts at octets.now ≡ result.0.now ∷ parts at r.now) }
    ensures less { MatchOption result.1 (length result.0.now ≡ length octets.now)
        (λ r. length r.now < length octets.now) }
{
    match memchr::memchr(at, octets) {
        None => (octets, None),
        Some(index) => (&octets[..index], Some(&octets[index + 1..])),
    }
}

/// The first line of a text, and the octets of the others.
#[tactic(auto, using(crate::proofs::Cuts::last_line_there, crate::proofs::Cuts::line_before))]
pub(crate) fn first_line(text: &[u8]) -> (&[u8], &[u8])
    requires { 0 < length text.now }
    ensures cut { lines_of text.now ≡ result.0.now ∷ lines_of result.1.now }
    ensures less { length result.1.now < length text.now }
{
    match memchr::memchr(b'\n', text) {
        None => (text, &text[text.len()..]),
        Some(index) => (&text[..index], &text[index + 1..]),
    }
}
