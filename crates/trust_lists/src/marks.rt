//! The marks of certificates, which are compared in place of what a certificate holds.
ghost use Rattle.std.specs.Prelude.{◌≡◌, ◌≤◌, length, drop};
ghost use Rattle.std.specs.List.{fold};
ghost use Rattle.trust_lists.specs.Marks.{next_mark, first_word, mark_of, label_of, AreMarks};

use crate::role::Role;
use cert_types::Certificate;

/// By what a mark is multiplied at each word: an odd number, 2^64 by the golden ratio.
const FACTOR: u128 = 0x9e37_79b9_7f4a_7c15;

/// 2^64.
const WHOLE: u128 = 0x1_0000_0000_0000_0000;

/// What is added to the mark of an authority: a prime number, and 2^64 less it is one too, so that the sum leads to
/// another chain where there are two or more.
const OF_AUTHORITIES: u64 = 0x1fff_ffff_ffff_fcb5;

/// The marks of a certificate.
#[derive(Clone, Copy, Debug)]
pub(crate) struct Marks {
    /// Of the issuer and then the serial number.
    pub serial: u64,
    /// Of the key identifier, if there is one.
    pub key_id: Option<u64>,
}

/// By which of its marks a certificate is found.
#[derive(Clone, Copy, Debug)]
pub(crate) enum MarkBy {
    /// By that of the issuer and then the serial number.
    Serial,
    /// By that of the key identifier.
    KeyId,
}

// The mark behind a word. The halves of the product are joined by an exclusive or. A sum of them without its carry
// would have the product's remainder by each divisor of 2^64 - 1, or one less; 5 is such a divisor, and divides the
// factor too.
fn next_mark(mark: u64, word: u64) -> u64
    ensures { result ≡ next_mark mark word }
{
    let product = u128::from(mark.wrapping_add(word)) * FACTOR;
    let low = (product % WHOLE) as u64;
    let high = (product / WHOLE) as u64;
    low ^ high
}

// The first eight octets as a word.
fn first_word(octets: &[u8]) -> u64
    requires { 8 ≤ length octets.now }
    ensures { result ≡ first_word octets.now }
{
    u64::from_le_bytes([
        octets[0], octets[1], octets[2], octets[3], octets[4], octets[5], octets[6], octets[7],
    ])
}

// The octets behind the first eight.
fn after_word(octets: &[u8]) -> &[u8]
    requires { 8 ≤ length octets.now }
    ensures { result.now ≡ drop 8 octets.now }
{
    &octets[8..]
}

// The mark of octets behind a mark, each of which counts as a word.
fn mark_of_each(mark: u64, octets: &[u8]) -> u64
    ensures { result ≡ fold next_mark mark octets.now }
{
    let mut mark = mark;
    for octet in octets {
        mark = next_mark(mark, u64::from(*octet));
    }
    mark
}

/// The mark of octets behind a mark. Eight octets make a word, as long as there are so many.
pub(crate) fn mark_of(mark: u64, octets: &[u8]) -> u64
    ensures { result ≡ mark_of mark octets.now }
{
    let mut mark = mark;
    let mut left = octets;
    while left.len() >= 8 {
        mark = next_mark(mark, first_word(left));
        left = after_word(left);
    }
    mark_of_each(mark, left)
}

/// The label of a role and a mark, by which entries are found.
pub(crate) fn label_of(role: Role, mark: u64) -> u64
    ensures { result ≡ label_of role mark }
{
    match role {
        Role::Signer => mark,
        Role::Tsa => mark.wrapping_add(OF_AUTHORITIES),
    }
}

/// The marks of a certificate.
pub(crate) fn marks_of(certificate: &Certificate) -> Marks
    ensures { AreMarks certificate.now result }
{
    let serial = mark_of(
        mark_of(0, certificate.issuer()),
        certificate.serial().bytes(),
    );
    let key_id = match certificate.key_id() {
        Some(id) => Some(mark_of(0, id)),
        None => None,
    };
    Marks { serial, key_id }
}
