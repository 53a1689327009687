//! When a trusted entry holds, and what a verifier is asked under its certificate.
ghost use Rattle.std.specs.Prelude.{◌≡◌, ◌↔◌, ◌≤◌, IsTrue, IfSome, option_map};
ghost use Rattle.check_verdict.specs.Trusted.{Holds, asked};

use cert_types::Certificate;
use cms_types::Signer;
use der_time::Moment;
use list_answers::Question;
use trust_lists::Entry;

// Whether a moment that may be absent is no later than this one.
fn is_begun(from: Option<Moment>, moment: Moment) -> bool
    ensures { IsTrue result ↔ IfSome from (λ first. first ≤ moment) }
{
    match from {
        Some(first) => first <= moment,
        None => true,
    }
}

// Whether a moment that may be absent is no earlier than this one.
fn is_not_over(until: Option<Moment>, moment: Moment) -> bool
    ensures { IsTrue result ↔ IfSome until (λ last. moment ≤ last) }
{
    match until {
        Some(last) => moment <= last,
        None => true,
    }
}

/// Whether a trusted entry holds at a moment: the moment is from notBefore to notAfter of the certificate (RFC 5280
/// 4.1.2.5), and in the entry's own period. Both ends are part of each period, and fractions of a second count.
pub fn holds(entry: &Entry, moment: Moment) -> bool
    ensures { IsTrue result ↔ Holds entry.now moment }
{
    holds_under(entry, &entry.certificate(), moment)
}

/// The same of an entry whose certificate was read.
pub(crate) fn holds_under(entry: &Entry, certificate: &Certificate, moment: Moment) -> bool
    requires { certificate.now ≡ entry.now.certificate }
    ensures { IsTrue result ↔ Holds entry.now moment }
{
    certificate.from() <= moment
        && moment <= certificate.until()
        && is_begun(entry.from(), moment)
        && is_not_over(entry.until(), moment)
}

/// What a verifier is asked about a signer under a certificate (RFC 5652 5.4 and 5.6), or `None` if the signer has no
/// signed attributes.
pub fn question_of<'q>(certificate: &Certificate<'q>, signer: &Signer<'q>) -> Option<Question<'q>>
    ensures { result ≡ option_map (asked certificate.now signer.now) signer.now.signed_attributes }
{
    let tail = signer.tail()?;
    Some(Question {
        key: certificate.key(),
        digest_alg: signer.digest_algorithm().whole(),
        signature_alg: signer.signature_algorithm().whole(),
        tail,
        signature: signer.signature(),
    })
}
