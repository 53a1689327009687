//! What a line of a trust list states.
ghost use Rattle.std.specs.Prelude.{◌≡◌, ◌⊎◌, IfErr, IfSome, None, MatchResult, option_map};
ghost use Rattle.trust_lists.specs.Periods.{is_backwards};
ghost use Rattle.list_answers.specs.Texts.{words_of};
ghost use Rattle.trust_lists.specs.TrustText.{role_of, moment_in, first_fields, second_fields, fields_of, SaysEntry};
ghost use Rattle.trust_lists.specs.TrustText.{FailsRule, HasForm};
ghost use Rattle.trust_lists.specs.TrustSteps.{line_fields, FailsWithoutMemory};
ghost use Rattle.cert_types.specs.CertificateValue.{CertificateValue, EncodesCertificate};
ghost use Rattle.trust_lists.specs.Certificates.{certificate_of};
ghost use Rattle.trust_lists.specs.Marks.{AreMarks};

use crate::entry::Entry;
use crate::marks::{Marks, marks_of};
use crate::role::Role;
use crate::trust_fault::TrustRule;
use crate::trust_version::Version;
use cert_types::Certificate;
use der_core::octets::is_same;
use der_time::{Moment, read_generalized};
use list_answers::{Words, are_pairs, decode};
use std::alloc::Global;

/// What a line states: an entry, if the digits are pairs of digits, and those of its certificate.
#[derive(Debug, Drop)]
struct Fields<'a> {
    role: Role,
    from: Option<Moment>,
    until: Option<Moment>,
    digits: &'a [u8],
}

fn role_of(word: &[u8]) -> Option<Role>
    ensures { result ≡ role_of word.now }
{
    if is_same(word, b"signer") {
        Some(Role::Signer)
    } else if is_same(word, b"tsa") {
        Some(Role::Tsa)
    } else {
        None
    }
}

// The moment of a word; `-` means that it is absent.
#[tactic(auto, unfolding(crate::specs::TrustText::moment_in))]
fn moment_in(word: &[u8]) -> Option<Option<Moment>>
    ensures { result ≡ moment_in word.now }
{
    if is_same(word, b"-") {
        return Some(None);
    }
    let Ok(moment) = read_generalized(word, 0) else {
        return None;
    };
    Some(Some(moment))
}

// The fields of a line of version 1: role and certificate, with both ends absent. The digits aren't tested.
fn first_fields(line: &[u8]) -> Option<Fields<'_>>
    ensures { line_fields result ≡ first_fields (words_of line.now) }
{
    let mut words = Words::of(line);
    let (Some(role), Some(digits), None) = (words.next(), words.next(), words.next()) else {
        return None;
    };
    let role = role_of(role)?;
    Some(Fields {
        role,
        from: None,
        until: None,
        digits,
    })
}

// The fields of a line of version 2: role, first moment, last moment and certificate. The digits aren't tested.
fn second_fields(line: &[u8]) -> Option<Fields<'_>>
    ensures { line_fields result ≡ second_fields (words_of line.now) }
{
    let mut words = Words::of(line);
    let (Some(role), Some(from), Some(until), Some(digits), None) = (
        words.next(),
        words.next(),
        words.next(),
        words.next(),
        words.next(),
    ) else {
        return None;
    };
    let role = role_of(role)?;
    let from = moment_in(from)?;
    let until = moment_in(until)?;
    Some(Fields {
        role,
        from,
        until,
        digits,
    })
}

fn fields_of(version: Version, line: &[u8]) -> Option<Fields<'_>>
    ensures { line_fields result ≡ fields_of version line.now }
{
    match version {
        Version::First => first_fields(line),
        Version::Second => second_fields(line),
    }
}

// Whether both moments are present, and the first is later than the last.
fn is_backwards(from: Option<Moment>, until: Option<Moment>) -> bool
    ensures { result ≡ is_backwards from until }
{
    match (from, until) {
        (Some(from), Some(until)) => until < from,
        _ => false,
    }
}

// The marks of the certificate that octets encode, if they encode one.
fn marks_in(octets: &[u8]) -> Option<Marks>
    ensures encoded { IfSome result (λ m. EncodesCertificate octets.now (certificate_of octets.now)
        × AreMarks (certificate_of octets.now) m) }
    ensures another { result ≡ None → (c : CertificateValue) → EncodesCertificate octets.now c → ⊥ }
{
    match Certificate::read(octets) {
        Ok(certificate) => Some(marks_of(&certificate)),
        Err(_) => None,
    }
}

// What is wrong where the memory for a line's octets was refused: the form of its digits, its period, or that alone.
fn without_memory(fields: &Fields<'_>) -> TrustRule
    ensures { FailsWithoutMemory fields.now result }
{
    if !are_pairs(fields.digits) {
        return TrustRule::Line;
    }
    if is_backwards(fields.from, fields.until) {
        return TrustRule::Period;
    }
    TrustRule::OutOfMemory
}

/// The entry that a line states, or the rule that it fails: its form first, then its period, then its certificate.
pub(crate) fn entry_of(alloc: Global, version: Version, line: &[u8]) -> Result<Entry, TrustRule>
    ensures stated { MatchResult result (SaysEntry version line.now)
        (λ r. (r ≡ TrustRule.OutOfMemory) ⊎ FailsRule version line.now r) }
    // A lack of memory is reported only if the line has the form of an entry, and its period isn't backwards.
    ensures memory { IfErr result (λ r. r ≡ TrustRule.OutOfMemory → HasForm version line.now) }
{
    let Some(fields) = fields_of(version, line) else {
        return Err(TrustRule::Line);
    };
    let octets = match decode(alloc, fields.digits) {
        Ok(Some(octets)) => octets,
        Ok(None) => return Err(TrustRule::Line),
        Err(_) => return Err(without_memory(&fields)),
    };
    if is_backwards(fields.from, fields.until) {
        return Err(TrustRule::Period);
    }
    let Some(marks) = marks_in(&octets) else {
        return Err(TrustRule::Certificate);
    };
    Ok(Entry {
        role: fields.role,
        from: fields.from,
        until: fields.until,
        octets,
        marks,
    })
}
