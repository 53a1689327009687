ghost use Rattle.std.specs.Prelude.{◌≡◌, Err, IfErr, IfOk, option_copied};
ghost use Rattle.std.specs.String.{string_bytes};
ghost use Rattle.der_core.specs.Grammar.{file};
ghost use Rattle.der_grammar.specs.Table.{certificate};
ghost use Rattle.der_core.specs.ReadFaults.{IsReadFault};
ghost use Rattle.cert_types.specs.CertificateValue.{CertificateValue, EncodesCertificate};
ghost use Rattle.lines_shown.specs.CertificateLines.{answer_text, certificate_lines, ShowsCertificate};

use crate::lines::{push_line, push_octets, push_optional, push_time};
use cert_types::Certificate;
use der_core::ReadFault;
use der_time::{TimeText, generalized_text};
use std::alloc::{AllocError, Global};

/// What is shown of a certificate besides its parts.
#[derive(Drop)]
struct Shown<'a> {
    from: TimeText,
    until: TimeText,
    key_id: Option<&'a [u8]>,
    stamping: bool,
}

/// `yes` or `no`.
fn answer_text(answer: bool) -> &'static str
    ensures { result.now ≡ answer_text answer }
{
    if answer { "yes" } else { "no" }
}

/// The lines that show a certificate, each ended by LF.
fn lines(alloc: Global, certificate: &Certificate, shown: &Shown) -> Result<String, AllocError>
    ensures { IfOk result (λ text. string_bytes text
        ≡ certificate_lines certificate.now shown.now.from shown.now.until
        (option_copied shown.now.key_id) shown.now.stamping) }
{
    let mut text = String::from_str(alloc, "cert\n")?;
    push_octets(alloc, &mut text, "serial", certificate.serial().bytes())?;
    push_octets(alloc, &mut text, "issuer", certificate.issuer())?;
    push_octets(alloc, &mut text, "subject", certificate.subject())?;
    push_time(&mut text, "from", &shown.from)?;
    push_time(&mut text, "until", &shown.until)?;
    push_octets(alloc, &mut text, "key", certificate.key())?;
    push_optional(alloc, &mut text, "keyid", shown.key_id)?;
    push_line(&mut text, "stamping", answer_text(shown.stamping))?;
    Ok(text)
}

/// The lines that show the certificate that all of these octets encode.
///
/// Errors: `Malformed`, with a fault that the octets have, if they don't encode one; `OutOfMemory` if memory is
/// refused.
pub fn text_of(alloc: Global, octets: &[u8]) -> Result<String, ReadFault>
    // Returns the lines of the certificate that the octets encode.
    ensures shown { IfOk result (λ text. ShowsCertificate octets.now (string_bytes text)) }
    // A fault that is named is one that the octets have.
    ensures refused { IfErr result (IsReadFault (file certificate) octets.now) }
    // `OutOfMemory` is returned only if the octets encode a certificate.
    ensures memory { result ≡ Err ReadFault.OutOfMemory → (v : CertificateValue) × EncodesCertificate octets.now v }
{
    let certificate = Certificate::read(octets)?;
    let shown = Shown {
        from: generalized_text(certificate.from()),
        until: generalized_text(certificate.until()),
        key_id: certificate.key_id(),
        stamping: certificate.stamping_only(),
    };
    match lines(alloc, &certificate, &shown) {
        Ok(text) => Ok(text),
        Err(_) => Err(ReadFault::OutOfMemory),
    }
}
