ghost use Rattle.std.specs.Prelude.{◌≡◌, ◌++◌, Err, IfErr, IfOk, OnOk, option_copied};
ghost use Rattle.std.specs.String.{string_bytes};
ghost use Rattle.der_core.specs.Grammar.{file};
ghost use Rattle.der_grammar.specs.Table.{tst_info};
ghost use Rattle.der_core.specs.ReadFaults.{IsReadFault};
ghost use Rattle.tsp_types.specs.TstValue.{TstValue, EncodesTst};
ghost use Rattle.lines_shown.specs.TstLines.{number_text, accuracy_line, tst_lines, ShowsTst};

use crate::lines::{
    octets_text, push_extensions, push_line, push_nonce, push_octets, push_oid, push_optional,
    push_time, state_text,
};
use der_core::{Int, ReadFault};
use der_time::{TimeText, generalized_text};
use std::alloc::{AllocError, Global};
use tsp_types::{Accuracy, TstInfo};

/// A number of an accuracy in hexadecimal, or `-` if it is absent.
fn number_text(alloc: Global, number: Option<&Int>) -> Result<String, AllocError>
    ensures { IfOk result (λ text. string_bytes text ≡ number_text (option_copied number.entry)) }
{
    match number {
        None => String::from_str(alloc, "-"),
        Some(int) => octets_text(alloc, int.bytes()),
    }
}

/// Adds the line of the accuracy, if there is one: seconds, millis and micros.
fn push_accuracy(
    alloc: Global,
    text: &mut String,
    accuracy: Option<&Accuracy>,
) -> Result<(), AllocError>
    ensures { OnOk result (string_bytes text.new ≡ string_bytes text.old
        ++ accuracy_line (option_copied accuracy.entry)) }
{
    match accuracy {
        None => Ok(()),
        Some(accuracy) => {
            let seconds = number_text(alloc, accuracy.seconds())?;
            let millis = number_text(alloc, accuracy.millis())?;
            let micros = number_text(alloc, accuracy.micros())?;
            write!(text, "accuracy {seconds} {millis} {micros}\n")
        }
    }
}

/// The lines that show a TSTInfo, each ended by LF.
fn lines(alloc: Global, tst: &TstInfo, time: &TimeText) -> Result<String, AllocError>
    requires { time.now ≡ tst.now.time }
    ensures { IfOk result (λ text. string_bytes text ≡ tst_lines tst.now) }
{
    let mut text = String::from_str(alloc, "tst\n")?;
    push_oid(alloc, &mut text, "policy", tst.policy())?;
    push_oid(alloc, &mut text, "algorithm", tst.algorithm().oid())?;
    push_octets(alloc, &mut text, "digest", tst.imprint())?;
    push_octets(alloc, &mut text, "serial", tst.serial().bytes())?;
    push_time(&mut text, "time", time)?;
    push_accuracy(alloc, &mut text, tst.accuracy())?;
    push_line(&mut text, "ordering", state_text(tst.ordering()))?;
    push_nonce(alloc, &mut text, tst.nonce())?;
    push_optional(alloc, &mut text, "tsa", tst.tsa())?;
    push_extensions(&mut text, tst.extensions())?;
    Ok(text)
}

/// The lines that show the TSTInfo that all of these octets encode: the content of a time-stamp token (RFC 3161 2.4.2).
///
/// Errors: `Malformed`, with a fault that the octets have, if they don't encode one; `OutOfMemory` if memory is
/// refused.
pub fn text_of(alloc: Global, octets: &[u8]) -> Result<String, ReadFault>
    // Returns the lines of the TSTInfo that the octets encode.
    ensures shown { IfOk result (λ text. ShowsTst octets.now (string_bytes text)) }
    // A fault that is named is one that the octets have.
    ensures refused { IfErr result (IsReadFault (file tst_info) octets.now) }
    // `OutOfMemory` is returned only if the octets encode a TSTInfo.
    ensures memory { result ≡ Err ReadFault.OutOfMemory → (v : TstValue) × EncodesTst octets.now v }
{
    let tst = TstInfo::read(octets)?;
    // The text of a moment is the only one, so this is the one that was read.
    let time = generalized_text(tst.time());
    match lines(alloc, &tst, &time) {
        Ok(text) => Ok(text),
        Err(_) => Err(ReadFault::OutOfMemory),
    }
}
