ghost use Rattle.std.specs.Prelude.{◌≡◌, ◌++◌, [], ◌∷◌, Err, IfErr, IfOk, IfSome, OnOk, length, true, option_copied};
ghost use Rattle.std.specs.Prelude.{unwrap_or};
ghost use Rattle.std.specs.String.{string_bytes};
ghost use Rattle.std.specs.List.{AllByRecursion};
ghost use Rattle.der_core.specs.Grammar.{file};
ghost use Rattle.der_core.specs.ReadFaults.{IsReadFault};
ghost use Rattle.der_core.specs.Times.{is_generalized};
ghost use Rattle.evidence_types.specs.EvidenceTable.{evidence_record};
ghost use Rattle.evidence_types.specs.EvidenceValue.{EvidenceValue, EncodesEvidence, GoodChain};
ghost use Rattle.evidence_types.specs.StampValue.{GoodStamp, GoodHashLists};
ghost use Rattle.lines_shown.specs.EvidenceLines.{algorithm_text, time_text, values_count, place_text, stated_text};
ghost use Rattle.lines_shown.specs.EvidenceLines.{counts_text, IsStampLine, AreLines, AreChainLines};
ghost use Rattle.lines_shown.specs.EvidenceLines.{crypto_infos_line, encryption_line, record_lines, Adds};
ghost use Rattle.lines_shown.specs.EvidenceLines.{ShowsEvidence};

use crate::lines::{push_count, push_line, push_oid};
use crate::stated::stated_by;
use der_core::ReadFault;
use der_oid_text::oid_text;
use der_time::generalized_text;
use evidence_types::{
    ArchiveTimeStamp, Chain, Chains, Encryption, EvidenceAttributes, EvidenceRecord, HashLists,
    StampAlgorithm,
};
use std::alloc::{AllocError, Global};
use tsp_types::TstInfo;

/// The algorithm that is named, or that of the imprint that is stated, or `-`.
fn algorithm_text(
    alloc: Global,
    named: Option<&StampAlgorithm>,
    stated: Option<&TstInfo>,
) -> Result<String, AllocError>
    ensures { IfOk result (λ text. string_bytes text
        ≡ algorithm_text (option_copied named.entry) (option_copied stated.entry)) }
{
    if let Some(algorithm) = named {
        return oid_text(alloc, algorithm.oid());
    }
    match stated {
        Some(tst) => oid_text(alloc, tst.algorithm().oid()),
        None => String::from_str(alloc, "-"),
    }
}

/// The time that is stated, or `-`.
fn time_text(alloc: Global, stated: Option<&TstInfo>) -> Result<String, AllocError>
    requires { IfSome (option_copied stated) (λ t. is_generalized t.time ≡ true) }
    ensures { IfOk result (λ text. string_bytes text ≡ time_text (option_copied stated.entry)) }
{
    match stated {
        Some(tst) => {
            // The text of a moment is the only one, so this is the one that was read.
            let time = generalized_text(tst.time());
            String::from_str(alloc, time.as_str())
        }
        None => String::from_str(alloc, "-"),
    }
}

/// How many hash values there are in these lists.
#[tactic(auto, using(crate::proofs::Values::values_below))]
fn values_in(lists: &HashLists) -> usize
    requires { GoodHashLists lists.now }
    ensures { result ≡ values_count lists.now }
{
    let mut count = 0;
    let mut left = lists.again();
    while let Some((list, others)) = left.next() {
        count += list.len();
        left = others;
    }
    count
}

/// How many lists an archive time-stamp has, and how many hash values are in them all.
fn counts_of(lists: Option<&HashLists>) -> (usize, usize)
    requires { IfSome (option_copied lists) GoodHashLists }
    ensures lists { result.0 ≡ length (unwrap_or (option_copied lists.entry) []) }
    ensures values { result.1 ≡ values_count (unwrap_or (option_copied lists.entry) []) }
{
    match lists {
        Some(lists) => (lists.len(), values_in(lists)),
        None => (0, 0),
    }
}

/// Adds the number of a chain and that of an archive time-stamp in it, the beginning of a line.
fn push_place(text: &mut String, chain: usize, number: usize) -> Result<(), AllocError>
    ensures { OnOk result (string_bytes text.new ≡ string_bytes text.old ++ place_text chain number) }
{
    write!(text, "chain {chain} stamp {number}")
}

/// Adds the algorithm and the time of an archive time-stamp.
fn push_stated(
    alloc: Global,
    text: &mut String,
    named: Option<&StampAlgorithm>,
    stated: Option<&TstInfo>,
) -> Result<(), AllocError>
    requires { IfSome (option_copied stated) (λ t. is_generalized t.time ≡ true) }
    ensures { OnOk result (string_bytes text.new ≡ string_bytes text.old
        ++ stated_text (option_copied named.entry) (option_copied stated.entry)) }
{
    let algorithm = algorithm_text(alloc, named, stated)?;
    let time = time_text(alloc, stated)?;
    write!(text, " algorithm {algorithm} time {time}")
}

/// Adds how many lists an archive time-stamp has, and how many hash values in all, the end of a line.
fn push_counts(text: &mut String, lists: Option<&HashLists>) -> Result<(), AllocError>
    requires { IfSome (option_copied lists) GoodHashLists }
    ensures { OnOk result (string_bytes text.new ≡ string_bytes text.old
        ++ counts_text (option_copied lists.entry) ++ (10 ∷ [])) }
{
    let (lists, values) = counts_of(lists);
    write!(text, " lists {lists} values {values}\n")
}

/// Adds the line of an archive time-stamp with this number in the chain with this number.
fn push_stamp(
    alloc: Global,
    text: &mut String,
    chain: usize,
    number: usize,
    stamp: &ArchiveTimeStamp,
) -> Result<(), AllocError>
    requires { GoodStamp stamp.now }
    ensures { OnOk result (Adds (IsStampLine chain number stamp.now) (string_bytes text.old)
        (string_bytes text.new)) }
{
    let stated = stated_by(stamp.stamp());
    push_place(text, chain, number)?;
    push_stated(alloc, text, stamp.algorithm(), stated.as_ref())?;
    push_counts(text, stamp.lists())
}

/// Adds the lines of the archive time-stamps of the chain with this number.
fn push_chain(
    alloc: Global,
    text: &mut String,
    chain: usize,
    stamps: &Chain,
) -> Result<(), AllocError>
    requires { AllByRecursion GoodStamp stamps.now }
    ensures { OnOk result (Adds (AreChainLines chain stamps.now) (string_bytes text.old) (string_bytes text.new)) }
{
    let total = stamps.len();
    let mut number = 0;
    let mut left = stamps.again();
    while let Some((stamp, others)) = left.next() {
        prove!(number < total);
        number += 1;
        push_stamp(alloc, text, chain, number, &stamp)?;
        left = others;
    }
    Ok(())
}

/// Adds the lines of the archive time-stamps of all chains.
fn push_chains(alloc: Global, text: &mut String, chains: &Chains) -> Result<(), AllocError>
    requires { AllByRecursion GoodChain chains.now }
    ensures { OnOk result (Adds (AreLines AreChainLines 1 chains.now) (string_bytes text.old) (string_bytes text.new)) }
{
    let total = chains.len();
    let mut number = 0;
    let mut left = chains.again();
    while let Some((stamps, others)) = left.next() {
        prove!(number < total);
        number += 1;
        push_chain(alloc, text, number, &stamps)?;
        left = others;
    }
    Ok(())
}

/// Adds the line of how many attributes the record has, if it has the field.
fn push_crypto_infos(
    text: &mut String,
    attributes: Option<&EvidenceAttributes>,
) -> Result<(), AllocError>
    ensures { OnOk result (string_bytes text.new ≡ string_bytes text.old
        ++ crypto_infos_line (option_copied attributes.entry)) }
{
    match attributes {
        None => Ok(()),
        Some(attributes) => push_count(text, "cryptoinfos", attributes.len()),
    }
}

/// Adds the line of how the data are encrypted, if the record has the field.
fn push_encryption(
    alloc: Global,
    text: &mut String,
    encryption: Option<&Encryption>,
) -> Result<(), AllocError>
    ensures { OnOk result (string_bytes text.new ≡ string_bytes text.old
        ++ encryption_line (option_copied encryption.entry)) }
{
    match encryption {
        None => Ok(()),
        Some(encryption) => push_oid(alloc, text, "encryption", encryption.id()),
    }
}

/// The lines before those of the archive time-stamps, each ended by LF.
fn head(alloc: Global, evidence: &EvidenceRecord) -> Result<String, AllocError>
    ensures { IfOk result (λ text. string_bytes text ≡ record_lines evidence.now) }
{
    let mut text = String::from_str(alloc, "evidence\n")?;
    push_line(&mut text, "version", "1")?;
    push_count(&mut text, "algorithms", evidence.algorithms().len())?;
    push_crypto_infos(&mut text, evidence.crypto_infos())?;
    push_encryption(alloc, &mut text, evidence.encryption())?;
    push_count(&mut text, "chains", evidence.chains().len())?;
    Ok(text)
}

/// The lines that show an evidence record, each ended by LF.
fn lines(alloc: Global, evidence: &EvidenceRecord) -> Result<String, AllocError>
    requires { AllByRecursion GoodChain evidence.now.chains }
    ensures { IfOk result (λ text. Adds (AreLines AreChainLines 1 evidence.now.chains) (record_lines evidence.now)
        (string_bytes text)) }
{
    let mut text = head(alloc, evidence)?;
    push_chains(alloc, &mut text, evidence.chains())?;
    Ok(text)
}

/// The lines that show the evidence record that all of these octets encode (RFC 4998). No time-stamp is checked. Of
/// one that is no token whose content is a TSTInfo (RFC 3161 2.4.2) a dash is shown for the time, and for the algorithm
/// where the archive time-stamp names none.
///
/// Errors: `Malformed`, with a fault that the octets have, if they don't encode one; `OutOfMemory` if memory is
/// refused.
pub fn text_of(alloc: Global, octets: &[u8]) -> Result<String, ReadFault>
    // Returns the lines of the evidence record that the octets encode.
    ensures shown { IfOk result (λ text. ShowsEvidence octets.now (string_bytes text)) }
    // A fault that is named is one that the octets have.
    ensures refused { IfErr result (IsReadFault (file evidence_record) octets.now) }
    // `OutOfMemory` is returned only if the octets encode an evidence record.
    ensures memory { result ≡ Err ReadFault.OutOfMemory → (v : EvidenceValue) × EncodesEvidence octets.now v }
{
    let evidence = EvidenceRecord::read(octets)?;
    match lines(alloc, &evidence) {
        Ok(text) => Ok(text),
        Err(_) => Err(ReadFault::OutOfMemory),
    }
}
