ghost use Rattle.std.specs.Prelude.{◌≡◌, ◌⊎◌, Ok, Err, Some, IfOk, IfErr, OnOk, MatchResult};
ghost use Rattle.trust_lists.specs.ReadBack.{AddsText};
ghost use Rattle.trust_lists.specs.Written.{Puts};
ghost use Rattle.trust_lists.specs.Marks.{IsNext, HasSerial, HasKey};
ghost use Rattle.trust_lists.specs.TrustText.{Answer, IsTrust, IsOfLines, BeginsWell, HasFormAtFirst};

use crate::chains::Chains;
use crate::entry::Entry;
use crate::finding::{chains_of, next_marked};
use crate::marks::{MarkBy, mark_of};
use crate::role::Role;
use crate::trust_fault::{TrustFault, TrustRule};
use crate::trust_lines::entry_of;
use crate::trust_version::Version;
use crate::written::put_entries;
use devices::{Sink, SinkFault};
use list_answers::{Lines, put_word};
use std::alloc::Global;
use std::marker::Model;

/// The first line of a trust list of version 1.
const FIRST_VERSION: &[u8] = b"cmsproof trust 1";

/// The first line of a trust list of version 2.
const SECOND_VERSION: &[u8] = b"cmsproof trust 2";

/// A trust list: the certificates that a user trusts, each in a role and a period.
///
/// Contracts see the entries in the list's order.
#[derive(Debug, Drop)]
pub struct Trust {
    entries: Vec<Entry>,
    // The labels of roles and marks, by which entries are found: marks of issuers and serial numbers, and of key
    // identifiers.
    serials: Chains,
    key_ids: Chains,
}

impl Model for Trust {
    ghost use Rattle.std.specs.Prelude.{List};
    ghost use Rattle.trust_lists.specs.Entries.{EntryValue};
    ghost use Rattle.trust_lists.specs.ReadBack.{AreGood};
    ghost use Rattle.trust_lists.specs.Marks.{AreMarked};
    ghost use Rattle.trust_lists.specs.declared.marks.MarkBy.TheVariants.{Serial, KeyId};

    ghost Value = { List EntryValue };

    ghost view = { λ t. t.entries.items };

    ghost invariant = { λ t. AreGood t.entries.items × AreMarked Serial t.entries.items t.serials
        × AreMarked KeyId t.entries.items t.key_ids };
}

// The fault of a rule at a line. A lack of memory is reported without a line.
fn fault_at(rule: TrustRule, line: usize) -> TrustFault
    ensures rule { result.rule ≡ rule }
    ensures memory { rule ≡ TrustRule.OutOfMemory → result ≡ record { rule = rule; line = 0 } }
    ensures at { (rule ≡ TrustRule.OutOfMemory → ⊥) → result ≡ record { rule = rule; line = line } }
{
    if let TrustRule::OutOfMemory = rule {
        return TrustFault { rule, line: 0 };
    }
    TrustFault { rule, line }
}

// The entries of lines, in their order.
fn entries_of(alloc: Global, version: Version, lines: Lines<'_>) -> Result<Vec<Entry>, TrustFault>
    ensures found { IfOk result (λ v. IsOfLines version lines.entry (Ok v.items)) }
    ensures refused { IfErr result (λ f. (f ≡ record { rule = TrustRule.OutOfMemory; line = 0 })
        ⊎ IsOfLines version lines.entry (Err f)) }
    // A lack of memory is reported only if the first line has the form of an entry, and its period isn't backwards.
    ensures memory { IfErr result (λ f. f.rule ≡ TrustRule.OutOfMemory → BeginsWell version lines.entry) }
{
    let mut entries = Vec::new(alloc);
    let mut left = lines;
    while let Some((line, others)) = left.next() {
        match entry_of(alloc, version, line.octets) {
            Ok(entry) => entries.push(entry)?,
            Err(rule) => return Err(fault_at(rule, line.number)),
        }
        left = others;
    }
    Ok(entries)
}

// The entries of a text.
fn all_entries(alloc: Global, text: &[u8]) -> Result<Vec<Entry>, TrustFault>
    ensures found { IfOk result (λ v. IsTrust text.now (Ok v.items)) }
    ensures refused { IfErr result (λ f. (f ≡ record { rule = TrustRule.OutOfMemory; line = 0 })
        ⊎ IsTrust text.now (Err f)) }
    ensures memory { IfErr result (λ f. f.rule ≡ TrustRule.OutOfMemory → HasFormAtFirst text.now) }
{
    if let Some(lines) = Lines::under(text, FIRST_VERSION) {
        return entries_of(alloc, Version::First, lines);
    }
    if let Some(lines) = Lines::under(text, SECOND_VERSION) {
        return entries_of(alloc, Version::Second, lines);
    }
    Err(TrustFault {
        rule: TrustRule::Version,
        line: 1,
    })
}

impl Trust {
    /// The trust list that a text states. In version 1: `cmsproof trust 1`, and then lines `ROLE HEX` with a role,
    /// `signer` or `tsa`, one space and a whole certificate in hexadecimal. In version 2: `cmsproof trust 2`, and then
    /// lines `ROLE FROM UNTIL HEX`, with moments that are texts of GeneralizedTimes (X.690 11.7; RFC 3161 2.4.2), or
    /// `-` for an absent one; both ends of each entry of version 1 are absent. Empty lines and lines that begin with
    /// `#` have no meaning.
    ///
    /// Errors: `Version`, `Line`, `Period` or `Certificate`, the first of these in this order at the first line that
    /// has one, with its number; and `OutOfMemory` if memory is refused.
    #[tactic(auto, using(crate::proofs::TrustAnswers::one_answer))]
    pub fn read(alloc: Global, text: &[u8]) -> Result<Trust, TrustFault>
        // These are the entries of the text.
        ensures found { IfOk result (λ t. IsTrust text.now (Ok t)) }
        // A fault of a line is the text's first, and a lack of memory is reported without a line.
        ensures refused { IfErr result (λ f. (f ≡ record { rule = TrustRule.OutOfMemory; line = 0 })
            ⊎ IsTrust text.now (Err f)) }
        // A lack of memory is reported only if the first line that should be an entry has the form of one, and its
        // period isn't backwards.
        ensures memory { IfErr result (λ f. f.rule ≡ TrustRule.OutOfMemory → HasFormAtFirst text.now) }
        // No other answer is that of the text.
        ensures only { (answer : Answer) → IsTrust text.now answer → MatchResult result (λ t. answer ≡ Ok t)
            (λ f. (f ≡ record { rule = TrustRule.OutOfMemory; line = 0 }) ⊎ (answer ≡ Err f)) }
    {
        let entries = all_entries(alloc, text)?;
        let serials = chains_of(alloc, &entries, MarkBy::Serial)?;
        let key_ids = chains_of(alloc, &entries, MarkBy::KeyId)?;
        Ok(Trust {
            entries,
            serials,
            key_ids,
        })
    }

    /// The entries, in the list's order.
    pub fn entries(&self) -> &[Entry]
        ensures { result.now ≡ self.now }
    {
        &self.entries
    }

    /// The place of the next entry of this role, from this place on, whose certificate can have this issuer, as a
    /// whole element, and this serial number. It need not have them; none of the entries that were passed over does.
    #[tactic(auto, using(crate::proofs::MarkedEntries::next_serial))]
    pub fn next_serial(
        &self,
        role: Role,
        issuer: &[u8],
        serial: &[u8],
        from: usize,
    ) -> Option<usize>
        // An entry is found, or none is left. None of those that were passed over has the role, the issuer and the
        // serial number.
        ensures { IsNext (HasSerial role issuer.now serial.now) self.now from result }
    {
        let mark = mark_of(mark_of(0, issuer), serial);
        next_marked(&self.entries, &self.serials, role, mark, from)
    }

    /// The place of the next entry of this role, from this place on, whose certificate can have this key identifier.
    /// It need not have it; none of the entries that were passed over does.
    #[tactic(auto, using(crate::proofs::MarkedEntries::next_key_id))]
    pub fn next_key_id(&self, role: Role, id: &[u8], from: usize) -> Option<usize>
        // An entry is found, or none is left. None of those that were passed over has the role and the key identifier.
        ensures { IsNext (HasKey role id.now) self.now from result }
    {
        next_marked(&self.entries, &self.key_ids, role, mark_of(0, id), from)
    }

    /// Writes the list as a text of version 2: the first line, and for each entry in the list's order a line with its
    /// role, its two moments and its certificate in lower-case hexadecimal, each line with a line feed after it.
    ///
    /// Errors: `SinkFault` if the sink fails; then only a beginning of the text was written.
    pub fn write<S: Sink>(&self, sink: &mut S) -> Result<(), SinkFault>
        // The text of all entries, or after a fault a beginning of it; the count of failures rose exactly if there was
        // a fault.
        ensures wrote { Puts self.now result (S.tells sink.old) (S.taken sink.old) (S.taken sink.new)
            (S.failures sink.old) (S.failures sink.new) }
        // If it was known what the sink took, it still is.
        ensures telling { S.tells sink.old → S.tells sink.new }
        // The text states these entries: `read` returns this list for it, or reports a lack of memory.
        ensures again { OnOk result (S.tells sink.old → AddsText self.now (S.taken sink.old) (S.taken sink.new)) }
    {
        put_word(sink, SECOND_VERSION, b'\n')?;
        put_entries(sink, self.entries.as_slice())
    }
}
