//! The lines of version 2 that are written for entries.
ghost use Rattle.std.specs.Prelude.{◌≡◌, ◌∷◌, ◌++◌, ◌<◌, ℕ, [], List};
ghost use Rattle.devices.specs.Device.{Wrote};
ghost use Rattle.hex.specs.Hex.{encode_lower};
ghost use Rattle.trust_lists.specs.Written.{role_word, IsMomentWord, IsEntryLine, PutsLines};
ghost use Rattle.trust_lists.specs.WrittenSteps.{moment_word};

use crate::entry::Entry;
use crate::role::Role;
use der_time::{Moment, TimeText, generalized_text};
use devices::{Sink, SinkFault, put_all};
use list_answers::{put_digits, put_word};

fn role_word(role: Role) -> &'static [u8]
    ensures { result.now ≡ role_word role }
{
    match role {
        Role::Signer => b"signer",
        Role::Tsa => b"tsa",
    }
}

// The text of a moment, if there is one.
#[tactic(auto, unfolding(crate::specs::Written::IsMomentWord))]
fn text_of(moment: Option<Moment>) -> Option<TimeText>
    ensures { IsMomentWord moment (moment_word result) }
{
    match moment {
        None => None,
        Some(moment) => Some(generalized_text(moment)),
    }
}

// The word of an end: `-` if it is absent.
fn moment_word(text: &Option<TimeText>) -> &[u8]
    ensures { result.now ≡ moment_word text.now }
{
    match text {
        None => b"-",
        Some(text) => text.bytes(),
    }
}

// Writes octets as digits and ends the line.
#[tactic(auto, using(devices::proofs::Putting::wrote_next, devices::proofs::Putting::wrote_part))]
fn put_certificate<S: Sink>(sink: &mut S, octets: &[u8]) -> Result<(), SinkFault>
    ensures wrote { Wrote result (S.tells sink.old) (S.taken sink.old) (S.taken sink.new) (S.failures sink.old)
        (S.failures sink.new) (encode_lower octets.now ++ 10 ∷ []) }
    ensures telling { S.tells sink.old → S.tells sink.new }
{
    put_digits(sink, octets)?;
    put_all(sink, b"\n")
}

// Writes the last moment and what follows it.
#[tactic(auto, using(devices::proofs::Putting::wrote_next, devices::proofs::Putting::wrote_part))]
fn put_until<S: Sink>(sink: &mut S, until: &[u8], octets: &[u8]) -> Result<(), SinkFault>
    ensures wrote { Wrote result (S.tells sink.old) (S.taken sink.old) (S.taken sink.new) (S.failures sink.old)
        (S.failures sink.new) ((until.now ++ 32 ∷ []) ++ (encode_lower octets.now ++ 10 ∷ [])) }
    ensures telling { S.tells sink.old → S.tells sink.new }
{
    put_word(sink, until, b' ')?;
    put_certificate(sink, octets)
}

// Writes the period and what follows it.
#[tactic(auto, using(devices::proofs::Putting::wrote_next, devices::proofs::Putting::wrote_part))]
fn put_period<S: Sink>(
    sink: &mut S,
    from: &[u8],
    until: &[u8],
    octets: &[u8],
) -> Result<(), SinkFault>
    ensures wrote { Wrote result (S.tells sink.old) (S.taken sink.old)
        (S.taken sink.new) (S.failures sink.old) (S.failures sink.new)
        ((from.now ++ 32 ∷ []) ++ ((until.now ++ 32 ∷ []) ++ (encode_lower octets.now ++ 10 ∷ []))) }
    ensures telling { S.tells sink.old → S.tells sink.new }
{
    put_word(sink, from, b' ')?;
    put_until(sink, until, octets)
}

// Writes the four words of a line.
#[tactic(auto, using(devices::proofs::Putting::wrote_next, devices::proofs::Putting::wrote_part))]
fn put_words<S: Sink>(
    sink: &mut S,
    role: &[u8],
    from: &[u8],
    until: &[u8],
    octets: &[u8],
) -> Result<(), SinkFault>
    ensures wrote { Wrote result (S.tells sink.old) (S.taken sink.old) (S.taken sink.new)
        (S.failures sink.old) (S.failures sink.new) ((role.now ++ 32 ∷ [])
        ++ ((from.now ++ 32 ∷ []) ++ ((until.now ++ 32 ∷ []) ++ (encode_lower octets.now ++ 10 ∷ [])))) }
    ensures telling { S.tells sink.old → S.tells sink.new }
{
    put_word(sink, role, b' ')?;
    put_period(sink, from, until, octets)
}

// Writes the line of an entry.
fn put_entry<S: Sink>(sink: &mut S, entry: &Entry) -> Result<(), SinkFault>
    ensures wrote { (line : List ℕ) × IsEntryLine entry.now line × Wrote result (S.tells sink.old) (S.taken sink.old)
        (S.taken sink.new) (S.failures sink.old) (S.failures sink.new) line }
    ensures telling { S.tells sink.old → S.tells sink.new }
{
    let from = text_of(entry.from);
    let until = text_of(entry.until);
    put_words(
        sink,
        role_word(entry.role),
        moment_word(&from),
        moment_word(&until),
        &entry.octets,
    )
}

/// Writes a line for each entry.
pub(crate) fn put_entries<S: Sink>(sink: &mut S, entries: &[Entry]) -> Result<(), SinkFault>
    ensures wrote { PutsLines entries.now result (S.tells sink.old) (S.taken sink.old) (S.taken sink.new)
        (S.failures sink.old) (S.failures sink.new) }
    ensures telling { S.tells sink.old → S.tells sink.new }
{
    let mut left = entries;
    while let Some((first, others)) = left.split_first() {
        put_entry(sink, first)?;
        left = others;
    }
    Ok(())
}
