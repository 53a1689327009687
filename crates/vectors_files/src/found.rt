//! What passes over files find.
use crate::runs::Runs;
use crate::sources::pieces;
use cms_stream::{Opened, Pass, StreamFault, Taker};
use cmsproof_api::{Signer, Signers, Source};
use vectors::{Bad, Row, Said};

/// The octets that passed. Where there is no memory for some, they are missing.
#[derive(Drop)]
struct Held(Vec<u8>);

impl Taker for Held {
    ghost use Rattle.std.specs.Prelude.{⊤};

    ghost held = { λ _ _. ⊤ };

    fn take(&mut self, octets: &[u8]) {
        let _ = self.0.extend_from_slice(octets);
    }
}

/// `found of=OCTETS type=OCTETS signatures=OCTETS,OCTETS`, with `content=OCTETS` if it is attached, in pieces of 1 to 7
/// octets and a buffer of 1,024: how many signers a pass finds, or that parts differ.
pub fn found(said: &mut Said, row: &Row<'_>) {
    let octets = said.given(row, "of");
    let mut room = [0; 1024];
    let mut runs = Runs::new(row.alloc);
    for most in 1..8usize {
        let line = line_of(row, octets.as_slice(), most, &mut room);
        let line = said.taken(line, String::new(row.alloc));
        runs.add(said, line);
    }
    let line = runs.same(said);
    said.word(line.as_str());
}

fn line_of(row: &Row<'_>, octets: &[u8], most: usize, room: &mut [u8]) -> Result<String, Bad> {
    let mut said = Said::new(row)?;
    pass(&mut said, row, &mut pieces(octets, most), room);
    said.end()
}

/// Says how many signers a pass finds, that the file is of another type, or the fault; in a row of `found` whether the
/// parts differ.
pub fn pass<S: Source>(said: &mut Said, row: &Row<'_>, file: &mut S, room: &mut [u8]) {
    let mut passing = Pass::new();
    let mut held = Held(Vec::new(row.alloc));
    match open(&mut passing, file, room, &mut held) {
        Ok(Some(opened)) => tell_opened(said, row, &opened, held.0.as_slice()),
        Ok(None) => said.word("another type"),
        Err(fault) => said.shown(&fault),
    }
}

// A function of its own, because the contract of `open_stream` makes each step after its call slow to check.
fn open<'b, S: Source>(
    passing: &mut Pass,
    file: &mut S,
    room: &'b mut [u8],
    held: &mut Held,
) -> Result<Option<Opened<'b>>, StreamFault> {
    passing.open_stream(file, room, held)
}

fn tell_opened(said: &mut Said, row: &Row<'_>, opened: &Opened<'_>, held: &[u8]) {
    if row.kind == "found" && !agrees(said, row, opened, held) {
        return said.word("other parts");
    }
    said.value("signers", &opened.signers().len());
}

/// Whether a file's type of content, content and signatures are as the row tells.
fn agrees(said: &mut Said, row: &Row<'_>, opened: &Opened<'_>, held: &[u8]) -> bool {
    let kind = said.given(row, "type");
    let content = said.given_if_any(row, "content");
    opened.content_type() == kind.as_slice()
        && opened.is_attached() == row.value("content").is_some()
        && held == content.as_slice()
        && signatures_agree(said, row, opened.signers())
}

fn signatures_agree(said: &mut Said, row: &Row<'_>, signers: &Signers<'_>) -> bool {
    let mut left = signers.again();
    let mut agrees = true;
    for parts in said.taken(row.text("signatures"), "").split(',') {
        if parts == "-" {
            break;
        }
        let Some((signer, others)) = left.next() else {
            return false;
        };
        agrees = is_signed(said, row, &signer, parts) && agrees;
        left = others;
    }
    agrees && left.is_empty()
}

/// Whether a signer's signature is what these parts are.
fn is_signed(said: &mut Said, row: &Row<'_>, signer: &Signer<'_>, parts: &str) -> bool {
    let signature = said.taken(row.made(parts), Vec::new(row.alloc));
    signer.signature() == signature.as_slice()
}
