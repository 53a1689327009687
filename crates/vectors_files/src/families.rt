//! What calls say of files, of their beginnings, and of them with one octet changed.
use crate::runs::{Runs, printed};
use crate::terms::{Terms, trust_of};
use vectors::{Bad, Row, Said, has_part, range_of};

/// `check`, with a content at once or in single octets, and streams in pieces of 1, 2, 3 and 7 octets.
const JUDGES: &str = "check,check/1,stream/1,stream/2,stream/3,stream/7";

/// The names of the values of a row.
pub const NAMES: &str =
    "of by room places trust version vouched missing sha1 expecting content lines fails calls";

/// The file of a row, its terms, and a buffer that is as long as the file, or `room`.
#[derive(Drop)]
struct Given<'r, 'a> {
    file: Vec<u8>,
    terms: Terms<'r, 'a>,
    room: Vec<u8>,
}

/// What a row gives, if its trust list is one.
fn given_by<'r, 'a>(said: &mut Said, row: &'r Row<'a>) -> Option<Given<'r, 'a>> {
    match trust_of(row) {
        Ok(trust) => {
            check_device(said, row);
            let terms = Terms::of(said, row, trust);
            let file = said.given(row, "of");
            let room = room_of(said, row, file.len());
            Some(Given { file, terms, room })
        }
        Err(bad) => {
            said.refuse(bad);
            None
        }
    }
}

/// Makes the answer bad if the device that fails isn't known.
fn check_device(said: &mut Said, row: &Row<'_>) {
    if let Some(device) = row.value("fails") {
        if !has_part("source content verifier", ' ', device) {
            said.refuse(Bad::Text("a device that isn't known"));
        }
    }
}

fn room_of(said: &mut Said, row: &Row<'_>, length: usize) -> Vec<u8> {
    let count = said.taken(row.number_or("room", length), 0);
    match vec![in row.alloc; 0u8; count] {
        Ok(room) => room,
        Err(_) => {
            said.refuse(Bad::Memory);
            Vec::new(row.alloc)
        }
    }
}

/// What the calls `by`, or `JUDGES` without it, say of octets: once if all say the same.
fn line_of(
    said: &mut Said,
    terms: &Terms<'_, '_>,
    octets: &[u8],
    room: &mut [u8],
    calls: u64,
) -> String {
    let mut runs = Runs::new(said.alloc);
    for by in terms.row.value("by").unwrap_or(JUDGES).split(',') {
        let line = terms.line_of(by, octets, room, calls);
        let line = said.taken(line, String::new(said.alloc));
        let line = shortened(said, terms.row, line);
        runs.add(said, line);
    }
    runs.same(said)
}

/// Of changes, a fault of form is ` M` alone.
fn shortened(said: &mut Said, row: &Row<'_>, line: String) -> String {
    match line.as_str().split_once(" M") {
        Some((front, _)) if row.kind == "changes" => {
            let text = format!(in said.alloc; "{front} M");
            printed(said, text)
        }
        _ => line,
    }
}

/// `check of=FILE` and terms: what the calls say; with `fails`, a device (`source`, `content` or `verifier`) that fails
/// after none of its calls, after one, and so on up to one less than `calls`.
pub fn check(said: &mut Said, row: &Row<'_>) {
    if let Some(
        Given {
            file,
            terms,
            mut room,
        },
    ) = given_by(said, row)
    {
        match row.value("fails") {
            Some(_) => tell_failing(said, &terms, file.as_slice(), room.as_mut_slice()),
            None => tell_once(said, &terms, file.as_slice(), room.as_mut_slice()),
        }
    }
}

fn tell_once(said: &mut Said, terms: &Terms<'_, '_>, file: &[u8], room: &mut [u8]) {
    let line = line_of(said, terms, file, room, 0);
    said.word(line.as_str());
}

fn tell_failing(said: &mut Said, terms: &Terms<'_, '_>, file: &[u8], room: &mut [u8]) {
    let mut runs = Runs::new(said.alloc);
    for calls in 0..said.taken(terms.row.number("calls"), 0) {
        let line = line_of(said, terms, file, room, calls as u64);
        runs.add(said, line);
    }
    runs.tell(said);
}

/// `cuts of=FILE` and terms: what the calls say of each proper beginning, the shortest first.
pub fn cuts(said: &mut Said, row: &Row<'_>) {
    if let Some(
        Given {
            file,
            terms,
            mut room,
        },
    ) = given_by(said, row)
    {
        tell_cuts(said, &terms, file.as_slice(), room.as_mut_slice());
    }
}

fn tell_cuts(said: &mut Said, terms: &Terms<'_, '_>, file: &[u8], room: &mut [u8]) {
    let mut runs = Runs::new(said.alloc);
    for count in 0..file.len() {
        let (front, _) = file.split_at(count);
        let line = line_of(said, terms, front, room, 0);
        runs.add(said, line);
    }
    runs.tell(said);
}

/// `changes of=FILE` and terms, with `places=N..N` if not all octets are changed: how often the calls say what of the
/// file with one octet changed by exclusive or with 01, 80 or ff, in the order of the lines.
pub fn changes(said: &mut Said, row: &Row<'_>) {
    if let Some(
        Given {
            mut file,
            terms,
            mut room,
        },
    ) = given_by(said, row)
    {
        match range_of(row.value("places").unwrap_or(".."), file.len()) {
            Ok((first, end)) => {
                let (file, room) = (file.as_mut_slice(), room.as_mut_slice());
                tell_changes(said, &terms, file, room, first, end);
            }
            Err(bad) => said.refuse(bad),
        }
    }
}

fn tell_changes(
    said: &mut Said,
    terms: &Terms<'_, '_>,
    file: &mut [u8],
    room: &mut [u8],
    first: usize,
    end: usize,
) {
    let mut lines = Vec::new(said.alloc);
    for at in first..end {
        for mask in [0x01, 0x80, 0xff] {
            change(file, at, mask);
            let line = line_of(said, terms, file, room, 0);
            add_line(said, &mut lines, line);
            change(file, at, mask);
        }
    }
    tell_sorted(said, lines);
}

/// Changes the octet at this place; a second time, back to what it was.
fn change(octets: &mut [u8], at: usize, mask: u8) {
    if let Some(octet) = octets.get_mut(at) {
        *octet ^= mask;
    }
}

fn add_line(said: &mut Said, lines: &mut Vec<String>, line: String) {
    if lines.push(line).is_err() {
        said.refuse(Bad::Memory);
    }
}

fn tell_sorted(said: &mut Said, mut lines: Vec<String>) {
    lines.sort_unstable();
    let mut runs = Runs::new(said.alloc);
    for line in lines {
        runs.add(said, line);
    }
    runs.tell(said);
}
