//! What calls write into sinks with too little room.
use crate::questioned::{tell_end, write_asked, write_questions};
use crate::runs::Runs;
use crate::sources::pieces;
use crate::terms::trust_of;
use cmsproof_api::{
    Accepted, AttachFault, Moment, Pass, Request, Response, SignedData, Sink, SinkFault, Trust,
    attach, report,
};
use der_time::read_generalized;
use devices::{FromWrite, Limited};
use ess_types::SigningCert;
use tsp_types::TstInfo;
use vectors::{Bad, Row, Said};

/// `written what=WHAT octets=OCTETS rooms=N`, and for a trust list and questions the terms and `of=FILE`: what is
/// written of the octets, at most five at each call, into a sink that has room for none, for one, and so on up to one
/// less than `rooms`: `all`, or the fault, and how often the sink failed.
pub fn written(said: &mut Said, row: &Row<'_>) {
    let octets = said.given(row, "octets");
    let mut runs = Runs::new(row.alloc);
    for room in 0..said.taken(row.number("rooms"), 0) {
        match line_in(said, row, octets.as_slice(), room) {
            Some(line) => runs.add(said, line),
            None => return said.word("other octets"),
        }
    }
    runs.tell(said);
}

/// What is said of a sink with so much room, unless other octets are written into it.
fn line_in(said: &mut Said, row: &Row<'_>, octets: &[u8], room: usize) -> Option<String> {
    let mut held = Vec::new(row.alloc);
    let line = line_of(row, octets, &mut held, room);
    if held.as_slice() == octets.get(..room).unwrap_or(octets) {
        Some(said.taken(line, String::new(row.alloc)))
    } else {
        None
    }
}

fn line_of(row: &Row<'_>, octets: &[u8], held: &mut Vec<u8>, room: usize) -> Result<String, Bad> {
    let mut said = Said::new(row)?;
    let mut sink = Limited::new(FromWrite::new(held), 5, room);
    write(&mut said, row, octets, &mut sink);
    said.shown(&sink.failed);
    said.end()
}

/// Writes what these octets encode, or what the terms tell, into a sink, and says how it ended.
fn write<S: Sink>(said: &mut Said, row: &Row<'_>, octets: &[u8], sink: &mut S) {
    let name = match row.text("what") {
        Ok(name) => name,
        Err(bad) => return said.refuse(bad),
    };
    match name {
        "signed" => write_signed(said, octets, sink),
        "request" => write_request(said, octets, sink),
        "stamp" => write_stamp(said, octets, sink),
        "response" => write_response(said, octets, sink),
        "names" => write_names(said, octets, sink),
        "attach" => write_attached(said, row, sink),
        "report" => write_report(said, row, sink),
        "trust" | "questions" | "asked" => write_by_trust(said, row, name, sink),
        _ => said.refuse(Bad::Text("a value that isn't known")),
    }
}

const NONE: Bad = Bad::Text("octets that encode no such value");

/// Writes a value that was read, and says how it ended.
macro_rules! write_read {
    ($said:ident, $read:expr, $sink:ident) => {
        match $read {
            Ok(value) => tell_end($said, "all", value.write($sink)),
            Err(_) => $said.refuse(NONE),
        }
    };
}

fn write_signed<S: Sink>(said: &mut Said, octets: &[u8], sink: &mut S) {
    write_read!(said, SignedData::read(octets), sink)
}

fn write_request<S: Sink>(said: &mut Said, octets: &[u8], sink: &mut S) {
    write_read!(said, Request::read(octets), sink)
}

fn write_stamp<S: Sink>(said: &mut Said, octets: &[u8], sink: &mut S) {
    write_read!(said, TstInfo::read(octets), sink)
}

fn write_response<S: Sink>(said: &mut Said, octets: &[u8], sink: &mut S) {
    write_read!(said, Response::read(octets), sink)
}

fn write_names<S: Sink>(said: &mut Said, octets: &[u8], sink: &mut S) {
    write_read!(said, SigningCert::read_v2(octets), sink)
}

fn write_attached<S: Sink>(said: &mut Said, row: &Row<'_>, sink: &mut S) {
    let file = said.given(row, "of");
    let token = said.given(row, "token");
    let end = attach_to(file.as_slice(), token.as_slice(), sink);
    tell_end(said, "all", end);
}

// A function of its own, as are two more here, because steps after a call with its contract are slow to check.
fn attach_to<S: Sink>(file: &[u8], token: &[u8], sink: &mut S) -> Result<(), AttachFault> {
    attach(file, 1, token, sink)
}

fn write_report<S: Sink>(said: &mut Said, row: &Row<'_>, sink: &mut S) {
    let moment = said.taken(row.text("moment"), "");
    match read_generalized(moment.as_bytes(), 0) {
        Ok(moment) => tell_end(said, "all", report_at(moment, sink)),
        Err(_) => said.refuse(NONE),
    }
}

fn report_at<S: Sink>(moment: Moment, sink: &mut S) -> Result<(), SinkFault> {
    report(&Ok(Accepted { moment }), sink)
}

fn write_by_trust<S: Sink>(said: &mut Said, row: &Row<'_>, name: &str, sink: &mut S) {
    match trust_of(row) {
        Ok(trust) => write_trusting(said, row, name, &trust, sink),
        Err(bad) => said.refuse(bad),
    }
}

fn write_trusting<S: Sink>(
    said: &mut Said,
    row: &Row<'_>,
    name: &str,
    trust: &Trust,
    sink: &mut S,
) {
    match name {
        "questions" => {
            let file = said.given(row, "of");
            let end = write_questions(file.as_slice(), trust, sink);
            tell_end(said, "all", end);
        }
        "asked" => {
            let file = said.given(row, "of");
            let mut passing = Pass::new();
            let mut file = pieces(file.as_slice(), 7);
            let end = write_asked(&mut passing, &mut file, &mut [0; 1024], trust, sink);
            tell_end(said, "all", end);
        }
        _ => tell_end(said, "all", trust_written(trust, sink)),
    }
}

fn trust_written<S: Sink>(trust: &Trust, sink: &mut S) -> Result<(), SinkFault> {
    trust.write(sink)
}
