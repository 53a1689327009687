//! Which certificate a signer means, which response answers a request, and which rule one of two files, a signer or a
//! file fails first.
use crate::ended;
use cert_types::Certificate;
use check_fit::{Policy, Refused, fits, signer_fits};
use check_names::{EachTime, matches, must_name, names_if_any};
use cms_compare::{Compared, compare};
use cms_types::{Attributes, SignedData, Signer, SignerId};
use devices::{FromRead, Pieces, Slice, Source};
use tsp_requester::{answers, granted_token};
use tsp_types::{Request, Response};
use vectors::{Bad, Row, Said, needed};
use vectors_doubles::Failing;

/// The file of a row; or one with the content `abc` and one signer (RFC 5652 5.1, 5.3) with the row's identifier, or
/// the issuer `CN=A` and the serial number 5; its digest algorithm, or SHA-256; and its signed attributes, or none if
/// they are `-`.
fn file_in(row: &Row<'_>) -> Result<Vec<u8>, Bad> {
    match row.value("file") {
        Some(parts) => row.made(parts),
        None => row.made(parts_of(row, row.text("signed")?)?.as_str()),
    }
}

/// The parts of the file that is made of signed attributes.
fn parts_of(row: &Row<'_>, signed: &str) -> Result<String, Bad> {
    let sid = row
        .value("sid")
        .unwrap_or("3011300c310a300806035504030c0141020105");
    let algorithm = row.value("algorithm").unwrap_or("0609608648016503040201");
    let mut parts = Said::new(row)?;
    parts.word("30{ 06092a864886f70d010702 a0{ 30{ 020101 310d300b0609608648016503040201");
    parts.word("301206092a864886f70d010701a0050403616263 31{ 30{ 020101");
    parts.word(sid);
    parts.word("30{");
    parts.word(algorithm);
    parts.word("}");
    if signed != "-" {
        parts.word("a0{");
        parts.word(signed);
        parts.word("}");
    }
    parts.word("300506038837010403616263 } } } } }");
    parts.end()
}

/// `names file sid signed of`: whether the first signer of a file means a certificate by its identifier, by each
/// signing-certificate attribute that is there, and by one that has to be there.
/// `signer file algorithm signed content type sha1`: the rule of S1 to S6 that the first signer of a file fails first,
/// with this content and its type.
pub fn first_signer(said: &mut Said, row: &Row<'_>) {
    let octets = given!(said, file_in(row));
    match SignedData::read(octets.as_slice()) {
        Ok(file) => tell_first(said, row, &file),
        Err(_) => said.refuse(Bad::Text("no file")),
    }
}

fn tell_first(said: &mut Said, row: &Row<'_>, file: &SignedData<'_>) {
    match file.signers().next() {
        Some((signer, _)) => tell_signer(said, row, &signer),
        None => said.refuse(Bad::Text("no signer")),
    }
}

fn tell_signer(said: &mut Said, row: &Row<'_>, signer: &Signer<'_>) {
    if row.kind == "signer" {
        return tell_fitting(said, row, signer);
    }
    match signer.attributes() {
        Some(attributes) => tell_named(said, row, signer.sid(), attributes),
        None => said.refuse(Bad::Text("no attributes")),
    }
}

fn tell_fitting(said: &mut Said, row: &Row<'_>, signer: &Signer<'_>) {
    let content = given!(said, row.octets_or("content", "'abc"));
    let econtent_type = given!(said, row.octets_or("type", "2a864886f70d010701"));
    let policy = policy_in(said, row);
    ended(
        said,
        "fits",
        signer_fits(policy, &content, &econtent_type, signer),
    );
}

/// The policy of a row, whose `sha1` says whether SHA-1 is allowed.
pub fn policy_in(said: &mut Said, row: &Row<'_>) -> Policy {
    Policy::with_sha1(said.taken(row.flag("sha1"), false))
}

fn tell_named(said: &mut Said, row: &Row<'_>, sid: &SignerId<'_>, attributes: &Attributes<'_>) {
    let octets = given!(said, row.octets("of"));
    match Certificate::read(octets.as_slice()) {
        Ok(certificate) => tell_meant(said, sid, attributes, &certificate),
        Err(_) => said.refuse(Bad::Text("no certificate")),
    }
}

fn tell_meant(
    said: &mut Said,
    sid: &SignerId<'_>,
    attributes: &Attributes<'_>,
    certificate: &Certificate<'_>,
) {
    said.shown(&matches(sid, certificate));
    said.shown(&names_if_any(attributes, certificate, 0, &mut EachTime));
    said.shown(&must_name(attributes, certificate, 0, &mut EachTime));
}

/// Whether a response answers a request, or the first rule that fails.
pub fn answers_request(said: &mut Said, row: &Row<'_>) {
    let octets = given!(said, row.octets("request"));
    match Request::read(octets.as_slice()) {
        Ok(request) => tell_answering(said, row, &request),
        Err(_) => said.refuse(Bad::Text("no request")),
    }
}

fn tell_answering(said: &mut Said, row: &Row<'_>, request: &Request<'_>) {
    let octets = given!(said, row.octets("response"));
    match Response::read(octets.as_slice()) {
        Ok(response) => ended(said, "answers", answers(request, &response)),
        Err(_) => said.refuse(Bad::Text("no response")),
    }
}

/// The token of a response that was granted, or the rule that keeps it from being one.
pub fn granted(said: &mut Said, row: &Row<'_>) {
    let octets = given!(said, row.octets("of"));
    match Response::read(octets.as_slice()) {
        Ok(response) => tell_granted(said, &response),
        Err(_) => said.refuse(Bad::Text("no response")),
    }
}

fn tell_granted(said: &mut Said, response: &Response<'_>) {
    match granted_token(response) {
        Ok(token) => said.octets(token),
        Err(rule) => said.shown(&rule),
    }
}

/// Whether a signer of one file and a signer of another one have the same content and the same signed attributes, or
/// the first rule that fails.
pub fn compared(said: &mut Said, row: &Row<'_>) {
    let first = given!(said, row.octets("first"));
    let second = given!(said, row.octets("second"));
    let by = said.taken(row.number("by"), 0) as u64;
    let and = said.taken(row.number("and"), 0) as u64;
    match compare(&first, by, &second, and) {
        Ok(answer) => said.word(word_of(answer)),
        Err(fault) => said.shown(&fault),
    }
}

fn word_of(answer: Compared) -> &'static str {
    match answer {
        Compared::Different => "Different",
        Compared::Same => "Same",
        Compared::Collision => "Collision",
    }
}

/// Whether the file that is made of an algorithm and signed attributes is this one.
pub fn made(said: &mut Said, row: &Row<'_>) {
    let made = given!(said, file_in(row));
    let octets = given!(said, row.octets("as"));
    said.shown(&(made.as_slice() == octets.as_slice()));
}

/// How many signers of a file fit its content, or its first rule that fails; and how many octets the content that was
/// handed in still gives, or how often it failed.
pub fn file(said: &mut Said, row: &Row<'_>) {
    let content = given!(said, row.octets_or("content", "-"));
    let content = content.as_slice();
    match row.value("source").unwrap_or("slice") {
        "slice" => judged(said, row, slice_in(row, content)),
        "pieces" => judged(said, row, Some(Pieces::new(content, 1))),
        "reader" => judged(said, row, Some(FromRead::new(content))),
        "failing" => failing(said, row, Failing::new(Slice::new(content))),
        _ => said.refuse(Bad::Text("a source that is not known")),
    }
}

/// The content, if the row has one.
fn slice_in<'a>(row: &Row<'_>, content: &'a [u8]) -> Option<Slice<'a>> {
    match row.value("content") {
        Some(_) => Some(Slice::new(content)),
        None => None,
    }
}

/// Says whether the file of a row fits this content.
fn tell_fit<S: Source>(said: &mut Said, row: &Row<'_>, content: &mut Option<S>) {
    let file = given!(said, row.octets("of"));
    let policy = policy_in(said, row);
    tell_count(said, fits(file.as_slice(), content, &policy));
}

fn tell_count(said: &mut Said, fitting: Result<usize, Refused>) {
    match fitting {
        Ok(count) => {
            said.shown(&count);
            said.word("fit");
        }
        Err(refused) => said.shown(&refused),
    }
}

/// What is said with a content, and how many octets it still gives at once, at most 100.
fn judged<S: Source + Drop>(said: &mut Said, row: &Row<'_>, mut content: Option<S>) {
    tell_fit(said, row, &mut content);
    let left = said.taken(left_of(content), 0);
    said.mark(",");
    said.shown(&left);
    said.word("left");
}

fn left_of<S: Source + Drop>(content: Option<S>) -> Result<usize, Bad> {
    match content {
        Some(mut content) => needed(content.fill(&mut [0u8; 100]), "a source that failed"),
        None => Ok(0),
    }
}

/// What is said with a content whose source fails at its end, and how often it failed.
fn failing(said: &mut Said, row: &Row<'_>, source: Failing<Slice<'_>>) {
    let mut source = Some(source);
    tell_fit(said, row, &mut source);
    match source {
        Some(source) => tell_failures(said, source.failed),
        None => said.refuse(Bad::Text("no source")),
    }
}

fn tell_failures(said: &mut Said, failed: u64) {
    said.mark(",");
    said.shown(&failed);
    said.word("failures");
}
