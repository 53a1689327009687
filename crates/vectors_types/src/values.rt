//! Values of the types of the profile: all that is read, whether it is written as it was, and how octets are refused.
use crate::lists::{Listed, place, tell_list, tell_maybe};
use cert_types::Certificate;
use cms_types::{CmsFault, SignedData, Signer, SignerId, Signers};
use der_core::{Bits, Fault, Int, Kind, Oid, ReadFault};
use der_time::{generalized_text, read_generalized, read_utc};
use devices::FromWrite;
use digests::{Alg, Digest};
use ess_types::{CertId, HashAlgorithm, SigningCert};
use std::alloc::Global;
use tsp_types::{Accuracy, MakeFault, Request, Response, TstInfo};
use vectors::{Bad, Row, Said};

/// `signed_data of`: all but what the signers say. `versions of`: those that are stated and those that the standard
/// asks for.
/// `signer of number known`: all that the signer of this number, counted from 0, says.
pub fn signed_data(said: &mut Said, row: &Row<'_>, octets: &[u8]) {
    let file = read!(said, SignedData::read(octets));
    match row.kind {
        "versions" => tell_versions(said, &file),
        "signer" => tell_signer_of(said, &file, row),
        _ => tell_file(said, &file, octets),
    }
}

fn tell_file(said: &mut Said, file: &SignedData<'_>, octets: &[u8]) {
    said.value("octets", &octets.len());
    tell_versions(said, file);
    tell_list(said, "digests", file.digest_algorithms());
    said.part("type", file.content_type().bytes());
    said.maybe("content", file.content());
    tell_maybe(said, "certificates", file.certificates());
    tell_maybe(said, "crls", file.crls());
    let mut out = FromWrite::new(Vec::new(said.alloc));
    said.written(file.write(&mut out), out.into_inner(), octets);
}

fn tell_versions(said: &mut Said, file: &SignedData<'_>) {
    said.value("version", &file.version());
    said.shown(&file.standard_version());
    tell_list(said, "signers", file.signers());
}

fn tell_signer_of(said: &mut Said, file: &SignedData<'_>, row: &Row<'_>) {
    let number = said.taken(row.number("number"), 0);
    match file.signers().iter().nth(number) {
        Some(signer) => tell_signer(said, &signer),
        None => said.refuse(Bad::Text("no such signer")),
    }
}

fn tell_signer(said: &mut Said, signer: &Signer<'_>) {
    said.word("version");
    Signers::tell(said, signer);
    tell_signer_id(said, signer.sid());
    said.algorithm("digest", signer.digest_algorithm());
    tell_maybe(said, "signed", signer.attributes());
    said.maybe("tail", signer.tail());
    said.algorithm("signature", signer.signature_algorithm());
    said.octets(signer.signature());
    tell_maybe(said, "unsigned", signer.unsigned_attributes());
    tell_list(said, "tokens", &signer.tokens());
}

fn tell_signer_id(said: &mut Said, id: &SignerId<'_>) {
    match id {
        SignerId::IssuerAndSerial(issuer, serial) => {
            said.part("issuer", issuer);
            said.part("serial", serial.bytes());
        }
        SignerId::KeyId(id) => said.part("key", id),
    }
}

/// `certificate of`: all that is read of it. `extensions_say of`: whether it is for time-stamping alone, and its key
/// identifier.
pub fn certificate(said: &mut Said, row: &Row<'_>, octets: &[u8]) {
    let certificate = read!(said, Certificate::read(octets));
    match row.kind {
        "extensions_say" => tell_purpose(said, &certificate),
        _ => tell_certificate(said, &certificate, octets),
    }
}

fn tell_purpose(said: &mut Said, certificate: &Certificate<'_>) {
    said.value("stamping alone", &certificate.stamping_only());
    said.maybe("key", certificate.key_id());
}

fn tell_certificate(said: &mut Said, certificate: &Certificate<'_>, octets: &[u8]) {
    said.word(word_if(certificate.whole() == octets, "whole same"));
    said.part("serial", certificate.serial().bytes());
    said.part("issuer", certificate.issuer());
    tell_period(said, certificate);
    said.part("subject", certificate.subject());
    said.part("key", certificate.key());
    tell_maybe(said, "extensions", certificate.extensions());
}

fn tell_period(said: &mut Said, certificate: &Certificate<'_>) {
    said.value("from", &certificate.from().nanos());
    said.value("until", &certificate.until().nanos());
}

/// This word if something is so, otherwise none.
fn word_if(is_so: bool, word: &str) -> &str {
    if is_so { word } else { "" }
}

/// `signing_certificate version of`: the first identifier of one of version 1 or 2.
pub fn signing_certificate(said: &mut Said, row: &Row<'_>, octets: &[u8]) {
    let certificate = read!(
        said,
        match row.value("version") {
            Some("1") => SigningCert::read_v1(octets),
            Some("2") => SigningCert::read_v2(octets),
            _ => return said.refuse(Bad::Text("a version that is neither 1 nor 2")),
        }
    );
    match certificate.first() {
        Some(id) => tell_id(said, &id),
        None => said.word("none"),
    }
    let mut out = FromWrite::new(Vec::new(said.alloc));
    said.written(certificate.write(&mut out), out.into_inner(), octets);
}

fn tell_id(said: &mut Said, id: &CertId<'_>) {
    match id.hash_algorithm() {
        HashAlgorithm::Absent => said.word("algorithm absent"),
        HashAlgorithm::SpelledDefault => said.word("algorithm default"),
        HashAlgorithm::Other(algorithm) => said.part("algorithm", algorithm.whole()),
    }
    said.part("hash", id.hash());
    match id.issuer_serial() {
        Some(issuer_serial) => {
            tell_list(said, "names", issuer_serial.names());
            said.part("serial", issuer_serial.serial().bytes());
        }
        None => said.maybe("issuer", None),
    }
}

/// `request of`.
pub fn request(said: &mut Said, octets: &[u8]) {
    let request = read!(said, Request::read(octets));
    let algorithm = request.algorithm();
    said.value("octets", &octets.len());
    said.algorithm("algorithm", algorithm);
    said.word(match Alg::of(algorithm.oid(), algorithm.parameters()) {
        Some(alg) => alg.name(),
        None => "unknown",
    });
    said.part("imprint", request.imprint());
    said.maybe("policy", request.policy().map(Oid::bytes));
    said.maybe("nonce", request.nonce().map(Int::bytes));
    said.flag("certificate", request.cert_req());
    tell_maybe(said, "extensions", request.extensions());
    let mut out = FromWrite::new(Vec::new(said.alloc));
    said.written(request.write(&mut out), out.into_inner(), octets);
}

/// A request of `alg digest policy nonce certificate`. `make`: its octets. `make_room`: for how many there is room.
/// `made`: what is read of it. A policy or nonce that is none counts as absent.
pub fn make(said: &mut Said, row: &Row<'_>) {
    let octets = said.given(row, "digest");
    let Some(digest) = digest_by(row, octets.as_slice()) else {
        return said.refuse(Bad::Text("no digest"));
    };
    let policy = said.given_if_any(row, "policy");
    let policy = Oid::read(policy.as_slice(), 0).ok();
    let nonce = said.given_if_any(row, "nonce");
    let nonce = Int::read(nonce.as_slice(), 0).ok();
    let certificate = said.taken(row.flag("certificate"), false);
    let made = Request::make(said.alloc, &digest, policy, nonce, certificate);
    let octets = read!(said, made);
    match row.kind {
        "make" => said.octets(octets.as_slice()),
        "make_room" => said.shown(&octets.capacity()),
        _ => request(said, octets.as_slice()),
    }
}

/// The digest by the algorithm of the row, if octets are one.
fn digest_by(row: &Row<'_>, octets: &[u8]) -> Option<Digest> {
    Digest::given(Alg::named(row.value("alg")?)?, octets)
}

/// `stamp of`.
pub fn stamp(said: &mut Said, octets: &[u8]) {
    let stamp = read!(said, TstInfo::read(octets));
    said.part("policy", stamp.policy().bytes());
    said.algorithm("algorithm", stamp.algorithm());
    said.part("digest", stamp.imprint());
    said.part("serial", stamp.serial().bytes());
    tell_time(said, &stamp);
    tell_accuracy(said, stamp.accuracy());
    said.flag("ordering", stamp.ordering());
    said.maybe("nonce", stamp.nonce().map(Int::bytes));
    said.maybe("tsa", stamp.tsa());
    tell_maybe(said, "extensions", stamp.extensions());
    let mut out = FromWrite::new(Vec::new(said.alloc));
    said.written(stamp.write(&mut out), out.into_inner(), octets);
}

// A function of its own, as are some others here, because steps after a call with its contract are slow to check.
fn tell_time(said: &mut Said, stamp: &TstInfo<'_>) {
    said.value("nanos", &stamp.time().nanos());
}

fn tell_accuracy(said: &mut Said, accuracy: Option<&Accuracy<'_>>) {
    match accuracy {
        Some(accuracy) => {
            said.maybe("seconds", accuracy.seconds().map(Int::bytes));
            said.maybe("millis", accuracy.millis().map(Int::bytes));
            said.maybe("micros", accuracy.micros().map(Int::bytes));
        }
        None => said.maybe("accuracy", None),
    }
}

/// `response of known`.
pub fn response(said: &mut Said, octets: &[u8]) {
    let response = read!(said, Response::read(octets));
    said.part("status", response.status().bytes());
    tell_maybe(said, "texts", response.texts());
    said.maybe("fail", response.fail().map(Bits::bytes));
    for n in 0..64usize {
        if response.fails(n) {
            said.value("bit", &n);
        }
    }
    said.maybe("token", response.token());
    let mut out = FromWrite::new(Vec::new(said.alloc));
    said.written(response.write(&mut out), out.into_inner(), octets);
}

/// `utc of at`: the contents of a UTCTime. `generalized of at`: those of a GeneralizedTime, and the text of the moment.
pub fn time(said: &mut Said, row: &Row<'_>, octets: &[u8]) {
    let at = place(said, row) as u64;
    if row.kind == "utc" {
        return said.shown(&read!(said, read_utc(octets, at)).nanos());
    }
    let moment = read!(said, read_generalized(octets, at));
    said.shown(&moment.nanos());
    let text = generalized_text(moment);
    if text.bytes() == octets && text.as_str().as_bytes() == octets {
        said.word("same text");
    } else {
        said.word(text.as_str());
    }
}

/// `moments long short`: whether one comes before the other or itself, is itself or the other, and the nanoseconds
/// between them.
pub fn moments(said: &mut Said, row: &Row<'_>) {
    let long = said.given(row, "long");
    let short = said.given(row, "short");
    let first = read!(said, read_generalized(long.as_slice(), 0));
    let second = read!(said, read_utc(short.as_slice(), 0));
    let same = first;
    said.value("before", &(first < second));
    said.shown(&(second < first));
    said.shown(&(first < same));
    said.value("same", &(first == same));
    said.shown(&(first == second));
    said.value("between", &second.nanos().wrapping_sub(first.nanos()));
}

/// How the call that reads such octets refuses them.
fn refusal(said: &mut Said, kind: &str, octets: &[u8]) -> Option<ReadFault> {
    match kind {
        "signed_data" => match SignedData::read(octets).err() {
            Some(CmsFault::Malformed(fault)) => Some(ReadFault::Malformed(fault)),
            fault => fault.map(|_| ReadFault::OutOfMemory),
        },
        "certificate" => Certificate::read(octets).err(),
        "stamp" => TstInfo::read(octets).err(),
        "request" => Request::read(octets).err(),
        "response" => Response::read(octets).err(),
        "signing_certificate_1" => SigningCert::read_v1(octets).err(),
        "signing_certificate_2" => SigningCert::read_v2(octets).err(),
        _ => {
            said.refuse(Bad::Text("octets of a kind that is not known"));
            None
        }
    }
}

/// `cuts as of header`: whether octets are accepted; how many beginnings are refused (`End` within the identifier and
/// the length, the first `header` octets, elsewhere `Overrun` at 0), or the first that isn't; and the refusal with an
/// octet 0 after them.
pub fn cuts(said: &mut Said, row: &Row<'_>, octets: &[u8]) {
    let kind = row.value("as").unwrap_or("");
    let header = said.taken(row.number("header"), 0);
    let accepted = refusal(said, kind, octets).is_none();
    said.word(word_if(accepted, "accepted"));
    for n in 0..octets.len() {
        let (front, _) = octets.split_at(n);
        let wanted = ReadFault::Malformed(cut_fault(n, header));
        if refusal(said, kind, front) != Some(wanted) {
            return said.value("another at", &n);
        }
    }
    said.value("refused", &octets.len());
    let longer = said.taken(longer(said.alloc, octets), Vec::new(said.alloc));
    match refusal(said, kind, longer.as_slice()) {
        Some(fault) => said.shown(&fault),
        None => said.word("accepted"),
    }
}

/// The fault of the first octets of an element, so many, whose header has so many.
fn cut_fault(count: usize, header: usize) -> Fault {
    if count < header {
        Fault::new(Kind::End, count as u64)
    } else {
        Fault::new(Kind::Overrun, 0)
    }
}

/// The octets, and an octet 0 after them.
fn longer(alloc: Global, octets: &[u8]) -> Result<Vec<u8>, Bad> {
    let mut longer = octets.to_vec(alloc)?;
    longer.push(0)?;
    Ok(longer)
}

/// `fault_text of`: what a fault prints that no octets have.
pub fn fault_text(said: &mut Said, row: &Row<'_>) {
    match row.value("of") {
        Some("no_memory_to_read") => said.shown(&CmsFault::OutOfMemory),
        Some("no_memory_to_make") => said.shown(&MakeFault::OutOfMemory),
        Some("too_long_to_make") => said.shown(&MakeFault::TooLong),
        _ => said.refuse(Bad::Text("a fault that is not known")),
    }
}
