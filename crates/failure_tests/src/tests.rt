//! What the commands do if an output fails, and of values that the words of a command line can't have.
mod asserts;
mod below;
mod disk;
mod memory;
mod output;
mod records;

use asserts::must_hold;
use check_fit::{Refused, TokenRule};
use cli_commands::{print, run};
use cli_failures::Failure;
use cli_tasks::{QuestionsWords, RequestWords, Stamped, Task, TextTask};
use cli_words::{Meaning, meaning_of};
use cms_types::CmsFault;
use der_core::{Fault, Kind};
use disk::{is_free, put, put_digits, remove};
use output::{FAILING, Output, must_be_given, with_room};
use std::alloc::Global;
use std::io::{self, ErrorKind};

/// The digest of `abc` by SHA-256.
const DIGEST: &str = "ba7816bf8f01cfea414140de5dae2223b00361a396177a9cb410ff61f20015ad";

/// A request for it that asks for certificates.
const REQUEST: &str = "\
30390201013031300d060960864801650304020105000420ba7816bf8f01cfea414140de5dae2223b00361a396177a9cb410ff61f20015ad\
0101ff";

/// A SignedData of the content `abc` with one signer and two signed attributes.
const SIGNED: &str = "\
3081b706092a864886f70d010702a081a93081a6020101310d300b0609608648016503040201301206092a864886f70d010701a005040361626331\
7e307c0201013011300c310a300806035504030c0141020105300b0609608648016503040201a04b301806092a864886f70d010903310b06092a86\
4886f70d010701302f06092a864886f70d01090431220420ba7816bf8f01cfea414140de5dae2223b00361a396177a9cb410ff61f20015ad300506\
038837010403616263";

/// A trust list with his certificate.
const TRUST: &str = "\
cmsproof trust 1\n\
signer 3060305302010530050603883701300c310a300806035504030c0141301e170d3234303130313030303030305a170d323430313\
3313233353935395a300c310a300806035504030c0141300b30050603883702030200013005060388370103020000\n";

/// How a task ends. It is a function of its own, because the contract of `run` makes each step after its call slow to
/// check.
fn code_of(rt: &HostRuntime, task: Task<'_>, out: &mut Output<'_>, err: &mut Output<'_>) -> u8 {
    run(rt, task, out, err).code()
}

/// Whether a task ends so on an output with so much room, if this is due on the other one.
fn ends(rt: &HostRuntime, task: Task<'_>, room: Option<usize>, due: &str, code: u8) -> bool {
    let mut out = with_room(room);
    let mut err = must_be_given(due);
    let ended = code_of(rt, task, &mut out, &mut err);
    ended == code && err.is_all()
}

/// Whether the output with this room fails, and that is reported.
fn fails_with_room(rt: &HostRuntime, task: Task<'_>, room: Option<usize>) -> bool {
    ends(rt, task, room, "failed write -\n", 4)
}

/// Whether showing the request in this file fails so.
fn show_fails(rt: &HostRuntime, path: &str, room: Option<usize>) -> bool {
    fails_with_room(rt, Task::Text(TextTask::ShowRequest(path)), room)
}

#[test]
fn reports_that_the_output_failed(rt: HostRuntime) {
    let are_put = put_digits(&rt, "good.tsq", REQUEST) && put_digits(&rt, "bad.tsq", "00");
    must_hold(&rt, are_put, "files");
    for (room, what) in &FAILING {
        must_hold(&rt, show_fails(&rt, "good.tsq", *room), what);
        must_hold(&rt, show_fails(&rt, "bad.tsq", *room), what);
    }
    must_hold(&rt, remove(&rt, &["good.tsq", "bad.tsq"]), "removed");
}

/// The questions about a file.
const QUESTIONS: Task<'static> = Task::Questions(QuestionsWords {
    trust: "whom.txt",
    buffer: None,
    file: "output.p7s",
});

/// Outputs that take less than the 250 octets of the questions.
static CUTTING: [(Option<usize>, &str); 5] = [
    (Some(0), "no room"),
    (Some(1), "room for one octet"),
    (Some(21), "room for the first line"),
    (Some(249), "room for all but one octet"),
    (None, "no flush"),
];

/// An output that takes 249 of the 250 octets of the questions fails, and one that takes all does not.
#[test]
fn reports_that_questions_were_cut(rt: HostRuntime) {
    let are_put = put(&rt, "whom.txt", TRUST.as_bytes()) && put_digits(&rt, "output.p7s", SIGNED);
    must_hold(&rt, are_put, "files");
    for (room, what) in &CUTTING {
        must_hold(&rt, fails_with_room(&rt, QUESTIONS, *room), what);
    }
    must_hold(&rt, ends(&rt, QUESTIONS, Some(250), "", 0), "room for all");
    must_hold(&rt, remove(&rt, &["whom.txt", "output.p7s"]), "removed");
}

/// The text of help.
fn help(alloc: Global) -> Option<String> {
    match meaning_of(alloc, &["cmsproof", "--help"]) {
        Ok(Meaning::Help(text)) => Some(text),
        _ => None,
    }
}

/// How printing a text ends.
fn code_of_print(text: &str, out: &mut Output<'_>, err: &mut Output<'_>) -> u8 {
    print(text, out, err).code()
}

/// Whether printing a text on an output with this room fails, and that is reported.
fn print_fails(text: &str, room: Option<usize>) -> bool {
    let mut out = with_room(room);
    let mut err = must_be_given("failed write -\n");
    let ended = code_of_print(text, &mut out, &mut err);
    ended == 4 && err.is_all()
}

/// Whether printing help fails so.
fn help_fails(alloc: Global, room: Option<usize>) -> bool {
    match help(alloc) {
        Some(text) => print_fails(text.as_str(), room),
        None => false,
    }
}

#[test]
fn reports_that_help_was_cut(rt: HostRuntime) {
    for (room, what) in &FAILING {
        must_hold(&rt, help_fails(rt.alloc(), *room), what);
    }
}

/// A failure of the standard error can't be reported.
#[test]
fn ends_if_the_report_fails(rt: HostRuntime) {
    let mut out = must_be_given("");
    let mut err = with_room(Some(0));
    let task = Task::Text(TextTask::ShowRequest("nowhere"));
    let code = code_of(&rt, task, &mut out, &mut err);
    must_hold(&rt, code == 4 && out.is_all(), "nothing");
}

/// The status of a failure that is reported.
fn code_of_report(failure: &Failure<'_>, out: &mut Output<'_>, err: &mut Output<'_>) -> u8 {
    failure.report(out, err).code()
}

/// Whether this is on the outputs if a failure is reported, with this status.
fn is_reported(failure: &Failure<'_>, out: &str, err: &str, code: u8) -> bool {
    let mut out = must_be_given(out);
    let mut err = must_be_given(err);
    let ended = code_of_report(failure, &mut out, &mut err);
    ended == code && out.is_all() && err.is_all()
}

/// Whether a failure to get the words is reported with this line and this status.
fn is_reported_of_words(kind: ErrorKind, line: &str, code: u8) -> bool {
    let failure = Failure::of_words(&io::Error::from(kind));
    is_reported(&failure, "", line, code)
}

/// Whether the text of the parser is what is reported.
fn is_text_reported(alloc: Global, text: &str) -> bool {
    match String::from_str(alloc, text) {
        Ok(words) => is_reported(&Failure::Words(words), "", text, 3),
        Err(_) => false,
    }
}

#[test]
fn reports_faults_of_the_words(rt: HostRuntime) {
    let not_utf8 = "error: a word of the command line isn't UTF-8\n";
    let is_no_text = is_reported_of_words(ErrorKind::InvalidData, not_utf8, 3);
    must_hold(&rt, is_no_text, "no text");
    let is_no_memory = is_reported_of_words(ErrorKind::OutOfMemory, "failed memory\n", 4);
    must_hold(&rt, is_no_memory, "no memory");
    must_hold(&rt, is_text_reported(rt.alloc(), "error: no\n"), "refused");
}

/// The longest line that goes to the standard output, in which each number has 20 digits: there is room for it.
#[test]
fn reports_the_longest_refusal(rt: HostRuntime) {
    let failure = Failure::Refused(Refused::Token {
        signer: usize::MAX,
        token: usize::MAX,
        rule: TokenRule::Malformed(CmsFault::Malformed(Fault {
            kind: Kind::LengthForm,
            at: u64::MAX,
        })),
    });
    let line = "refused signer 18446744073709551615 token 18446744073709551615 \
K1 M4 LengthForm at 18446744073709551615\n";
    must_hold(&rt, is_reported(&failure, line, "", 1), "longest");
}

/// Whether a request for this by md5 is refused.
fn is_refused<'a>(rt: &HostRuntime, stamped: Stamped<'a>, policy: Option<&'a str>) -> bool {
    let task = Task::Text(TextTask::Request(RequestWords {
        alg: "md5",
        stamped,
        policy,
        nonce: None,
        cert: false,
        out: "none.tsq",
    }));
    ends(rt, task, Some(0), "usage alg\n", 3)
}

/// An algorithm that is not known, which the command line refuses itself. It is judged before all other values.
#[test]
fn refuses_an_algorithm(rt: HostRuntime) {
    must_hold(
        &rt,
        is_refused(&rt, Stamped::Digest(DIGEST), None),
        "of a digest",
    );
    let of_none = Stamped::Signature("empty.p7s", 1);
    must_hold(
        &rt,
        is_refused(&rt, of_none, Some("1.40")),
        "of a signature",
    );
    must_hold(&rt, is_free(&rt, "none.tsq"), "no file");
}
