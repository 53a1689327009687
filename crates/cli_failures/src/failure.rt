ghost use Rattle.std.specs.Prelude.{◌≡◌};
ghost use Rattle.cli_failures.specs.Failures.{refused_status, sums_status, unasked_status, uncompared_status};
ghost use Rattle.cli_failures.specs.Failures.{unshown_status};

use crate::output::put;
use crate::status::Status;
use arrayvec::ArrayVec;
use check_evidence::{EvidenceRefused, RecordRule};
use check_fit::{FileRule, Refused, TokenRule};
use check_questions::QuestionsFault;
use cms_compare::{CompareFault, CompareRule};
use cms_types::CmsFault;
use der_core::{Fault, ReadFault};
use evidence_making::{LeafFault, MakeFault as MakeRecordFault, StampFault};
use evidence_sums::{SumsFault, SumsRule};
use list_answers::{AnswersFault, AnswersRule};
use std::alloc::{AllocError, AllocFailed};
use std::fmt;
use std::io::{self, ErrorKind, Write};
use thiserror::Error;
use trust_lists::{TrustFault, TrustRule};
use tsp_requester::{AttachFault, MatchFault};

/// The standard output, in the place of a path.
pub const STANDARD_OUTPUT: &str = "-";

/// The room for a line that goes to the standard output. None of these has a path. By `failure_text` and the texts that
/// it names, the longest is `refused record chain N stamp N W4 K1 M4 LengthForm at N`: 113 octets, if each number has
/// 20 digits.
const ROOM: usize = 256;

/// Which message of the time-stamp protocol a file holds, if a command reads both.
#[derive(Clone, Copy, Debug)]
pub enum Message {
    /// The request to the authority.
    Request,
    /// The response of the authority.
    Response,
}

impl fmt::Display for Message {
    ghost use Rattle.std.specs.Prelude.{Some};
    ghost use Rattle.cli_failures.specs.Failures.{message_text};

    ghost output = { λ m. Some (message_text m) };

    fn fmt<W: fmt::Write>(&self, f: &mut fmt::Formatter<W>) -> fmt::Result {
        f.write_str(match self {
            Message::Request => "request",
            Message::Response => "response",
        })
    }
}

/// Why the evidence record is refused that is handed in beside another file. `Display` prints the line that says so,
/// which names the record, without its end.
#[derive(Clone, Copy, Debug)]
pub struct OfRecord {
    /// The rule of the record, or the device that failed.
    pub refused: EvidenceRefused,
}

impl fmt::Display for OfRecord {
    ghost use Rattle.std.specs.Prelude.{Some};
    ghost use Rattle.cli_failures.specs.Failures.{record_refused_text};

    ghost output = { λ r. Some (record_refused_text r.refused) };

    fn fmt<W: fmt::Write>(&self, f: &mut fmt::Formatter<W>) -> fmt::Result {
        match self.refused {
            EvidenceRefused::Record(RecordRule::Malformed(fault)) => {
                write!(f, "malformed record {fault}")
            }
            EvidenceRefused::Record(rule) => write!(f, "refused record {rule}"),
            EvidenceRefused::Stamp { chain, stamp, rule } => {
                write!(f, "refused record chain {chain} stamp {stamp} {rule}")
            }
            EvidenceRefused::Device(fault) => write!(f, "failed {fault}"),
        }
    }
}

/// Why a command did not do what was requested. `Display` prints the line that says so.
#[derive(Debug, Drop, Error)]
pub enum Failure<'a> {
    /// The words ask for no task: the text of their parser says why.
    Words(String),
    /// A word of the process isn't text.
    NotText,
    /// The value of this option isn't as it must be.
    Usage(&'a str),
    /// The file that was read is a ContentInfo of another type than id-signedData.
    NotSignedData,
    /// The file that was read isn't of its form.
    Malformed(Fault),
    /// The file that should hold this message isn't of its form.
    MalformedMessage(Message, Fault),
    /// The response doesn't answer the request, by this rule.
    Unmatched(MatchFault),
    /// The file that was checked fails a rule, or a device failed.
    Refused(Refused),
    /// The token doesn't pass for what it should stamp, by this rule.
    Unstamped(TokenRule),
    /// The evidence record does not show that the data existed, by this rule, or a device failed.
    Unshown(EvidenceRefused),
    /// The evidence record of a signed file does not show that this existed, by this rule, or a device failed.
    Unevidenced(OfRecord),
    /// The questions of the file were not printed.
    Unasked(QuestionsFault),
    /// Other digest algorithms are named, or other octets are signed.
    Different,
    /// The same octets are signed, and the contents differ.
    Collision,
    /// The two files were not compared.
    Uncompared(CompareFault),
    /// No token was attached, or the signature that a stamp is asked of can't be had.
    Unattached(AttachFault),
    /// The file that should hold a trust list isn't one.
    Trust(TrustFault),
    /// The file that should hold an answers list isn't one.
    Answers(AnswersFault),
    /// The file that should hold sums isn't one, or a name in it is refused.
    Sums(SumsFault),
    /// The token can't be the stamp of the root of a tree, by this rule.
    Unstamping(StampFault),
    /// No evidence record was made.
    Unmade(MakeRecordFault),
    /// There is nothing on which the renewal of an evidence record stands.
    Unrenewable(LeafFault),
    /// U4: the last chains of evidence records are by different algorithms.
    Mixed,
    /// The file of this path can't be opened.
    Open(&'a str),
    /// The file of this path can't be read.
    Read(&'a str),
    /// The file of this path is too long to be read whole.
    Size(&'a str),
    /// The file of this path can't be created or written.
    Write(&'a str),
    /// The file of this path, as it is shown, below a folder, can't be opened.
    Unopened(String),
    /// The file of this path, as it is shown, below a folder, can't be read.
    Unread(String),
    /// The file of this path, as it is shown, below a folder, is too long to be read whole.
    Oversized(String),
    /// The file of this path, as it is shown, can't be written below a folder.
    Unput(String),
    /// The file of this path, as it is shown, is there, holds something else than would be written, and is not
    /// replaced.
    Taken(String),
    /// Memory ran out.
    Memory,
}

impl fmt::Display for Failure<'_> {
    ghost use Rattle.std.specs.Prelude.{Some};
    ghost use Rattle.cli_failures.specs.Failures.{failure_text};

    ghost output = { λ f. Some (failure_text f) };

    fn fmt<W: fmt::Write>(&self, f: &mut fmt::Formatter<W>) -> fmt::Result {
        match self {
            Failure::Words(text) => f.write_str(text.as_str()),
            Failure::NotText => f.write_str("error: a word of the command line isn't UTF-8\n"),
            Failure::Usage(option) => write!(f, "usage {option}\n"),
            Failure::NotSignedData => f.write_str("refused NotSignedData\n"),
            Failure::Malformed(fault) => write!(f, "malformed {fault}\n"),
            Failure::MalformedMessage(message, fault) => write!(f, "malformed {message} {fault}\n"),
            Failure::Unmatched(fault) => write!(f, "refused {fault}\n"),
            Failure::Refused(refused) => write!(f, "{refused}\n"),
            Failure::Unstamped(rule) => write!(f, "refused {rule}\n"),
            Failure::Unshown(refused) => write!(f, "{refused}\n"),
            Failure::Unevidenced(refused) => write!(f, "{refused}\n"),
            Failure::Unasked(fault) => write!(f, "{fault}\n"),
            Failure::Different => f.write_str("different\n"),
            Failure::Collision => f.write_str("collision\n"),
            Failure::Uncompared(fault) => write!(f, "{fault}\n"),
            Failure::Unattached(fault) => write!(f, "refused {fault}\n"),
            Failure::Trust(fault) => write!(f, "trust {fault}\n"),
            Failure::Answers(fault) => write!(f, "answers {fault}\n"),
            Failure::Sums(fault) => write!(f, "{fault}\n"),
            Failure::Unstamping(fault) => write!(f, "refused {fault}\n"),
            Failure::Unmade(fault) => write!(f, "refused {fault}\n"),
            Failure::Unrenewable(fault) => write!(f, "refused {fault}\n"),
            Failure::Mixed => f.write_str("refused U4 Mixed\n"),
            Failure::Open(path) => write!(f, "failed open {path}\n"),
            Failure::Read(path) => write!(f, "failed read {path}\n"),
            Failure::Size(path) => write!(f, "failed size {path}\n"),
            Failure::Write(path) => write!(f, "failed write {path}\n"),
            Failure::Unopened(path) => write!(f, "failed open {path}\n"),
            Failure::Unread(path) => write!(f, "failed read {path}\n"),
            Failure::Oversized(path) => write!(f, "failed size {path}\n"),
            Failure::Unput(path) => write!(f, "failed write {path}\n"),
            Failure::Taken(path) => write!(f, "failed replace {path}\n"),
            Failure::Memory => f.write_str("failed memory\n"),
        }
    }
}

impl From<AllocError> for Failure<'_> {
    ghost use Rattle.cli_failures.specs.declared.failure.Failure.TheVariants.{Memory};

    // A lack of memory becomes `Memory`.
    ghost from_gives = { λ _ f. f ≡ Memory };

    fn from(_error: AllocError) -> Self {
        Failure::Memory
    }
}

impl<T: Drop> From<AllocFailed<T>> for Failure<'_> {
    ghost use Rattle.cli_failures.specs.declared.failure.Failure.TheVariants.{Memory};

    // A lack of memory becomes `Memory`.
    ghost from_gives = { λ _ f. f ≡ Memory };

    fn from(_error: AllocFailed<T>) -> Self {
        Failure::Memory
    }
}

impl From<ReadFault> for Failure<'_> {
    ghost use Rattle.std.specs.Prelude.{◌≡◌};
    ghost use Rattle.cli_failures.specs.Failures.{failure_of};

    // Each fault becomes the failure that the definition gives.
    ghost from_gives = { λ fault f. f ≡ failure_of fault };

    fn from(fault: ReadFault) -> Self {
        match fault {
            ReadFault::Malformed(fault) => Failure::Malformed(fault),
            ReadFault::OutOfMemory => Failure::Memory,
        }
    }
}

impl From<CmsFault> for Failure<'_> {
    ghost use Rattle.std.specs.Prelude.{◌≡◌};
    ghost use Rattle.cli_failures.specs.Failures.{failure_of_cms};

    // Each fault becomes the failure that the definition gives.
    ghost from_gives = { λ fault f. f ≡ failure_of_cms fault };

    fn from(fault: CmsFault) -> Self {
        match fault {
            CmsFault::Malformed(fault) => Failure::Malformed(fault),
            CmsFault::NotSignedData => Failure::NotSignedData,
            CmsFault::OutOfMemory => Failure::Memory,
        }
    }
}

impl From<TrustFault> for Failure<'_> {
    ghost use Rattle.std.specs.Prelude.{◌≡◌};
    ghost use Rattle.cli_failures.specs.Failures.{failure_of_trust};

    // Each fault becomes the failure that the definition gives.
    ghost from_gives = { λ fault f. f ≡ failure_of_trust fault };

    fn from(fault: TrustFault) -> Self {
        match fault.rule {
            TrustRule::OutOfMemory => Failure::Memory,
            _ => Failure::Trust(fault),
        }
    }
}

impl From<AnswersFault> for Failure<'_> {
    ghost use Rattle.std.specs.Prelude.{◌≡◌};
    ghost use Rattle.cli_failures.specs.Failures.{failure_of_answers};

    // Each fault becomes the failure that the definition gives.
    ghost from_gives = { λ fault f. f ≡ failure_of_answers fault };

    fn from(fault: AnswersFault) -> Self {
        match fault.rule {
            AnswersRule::OutOfMemory => Failure::Memory,
            _ => Failure::Answers(fault),
        }
    }
}

impl From<SumsFault> for Failure<'_> {
    ghost use Rattle.std.specs.Prelude.{◌≡◌};
    ghost use Rattle.cli_failures.specs.Failures.{failure_of_sums};

    // Each fault becomes the failure that the definition gives.
    ghost from_gives = { λ fault f. f ≡ failure_of_sums fault };

    fn from(fault: SumsFault) -> Self {
        match fault.rule {
            SumsRule::OutOfMemory => Failure::Memory,
            _ => Failure::Sums(fault),
        }
    }
}

impl From<StampFault> for Failure<'_> {
    ghost use Rattle.std.specs.Prelude.{◌≡◌};
    ghost use Rattle.cli_failures.specs.declared.failure.Failure.TheVariants.{Unstamping};

    // Each fault becomes `Unstamping`.
    ghost from_gives = { λ fault f. f ≡ Unstamping fault };

    fn from(fault: StampFault) -> Self {
        Failure::Unstamping(fault)
    }
}

impl From<MakeRecordFault> for Failure<'_> {
    ghost use Rattle.std.specs.Prelude.{◌≡◌};
    ghost use Rattle.cli_failures.specs.Failures.{failure_of_making};

    // Each fault becomes the failure that the definition gives.
    ghost from_gives = { λ fault f. f ≡ failure_of_making fault };

    fn from(fault: MakeRecordFault) -> Self {
        match fault {
            MakeRecordFault::TooLong => Failure::Unmade(fault),
            MakeRecordFault::OutOfMemory => Failure::Memory,
        }
    }
}

impl From<LeafFault> for Failure<'_> {
    ghost use Rattle.std.specs.Prelude.{◌≡◌};
    ghost use Rattle.cli_failures.specs.Failures.{failure_of_leaf};

    // Each fault becomes the failure that the definition gives.
    ghost from_gives = { λ fault f. f ≡ failure_of_leaf fault };

    fn from(fault: LeafFault) -> Self {
        match fault {
            LeafFault::Malformed(fault) => Failure::Malformed(fault),
            LeafFault::NoStamp | LeafFault::Unnamed => Failure::Unrenewable(fault),
            LeafFault::OutOfMemory => Failure::Memory,
        }
    }
}

/// How a command ends that refuses a file of sums by this rule.
fn sums_status(rule: SumsRule) -> Status
    ensures { result ≡ sums_status rule }
{
    match rule {
        SumsRule::Line | SumsRule::Empty => Status::Malformed,
        SumsRule::Name | SumsRule::NameTwice => Status::Refused,
        SumsRule::OutOfMemory => Status::Failed,
    }
}

/// How a command ends that didn't print the questions of a file for this reason.
fn unasked_status(fault: QuestionsFault) -> Status
    ensures { result ≡ unasked_status fault }
{
    match fault {
        QuestionsFault::Malformed(_) => Status::Malformed,
        QuestionsFault::NotSignedData => Status::Refused,
        QuestionsFault::WriteFailed => Status::Failed,
    }
}

/// How a command ends that didn't compare two files for this reason.
fn uncompared_status(fault: CompareFault) -> Status
    ensures { result ≡ uncompared_status fault.rule }
{
    match fault.rule {
        CompareRule::Malformed(CmsFault::Malformed(_)) => Status::Malformed,
        _ => Status::Refused,
    }
}

/// How a command ends whose check was refused for this reason.
fn refused_status(refused: Refused) -> Status
    ensures { result ≡ refused_status refused }
{
    match refused {
        Refused::File(FileRule::Malformed(_)) => Status::Malformed,
        Refused::Device(_) => Status::Failed,
        _ => Status::Refused,
    }
}

/// How a command ends whose evidence record was refused for this reason.
fn unshown_status(refused: EvidenceRefused) -> Status
    ensures { result ≡ unshown_status refused }
{
    match refused {
        EvidenceRefused::Record(RecordRule::Malformed(_)) => Status::Malformed,
        EvidenceRefused::Device(_) => Status::Failed,
        _ => Status::Refused,
    }
}

impl<'a> Failure<'a> {
    ghost use Rattle.std.specs.Prelude.{◌≡◌, ◌≢◌, ◌⊎◌, IfErr, OnOk};
    ghost use Rattle.std.specs.IoError.{error_kind};
    ghost use Rattle.std.specs.Io.KnownBytes.{Appends};
    ghost use Rattle.cli_failures.specs.Failures.{failure_text, printed_text, status_of};
    ghost use Rattle.cli_failures.specs.Output.{Begins, IsLost};

    /// Why the words of the process aren't available: memory ran out, or one of them isn't text.
    pub fn of_words(error: &io::Error) -> Failure<'a>
        // Gives `Memory` if the error is a lack of memory.
        ensures memory { error_kind error.now ≡ ErrorKind.OutOfMemory → result ≡ Failure.Memory }
        // Gives `NotText` for every other error.
        ensures other { error_kind error.now ≢ ErrorKind.OutOfMemory → result ≡ Failure.NotText }
    {
        if error.kind() == ErrorKind::OutOfMemory {
            Failure::Memory
        } else {
            Failure::NotText
        }
    }

    /// How the command ended.
    pub fn status(&self) -> Status
        ensures { result ≡ status_of self.now }
    {
        match self {
            Failure::NotSignedData | Failure::Unmatched(_) => Status::Refused,
            Failure::Different | Failure::Collision | Failure::Unattached(_) => Status::Refused,
            Failure::Unstamped(_) => Status::Refused,
            Failure::Unstamping(_) | Failure::Unmade(_) => Status::Refused,
            Failure::Unrenewable(_) | Failure::Mixed => Status::Refused,
            Failure::Sums(fault) => sums_status(fault.rule),
            Failure::Uncompared(fault) => uncompared_status(*fault),
            Failure::Malformed(_) | Failure::MalformedMessage(_, _) => Status::Malformed,
            Failure::Trust(_) | Failure::Answers(_) => Status::Malformed,
            Failure::Unasked(fault) => unasked_status(*fault),
            Failure::Refused(refused) => refused_status(*refused),
            Failure::Unshown(refused) | Failure::Unevidenced(OfRecord { refused }) => {
                unshown_status(*refused)
            }
            Failure::Words(_) | Failure::NotText | Failure::Usage(_) => Status::Usage,
            _ => Status::Failed,
        }
    }

    /// Reports it: what was found in a file on the standard output, and everything else on the standard error.
    pub fn report<O: Write, E: Write>(&self, out: &mut O, err: &mut E) -> Status
        // Returns the status of the failure, or `Failed`.
        ensures status { (result ≡ status_of self.now) ⊎ (result ≡ Status.Failed) }
        // With `Malformed` the output took the failure's line, if it is known what it takes.
        ensures told { result ≡ Status.Malformed → Appends (O.contents out.old) (O.contents out.new)
            (failure_text self.now) }
        // With `Refused` the output took the failure's line, if it is known what it takes.
        ensures refused { result ≡ Status.Refused → Appends (O.contents out.old) (O.contents out.new)
            (failure_text self.now) }
        // With `Failed` the output took a beginning of what is printed there of the failure.
        ensures cut { result ≡ Status.Failed → Begins (O.contents out.old) (O.contents out.new)
            (printed_text self.now) }
        // With `Usage` nothing was put on the output.
        ensures silent { result ≡ Status.Usage → out.new ≡ out.old }
        // For a failure whose status is `Usage`, nothing was put on the output.
        ensures usage { status_of self.now ≡ Status.Usage → out.new ≡ out.old }
        // For a failure whose status is `Failed`, nothing was put on the output.
        ensures failed { status_of self.now ≡ Status.Failed → out.new ≡ out.old }
        // With a status other than `Usage` and `Failed`, nothing was put on the standard error.
        ensures quiet { (result ≡ Status.Usage) ⊎ ((result ≡ Status.Failed) ⊎ (err.new ≡ err.old)) }
    {
        match self.status() {
            Status::Done | Status::Refused | Status::Malformed => match self.print(out) {
                Ok(()) => self.status(),
                Err(lost) => lost.report_error(err),
            },
            _ => self.report_error(err),
        }
    }

    /// Reports it on the standard error. If that fails too, there is nowhere left to report to.
    pub fn report_error<E: Write>(&self, err: &mut E) -> Status
        // Returns the status of the failure.
        ensures { result ≡ status_of self.now }
    {
        let _ = self.tell(err);
        self.status()
    }

    /// Prints it on the standard output. Of a writer that fails `write!` promises nothing, so the line is made in a
    /// room first.
    ///
    /// Errors: the output fails, or the line is longer than the room, and nothing was printed.
    #[inline(never)]
    fn print<O: Write>(&self, out: &mut O) -> Result<(), Failure<'static>>
        ensures all { OnOk result (Appends (O.contents out.old) (O.contents out.new) (failure_text self.now)) }
        ensures cut { IfErr result (λ f. IsLost f
            × Begins (O.contents out.old) (O.contents out.new) (failure_text self.now)) }
    {
        let mut line = ArrayVec::<u8, ROOM>::new();
        match write!(line, "{self}") {
            Ok(()) => put(out, line.as_slice()),
            Err(_) => Err(Failure::Write(STANDARD_OUTPUT)),
        }
    }

    fn tell<W: Write>(&self, to: &mut W) -> io::Result<()>
        ensures { OnOk result (Appends (W.contents to.old) (W.contents to.new) (failure_text self.now)) }
    {
        write!(to, "{self}")?;
        to.flush()
    }
}
