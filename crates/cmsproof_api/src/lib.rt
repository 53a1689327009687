//! The checker of archived signatures, as one door: the calls and types that a user of the checker needs, under one
//! name.
//!
//! Begin with `check`, which judges a whole file in memory, or `check_stream`, which reads the file from a source once.
//! `check_signer` and `check_token` judge one signer and one token. `questions` lists what a verifier will be asked,
//! and `questions_stream` does so of a file that is read from a source once. `attach` adds a time-stamp token to a
//! signer, `answers` says whether a response answers a request, and `compare` whether a signer of one file and a signer
//! of another sign the same.
//!
//! `check_stamp` judges a token by the digest of what it stamps. `Stamp::read` says what a token states, and so by
//! which algorithm that is digested; `judge_stamp` and `judge_stamp_of` judge it, by a digest or over a source.
//! `granted_token` gives the token of a response, and `token_questions` what a verifier will be asked about one.
//!
//! For many files, `check_stream_with` and `check_stream_by` take what serves for one file after another: a `Pass`, the
//! window through which the files pass, as `questions_stream` does, and a `Checker`, the trust list and the policy with
//! what is kept of the list; `judge_file` takes a `Checker` for files in memory.
//!
//! `check_evidence` judges an evidence record (RFC 4998) by digests of data objects; `wanted_by` says by which
//! algorithms they must be digested, which `digests_from` does; `questions_of_record` lists what a verifier will be
//! asked. An `End` says until when an algorithm holds.
//!
//! Records are made of `Sums`, the digests and names of files as `sha256sum` and its kin write them. A `Tree` over the
//! digests has the root to be stamped, and the `LeafLists` of each digest; of these and the token of the stamp
//! `make_record` makes the record of the digest. `evidence` has the calls that renew records, and `check_under`, which
//! judges a signed file under one.
//!
//! A content and a file come from a `Source`, which `Slice` makes of octets and `FromRead` of a reader; what is written
//! goes to a `Sink`, which `FromWrite` makes of a writer.
#![tactic(auto)]

pub mod evidence;

pub use check_evidence::{EvidenceRefused, RecordRule, StampRule};
pub use check_fit::{
    DeviceFault, FileRule, Policy, Refused, SignerRule, TokenRefused, TokenRule, digests_from,
    fits, signer_fits,
};
pub use check_questions::{QuestionsFault, questions, token_questions};
pub use check_stream::{
    StreamQuestionsFault, check_stream, check_stream_by, check_stream_with, questions_stream,
};
pub use check_verdict::{
    Accepted, Checker, Stamp, check, check_signer, check_stamp, check_token, judge_file,
    judge_stamp, judge_stamp_of,
};
pub use cms_compare::{CompareFault, CompareRule, Compared, Which, compare};
pub use cms_stream::{Pass, listed_algorithms};
pub use cms_types::{CmsFault, SignedData, Signer, Signers};
pub use der_core::{Fault, Int, Kind, Oid, ReadFault};
pub use der_time::Moment;
pub use devices::{
    FromRead, FromWrite, Fused, Limited, Pieces, Sink, SinkFault, Slice, Source, SourceFault,
};
pub use digests::{Alg, Algs, Digest, WantedDigests, digest};
pub use evidence_making::{MakeFault as MakeRecordFault, StampFault, make_record};
pub use evidence_questions::{RecordQuestionsFault, questions_of_record};
pub use evidence_stamps::End;
pub use evidence_sums::{Sum, Sums, SumsFault, SumsRule};
pub use evidence_trees::{LeafLists, Tree};
pub use judge_evidence::{check_evidence, wanted_by};
pub use lines_report::report;
pub use list_answers::{
    Answers, AnswersFault, AnswersRule, AskFault, FusedVerifier, Question, Verifier,
};
pub use trust_lists::{Entry, Role, Trust, TrustFault, TrustRule};
pub use tsp_requester::{AttachFault, MatchFault, answers, attach, granted_token};
pub use tsp_types::{MakeFault, Request, Response, TstInfo};
