/// What a command is asked to do.
#[derive(Clone, Copy, Debug)]
pub enum Task<'a> {
    /// To print what a verifier must be asked about a file. The questions are printed as they are found.
    Questions(QuestionsWords<'a>),
    /// To do any other task: its text is made first, and then printed.
    Text(TextTask<'a>),
}

/// A task whose text is made before it is printed: every task but questions.
#[derive(Clone, Copy, Debug)]
pub enum TextTask<'a> {
    /// To make a request.
    Request(RequestWords<'a>),
    /// To show the request in the file of this path.
    ShowRequest(&'a str),
    /// To show the response in the file of this path.
    ShowResponse(&'a str),
    /// To show the TSTInfo in the file of this path.
    ShowTst(&'a str),
    /// To show the SignedData in the file of this path.
    ShowSigned(&'a str),
    /// To show the evidence record in the file of this path.
    ShowEvidence(&'a str),
    /// To show the certificate in the file of this path.
    ShowCertificate(&'a str),
    /// To say whether content and signed attributes belong together.
    Fit(FitWords<'a>),
    /// To say whether a response answers a request.
    Match(MatchWords<'a>),
    /// To say by when the signatures of a file existed.
    Check(CheckWords<'a>),
    /// To write a trust list in version 2.
    Migrate(MigrateWords<'a>),
    /// To say whether two files were signed over the same.
    Compare(CompareWords<'a>),
    /// To attach a token to a signer of a file.
    Attach(AttachWords<'a>),
    /// To say by when a file existed, by a stamp that stands beside it.
    CheckStamp(StampWords<'a>),
    /// To print what a verifier must be asked about such a stamp.
    AskStamp(StampQuestionsWords<'a>),
}

/// What a request asks a stamp for.
#[derive(Clone, Copy, Debug)]
pub enum Stamped<'a> {
    /// This digest, in hexadecimal.
    Digest(&'a str),
    /// A signature: the path of the file that holds it, and the number of its signer, from 1.
    Signature(&'a str, u64),
}

/// The values of a request, as they were written on the command line.
#[derive(Clone, Copy, Debug)]
pub struct RequestWords<'a> {
    /// The digest's algorithm, by its name.
    pub alg: &'a str,
    /// What is to be stamped: a digest that is given, or that of a signature.
    pub stamped: Stamped<'a>,
    /// The policy that is requested, an object identifier in decimal with points.
    pub policy: Option<&'a str>,
    /// The contents of the nonce, an INTEGER, in hexadecimal.
    pub nonce: Option<&'a str>,
    /// Whether the certificate of the authority is requested.
    pub cert: bool,
    /// The path of the file that the request goes into.
    pub out: &'a str,
}

/// The files whose content and signed attributes are compared, and what is allowed.
#[derive(Clone, Copy, Debug)]
pub struct FitWords<'a> {
    /// The path of the file that holds the SignedData.
    pub file: &'a str,
    /// The path of the file that is the content, if the SignedData doesn't have it.
    pub content: Option<&'a str>,
    /// Whether SHA-1 may be a signer's digest algorithm.
    pub sha1: bool,
}

/// The request and the response that are matched, and the file that a token goes into.
#[derive(Clone, Copy, Debug)]
pub struct MatchWords<'a> {
    /// The path of the file that holds the request.
    pub request: &'a str,
    /// The path of the file that holds the response.
    pub response: &'a str,
    /// The path of the file that the response's token goes into, if it is wanted.
    pub token: Option<&'a str>,
}

/// The trust list that is read, and the file that it goes into.
#[derive(Clone, Copy, Debug)]
pub struct MigrateWords<'a> {
    /// The path of the file that holds the list.
    pub list: &'a str,
    /// The path of the file that the list of version 2 goes into.
    pub out: &'a str,
}

/// The file whose questions are printed, and who is trusted.
#[derive(Clone, Copy, Debug)]
pub struct QuestionsWords<'a> {
    /// The path of the file that holds the trust list.
    pub trust: &'a str,
    /// How many octets of the SignedData may be kept while it is read, if the words say.
    pub buffer: Option<u64>,
    /// The path of the file that holds the SignedData.
    pub file: &'a str,
}

/// The file that is checked, the lists that it is checked with, and what is allowed.
#[derive(Clone, Copy, Debug)]
pub struct CheckWords<'a> {
    /// The path of the file that holds the trust list.
    pub trust: &'a str,
    /// The path of the file that holds the answers list.
    pub answers: &'a str,
    /// The path of the file that is the content, if the SignedData doesn't have it.
    pub content: Option<&'a str>,
    /// Whether SHA-1 may be the digest algorithm of a signer or of an imprint.
    pub sha1: bool,
    /// How many octets of the SignedData may be kept while it is read, if the words say.
    pub buffer: Option<u64>,
    /// The path of the file that holds the SignedData.
    pub file: &'a str,
}

/// The two signatures that are compared.
#[derive(Clone, Copy, Debug)]
pub struct CompareWords<'a> {
    /// The path of the file that holds the first SignedData.
    pub first_file: &'a str,
    /// The number of its signer, from 1.
    pub first_signer: u64,
    /// The path of the file that holds the second SignedData.
    pub second_file: &'a str,
    /// The number of its signer, from 1.
    pub second_signer: u64,
}

/// The token that is attached, the signer that it is attached to, and the file that the new file goes into.
#[derive(Clone, Copy, Debug)]
pub struct AttachWords<'a> {
    /// The number of the signer, from 1.
    pub signer: u64,
    /// The path of the file that holds the token.
    pub token: &'a str,
    /// The path of the file that holds the SignedData.
    pub file: &'a str,
    /// The path of the file that the SignedData with the token goes into.
    pub out: &'a str,
}

/// The stamp that is checked, the file that it should stamp, the lists that it is checked with, and what is allowed.
#[derive(Clone, Copy, Debug)]
pub struct StampWords<'a> {
    /// The path of the file that holds the trust list.
    pub trust: &'a str,
    /// The path of the file that holds the answers list.
    pub answers: &'a str,
    /// Whether SHA-1 may be the digest algorithm of the token's signer or of its imprint.
    pub sha1: bool,
    /// The path of the file that holds the token, or a response with one.
    pub stamp: &'a str,
    /// The path of the file that it should stamp.
    pub data: &'a str,
}

/// The stamp whose questions are printed, and who is trusted.
#[derive(Clone, Copy, Debug)]
pub struct StampQuestionsWords<'a> {
    /// The path of the file that holds the trust list.
    pub trust: &'a str,
    /// The path of the file that holds the token, or a response with one.
    pub stamp: &'a str,
}

/// What a command about evidence records is asked to do.
#[derive(Debug, Drop)]
pub enum EvidenceTask<'a> {
    /// To say by when data existed, by a record.
    Check(EvidenceWords<'a>),
    /// To say by when the signatures of a file existed, under a record.
    CheckUnder(UnderWords<'a>),
    /// To print what a verifier must be asked about a record.
    Questions(EvidenceQuestionsWords<'a>),
    /// To make the request for a stamp of the root of the tree over the digests of many files.
    Request(RootRequestWords<'a>),
    /// To make a record of each of these files, by the stamp of the root.
    Make(MakeWords<'a>),
    /// To make the request for a stamp of the root of the tree over the last time-stamps of records.
    RequestRenewal(RenewalRequestWords<'a>),
    /// To renew these records in their places, by that stamp.
    Renew(RenewWords<'a>),
    /// To make the request for a stamp of the root of the tree over data and their records.
    RequestRehash(RehashRequestWords<'a>),
    /// To give each of these records a new chain in its place, by that stamp.
    Rehash(RehashWords<'a>),
}

/// The evidence record that is checked, the data that it should be for, the lists that it is checked with, and how long
/// algorithms and its last time-stamp hold.
#[derive(Debug, Drop)]
pub struct EvidenceWords<'a> {
    /// The path of the file that holds the trust list.
    pub trust: &'a str,
    /// The path of the file that holds the answers list.
    pub answers: &'a str,
    /// The ends of algorithms: a name, `=` and a time each.
    pub ends: Vec<&'a str>,
    /// The moment at which the last time-stamp must hold, if the words say.
    pub at: Option<&'a str>,
    /// Whether the first list may have no hash values but those of the data.
    pub whole: bool,
    /// The path of the file that holds the record.
    pub record: &'a str,
    /// The paths of the files that it should be for.
    pub data: Vec<&'a str>,
}

/// The signed file that is checked under an evidence record, the record, the lists that both are checked with, and how
/// long algorithms and the last time-stamp of the record hold.
#[derive(Debug, Drop)]
pub struct UnderWords<'a> {
    /// The path of the file that holds the trust list.
    pub trust: &'a str,
    /// The path of the file that holds the answers list.
    pub answers: &'a str,
    /// The path of the file that holds the record.
    pub record: &'a str,
    /// The ends of algorithms: a name, `=` and a time each.
    pub ends: Vec<&'a str>,
    /// The moment at which the last time-stamp of the record must hold, if the words say.
    pub at: Option<&'a str>,
    /// The path of the file that is the content, if the SignedData doesn't have it.
    pub content: Option<&'a str>,
    /// How many octets of the SignedData may be kept, if the words say.
    pub buffer: Option<u64>,
    /// The path of the file that holds the SignedData.
    pub file: &'a str,
}

/// The evidence record whose questions are printed, and who is trusted.
#[derive(Clone, Copy, Debug)]
pub struct EvidenceQuestionsWords<'a> {
    /// The path of the file that holds the trust list.
    pub trust: &'a str,
    /// The path of the file that holds the record.
    pub record: &'a str,
}

/// The digests of many files, as `sha256sum` and its kin write them, and the values of the request for a stamp of the
/// root of the tree over them.
#[derive(Clone, Copy, Debug)]
pub struct RootRequestWords<'a> {
    /// The algorithm of the digests, by its name.
    pub alg: &'a str,
    /// The policy that is requested, an object identifier in decimal with points.
    pub policy: Option<&'a str>,
    /// The contents of the nonce, an INTEGER, in hexadecimal.
    pub nonce: Option<&'a str>,
    /// Whether the certificate of the authority is requested.
    pub cert: bool,
    /// The path of the file that holds the digests.
    pub sums: &'a str,
    /// The path of the file that the request goes into.
    pub out: &'a str,
}

/// The digests of many files, as `sha256sum` and its kin write them, the stamp of the root of the tree over them, and
/// the folder that the records go into.
#[derive(Clone, Copy, Debug)]
pub struct MakeWords<'a> {
    /// The algorithm of the digests, by its name. `None` for that of the token.
    pub alg: Option<&'a str>,
    /// The path of the file that holds the token of the stamp.
    pub token: &'a str,
    /// The path of the folder that the records go into.
    pub into: &'a str,
    /// The path of the file that holds the digests.
    pub sums: &'a str,
}

/// Evidence records, and the file for the request for a stamp of the root of the tree over their last time-stamps.
#[derive(Debug, Drop)]
pub struct RenewalRequestWords<'a> {
    /// The paths of the files that hold the records.
    pub records: Vec<&'a str>,
    /// The path of the file that the request goes into.
    pub out: &'a str,
}

/// Evidence records that are renewed in their places, and the stamp of the root of the tree over their last
/// time-stamps.
#[derive(Debug, Drop)]
pub struct RenewWords<'a> {
    /// The paths of the files that hold the records.
    pub records: Vec<&'a str>,
    /// The path of the file that holds the token of the stamp.
    pub token: &'a str,
}

/// The digests of the data of evidence records by an algorithm, as `sha256sum` and its kin write them, the folder with
/// the records, and the file for the request for a stamp of the root of the tree over the data and their records.
#[derive(Clone, Copy, Debug)]
pub struct RehashRequestWords<'a> {
    /// The algorithm of the digests, by its name.
    pub alg: &'a str,
    /// The path of the file that holds the digests.
    pub sums: &'a str,
    /// The path of the folder with the records.
    pub into: &'a str,
    /// Whether other values of a record's first list are of neighbours in its tree.
    pub alone: bool,
    /// The path of the file that the request goes into.
    pub out: &'a str,
}

/// The same, and the stamp of that root.
#[derive(Clone, Copy, Debug)]
pub struct RehashWords<'a> {
    /// The algorithm of the digests, by its name.
    pub alg: &'a str,
    /// The path of the file that holds the digests.
    pub sums: &'a str,
    /// The path of the folder with the records.
    pub into: &'a str,
    /// Whether other values of a record's first list are of neighbours in its tree.
    pub alone: bool,
    /// The path of the file that holds the token of the stamp.
    pub token: &'a str,
}

/// What a command asks of each of several files.
#[derive(Debug, Drop)]
pub struct Many<'a> {
    /// What is asked of each.
    pub each: Each<'a>,
    /// Which files these are.
    pub files: Several<'a>,
}

/// Several files.
#[derive(Debug, Drop)]
pub enum Several<'a> {
    /// The files of these paths, in this order.
    Words(Vec<&'a str>),
    /// The files whose paths are in a list.
    Listed(ListWords<'a>),
}

/// A list of paths.
#[derive(Clone, Copy, Debug)]
pub struct ListWords<'a> {
    /// The path of the file that holds the list.
    pub list: &'a str,
    /// Whether each path ends in an octet 0; otherwise it ends in a line feed.
    pub null: bool,
}

/// What a command that takes several files asks of each of them.
#[derive(Clone, Copy, Debug)]
pub enum Each<'a> {
    /// To say by when its signatures existed.
    Check(CheckEach<'a>),
    /// To say whether content and signed attributes belong together.
    Fit(FitEach<'a>),
    /// To print what a verifier must be asked about it.
    Questions(QuestionsEach<'a>),
}

/// The lists that each file is checked with, and what is allowed.
#[derive(Clone, Copy, Debug)]
pub struct CheckEach<'a> {
    /// The path of the file that holds the trust list.
    pub trust: &'a str,
    /// The path of the file that holds the answers list.
    pub answers: &'a str,
    /// The path of the file that is the content, if the SignedData don't have it.
    pub content: Option<&'a str>,
    /// Whether SHA-1 may be the digest algorithm of a signer or of an imprint.
    pub sha1: bool,
    /// How many octets of a SignedData may be kept while it is read, if the words say.
    pub buffer: Option<u64>,
}

/// The content that the signed attributes of each file are compared with, and what is allowed.
#[derive(Clone, Copy, Debug)]
pub struct FitEach<'a> {
    /// The path of the file that is the content, if the SignedData don't have it.
    pub content: Option<&'a str>,
    /// Whether SHA-1 may be a signer's digest algorithm.
    pub sha1: bool,
}

/// Who is trusted, whatever the file is whose questions are printed, and what each file holds.
#[derive(Clone, Copy, Debug)]
pub struct QuestionsEach<'a> {
    /// The path of the file that holds the trust list.
    pub trust: &'a str,
    /// What each file holds.
    pub about: About,
}

/// What the files hold whose questions are printed.
#[derive(Clone, Copy, Debug)]
pub enum About {
    /// SignedData, of each of which so many octets may be kept while it is read, if the words say.
    Signed(Option<u64>),
    /// Time-stamp tokens, or responses with them.
    Stamps,
    /// Evidence records.
    Records,
}
