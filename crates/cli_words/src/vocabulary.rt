/// A word that a command takes, as data.
pub struct Word {
    pub name: &'static str,
    pub takes: Takes,
    pub required: bool,
    pub help: &'static str,
}

/// What kind of word it is.
pub enum Takes {
    /// A value in its place, whose name in the help is the word's.
    Place,
    /// One of the names of `KINDS` in its place.
    Kind,
    /// `--name` and a value, of which this is the name in the help.
    Text(&'static str),
    /// The same, any number of times.
    Texts(&'static str),
    /// `--name` and a number, at least the first and at most the second.
    Number(u64, u64),
    /// `--name` and one of the names of `ALGORITHMS`, by default that of SHA-256.
    Algorithm,
    /// The same, without a default.
    NamedAlgorithm,
    /// `--name` alone.
    Nothing,
    /// One or more values in their places, whose name in the help is the word's.
    Several,
    /// The same; or the word of this name instead.
    Places(&'static str),
    /// `--name` and a value, instead of the places of the first name; the second is the value's name in the help.
    List(&'static str, &'static str),
    /// `--name` or this letter alone, beside the word of this name.
    NothingOf(&'static str, char),
    /// `--name` and a value, beside the word of the first name; the second is the value's name in the help.
    TextOf(&'static str, &'static str),
    /// The same, any number of times.
    TextsOf(&'static str, &'static str),
    /// `--name` and a value, beside neither of the words of the first names; the last is the value's name in the help.
    TextApart(&'static str, &'static str, &'static str),
}

/// The most octets that the words may allow to be kept of a file, 2^30. Decision 132 of `docs/DECISIONS.md`.
pub const MOST_BUFFER: u64 = 1_073_741_824;

/// The names of the algorithms that a request may be for.
pub static ALGORITHMS: [&str; 7] = [
    "sha1",
    "sha224",
    "sha256",
    "sha384",
    "sha512",
    "sha512-224",
    "sha512-256",
];

/// What a file may be read as.
pub static KINDS: [&str; 5] = ["evidence", "request", "response", "signed", "tst"];

/// The list of whom to trust, of all commands `check` and `questions`.
const TRUST: Word = Word {
    name: "trust",
    takes: Takes::Text("TRUST"),
    required: true,
    help: "The trust list, as --trust trusted.txt (no default)",
};

/// The list of what a verifier found good, of all commands `check`.
const ANSWERS: Word = Word {
    name: "answers",
    takes: Takes::Text("ANSWERS"),
    required: true,
    help: "The answers list, as --answers answers.txt (no default)",
};

/// The content that is handed in, of `fit` and `check`.
const CONTENT: Word = Word {
    name: "content",
    takes: Takes::Text("CONTENT"),
    required: false,
    help: "The file that was signed, as --content document.pdf, if FILE doesn't hold it (by default FILE does); it \
           is read once, in pieces, and may have up to 2^40 octets",
};

/// How many octets may be kept, of `check` and `questions`.
const BUFFER: Word = Word {
    name: "buffer",
    takes: Takes::Number(1, MOST_BUFFER),
    required: false,
    help: "How many octets of FILE may be kept while it is read, 1 to 1073741824, as --buffer 65536 (by default \
           67108864 of a regular file, and 1048576 of what can be read only once)",
};

/// The list of the files, in the place of their names.
const FILES_FROM: Word = Word {
    name: "files-from",
    takes: Takes::List("FILE", "LIST"),
    required: false,
    help: "Reads the names of the files from LIST, a line for each, in place of FILE, as --files-from names.txt or \
           --files-from - (by default the files are named on the command line)",
};

/// How a name in such a list ends.
const NULL: Word = Word {
    name: "null",
    takes: Takes::NothingOf("files-from", '0'),
    required: false,
    help: "Each name in LIST ends in an octet 0, as `find -print0` writes them (by default in a line feed)",
};

/// The files, of `fit` and `questions`.
const FILES: Word = Word {
    name: "FILE",
    takes: Takes::Places("files-from"),
    required: false,
    help: "The files to read, as signed.p7s (no default)",
};

/// The algorithm of digests, of `request` and `evidence request`.
const ALGORITHM: Word = Word {
    name: "alg",
    takes: Takes::Algorithm,
    required: false,
    help: "The digest algorithm, as --alg sha512 or --alg sha512-256",
};

/// What a request asks of the authority, of `request` and `evidence request`: under which policy it stamps.
const POLICY: Word = Word {
    name: "policy",
    takes: Takes::Text("OID"),
    required: false,
    help: "The policy under which the authority is asked to stamp, an object identifier, as --policy 2.999.3 (by \
           default the request names none)",
};

/// The same: that it repeats a number.
const NONCE: Word = Word {
    name: "nonce",
    takes: Takes::Text("HEX"),
    required: false,
    help: "A number that the answer must repeat, the contents of an INTEGER in hexadecimal, as --nonce 05: at least \
           one octet, the first nine bits neither all 0 nor all 1 (by default the request has none)",
};

/// The same: that it adds its certificate.
const CERT: Word = Word {
    name: "cert",
    takes: Takes::Nothing,
    required: false,
    help: "Asks for the authority's certificate in the answer (by default the request leaves the question out)",
};

/// Where a request goes.
const REQUEST_OUT: Word = Word {
    name: "OUT",
    takes: Takes::Place,
    required: true,
    help: "The file to write, as request.tsq; one that is there is replaced",
};

/// The digests of many files, of `evidence request` and `evidence make`.
const SUMS: Word = Word {
    name: "SUMS",
    takes: Takes::Place,
    required: true,
    help: "The digests to read, as SHA256SUMS (no default): a line for each file, as `sha256sum` and its kin write it",
};

/// The words of `request`, in the order of its help.
pub static REQUEST: [Word; 8] = [
    Word {
        name: "digest",
        takes: Takes::Text("HEX"),
        required: false,
        help: "The digest, two hexadecimal digits of either case for each octet the algorithm gives, as \
               a9993e364706816aba3e25717850c26c9cd0d89d with --alg sha1 (no default; --of may take its place)",
    },
    Word {
        name: "of",
        takes: Takes::Text("FILE"),
        required: false,
        help: "The CMS SignedData of which a signature is to be stamped, as --of signed.p7s, in place of --digest",
    },
    Word {
        name: "signer",
        takes: Takes::Number(0, u64::MAX),
        required: false,
        help: "The number of the signer in the FILE of --of, as --signer 2 (by default 1)",
    },
    ALGORITHM,
    POLICY,
    NONCE,
    CERT,
    REQUEST_OUT,
];

/// The words of `show`, in the order of its help.
pub static SHOW: [Word; 2] = [
    Word {
        name: "KIND",
        takes: Takes::Kind,
        required: true,
        help: "What the file is to be read as (no default)",
    },
    Word {
        name: "FILE",
        takes: Takes::Place,
        required: true,
        help: "The file to read, as request.tsq, response.tsr or signed.p7s (no default)",
    },
];

/// The words of `cert`, in the order of its help.
pub static CERTIFICATE: [Word; 1] = [Word {
    name: "FILE",
    takes: Takes::Place,
    required: true,
    help: "The certificate to read, as authority.der (no default)",
}];

/// The words of `fit`, in the order of its help.
pub static FIT: [Word; 5] = [
    CONTENT,
    Word {
        name: "sha1",
        takes: Takes::Nothing,
        required: false,
        help: "Allows SHA-1 as a signer's digest algorithm (by default it is refused)",
    },
    FILES_FROM,
    NULL,
    FILES,
];

/// The words of `match`, in the order of its help.
pub static MATCH: [Word; 3] = [
    Word {
        name: "REQUEST",
        takes: Takes::Place,
        required: true,
        help: "The request to read, as request.tsq (no default)",
    },
    Word {
        name: "RESPONSE",
        takes: Takes::Place,
        required: true,
        help: "The response to read, as response.tsr (no default)",
    },
    Word {
        name: "TOKEN",
        takes: Takes::Place,
        required: false,
        help: "The file to write the response's token into, as token.tok; one that is there is replaced (by default \
               the token isn't written)",
    },
];

/// The words of `check`, in the order of its help.
pub static CHECK: [Word; 11] = [
    TRUST,
    ANSWERS,
    CONTENT,
    Word {
        name: "sha1",
        takes: Takes::Nothing,
        required: false,
        help: "Allows SHA-1 as a digest algorithm of signers and imprints (by default it is refused)",
    },
    Word {
        name: "evidence",
        takes: Takes::TextApart("sha1", "files-from", "RECORD"),
        required: false,
        help: "An evidence record that shows by when FILE existed, as --evidence record.ers (by default FILE is judged \
               without one); with it FILE and CONTENT are read whole",
    },
    Word {
        name: "end",
        takes: Takes::TextsOf("evidence", "ALG=TIME"),
        required: false,
        help: "The last moment at which the digest algorithm ALG holds, as --end sha1=20160101000000Z; may be given \
               more than once (by default SHA-1 never holds, and each other algorithm always does)",
    },
    Word {
        name: "at",
        takes: Takes::TextOf("evidence", "TIME"),
        required: false,
        help: "The moment at which the last time-stamp of RECORD must still hold, as --at 20261231235959Z (by default \
               the time of that time-stamp)",
    },
    BUFFER,
    FILES_FROM,
    NULL,
    Word {
        name: "FILE",
        takes: Takes::Places("files-from"),
        required: false,
        help: "The files to read, as signed.p7s or /dev/stdin (no default); each is read in pieces, and may have any \
               length",
    },
];

/// The words of `questions`, in the order of its help.
pub static QUESTIONS: [Word; 5] = [TRUST, BUFFER, FILES_FROM, NULL, FILES];

/// The words of `attach`, in the order of its help.
pub static ATTACH: [Word; 4] = [
    Word {
        name: "signer",
        takes: Takes::Number(0, u64::MAX),
        required: true,
        help: "The number of the signer, as --signer 1 (no default)",
    },
    Word {
        name: "token",
        takes: Takes::Text("TOKEN"),
        required: true,
        help: "The token to attach, as --token token.tok (no default)",
    },
    Word {
        name: "FILE",
        takes: Takes::Place,
        required: true,
        help: "The file to read, as signed.p7s (no default)",
    },
    Word {
        name: "OUT",
        takes: Takes::Place,
        required: true,
        help: "The file to write, as stamped.p7s; one that is there is replaced",
    },
];

/// The words of `compare`, in the order of its help.
pub static COMPARE: [Word; 4] = [
    Word {
        name: "first",
        takes: Takes::Number(0, u64::MAX),
        required: false,
        help: "The number of the signer in A, as --first 2 (by default 1)",
    },
    Word {
        name: "second",
        takes: Takes::Number(0, u64::MAX),
        required: false,
        help: "The number of the signer in B, as --second 2 (by default 1)",
    },
    Word {
        name: "A",
        takes: Takes::Place,
        required: true,
        help: "The first file to read, as signed.p7s (no default)",
    },
    Word {
        name: "B",
        takes: Takes::Place,
        required: true,
        help: "The second file to read, as stamped.p7s (no default)",
    },
];

/// The words of `migrate`, in the order of its help.
pub static MIGRATE: [Word; 2] = [
    Word {
        name: "LIST",
        takes: Takes::Place,
        required: true,
        help: "The trust list to read, as trusted.txt (no default)",
    },
    Word {
        name: "OUT",
        takes: Takes::Place,
        required: true,
        help: "The file to write, as trusted-2.txt; one that is there is replaced",
    },
];

/// The words of `stamp check`, in the order of its help.
pub static STAMP_CHECK: [Word; 5] = [
    TRUST,
    ANSWERS,
    Word {
        name: "sha1",
        takes: Takes::Nothing,
        required: false,
        help: "Allows SHA-1 as a digest algorithm of the token's signer and of its imprint (by default it is refused)",
    },
    Word {
        name: "STAMP",
        takes: Takes::Place,
        required: true,
        help: "The stamp to read, as document.pdf.tsr or token.tok (no default)",
    },
    Word {
        name: "DATA",
        takes: Takes::Place,
        required: true,
        help: "The file that was stamped, as document.pdf or /dev/stdin (no default); it is read once, in pieces, and \
               may have up to 2^40 octets",
    },
];

/// The words of `stamp questions`, in the order of its help.
pub static STAMP_QUESTIONS: [Word; 4] = [
    TRUST,
    Word {
        name: "files-from",
        takes: Takes::List("STAMP", "LIST"),
        required: false,
        help: "Reads the names of the stamps from LIST, a line for each, in place of STAMP, as --files-from names.txt \
               or --files-from - (by default the stamps are named on the command line)",
    },
    NULL,
    Word {
        name: "STAMP",
        takes: Takes::Places("files-from"),
        required: false,
        help: "The stamps to read, as document.pdf.tsr or token.tok (no default)",
    },
];

/// The words of `evidence check`, in the order of its help.
pub static EVIDENCE_CHECK: [Word; 7] = [
    TRUST,
    ANSWERS,
    Word {
        name: "end",
        takes: Takes::Texts("ALG=TIME"),
        required: false,
        help: "The last moment at which the digest algorithm ALG holds, as --end sha1=20160101000000Z; may be given \
               more than once (by default SHA-1 never holds, and each other algorithm always does)",
    },
    Word {
        name: "at",
        takes: Takes::Text("TIME"),
        required: false,
        help: "The moment at which the last time-stamp must still hold, as --at 20261231235959Z (by default the time \
               of that time-stamp)",
    },
    Word {
        name: "whole",
        takes: Takes::Nothing,
        required: false,
        help: "Refuses a record whose first list has other hash values than those of DATA (by default it may have \
               them)",
    },
    Word {
        name: "RECORD",
        takes: Takes::Place,
        required: true,
        help: "The evidence record to read, as record.ers (no default)",
    },
    Word {
        name: "DATA",
        takes: Takes::Several,
        required: true,
        help: "The files that the record must cover, each of them, as document.pdf or /dev/stdin (no default); each \
               is read once, in pieces, and may have up to 2^40 octets",
    },
];

/// The words of `evidence questions`, in the order of its help.
pub static EVIDENCE_QUESTIONS: [Word; 4] = [
    TRUST,
    Word {
        name: "files-from",
        takes: Takes::List("RECORD", "LIST"),
        required: false,
        help: "Reads the names of the records from LIST, a line for each, in place of RECORD, as --files-from \
               names.txt or --files-from - (by default the records are named on the command line)",
    },
    NULL,
    Word {
        name: "RECORD",
        takes: Takes::Places("files-from"),
        required: false,
        help: "The evidence records to read, as record.ers (no default)",
    },
];

/// The words of `evidence request`, in the order of its help.
pub static EVIDENCE_REQUEST: [Word; 6] = [ALGORITHM, POLICY, NONCE, CERT, SUMS, REQUEST_OUT];

/// The words of `evidence make`, in the order of its help.
pub static EVIDENCE_MAKE: [Word; 4] = [
    Word {
        name: "alg",
        takes: Takes::NamedAlgorithm,
        required: false,
        help: "The digest algorithm of SUMS, as --alg sha512 (by default that of TOKEN)",
    },
    Word {
        name: "token",
        takes: Takes::Text("TOKEN"),
        required: true,
        help: "The token that stamps the root of the tree over SUMS, as --token token.tok (no default)",
    },
    Word {
        name: "into",
        takes: Takes::Text("FOLDER"),
        required: true,
        help: "The folder to write the records into, as --into records (no default): that of NAME is FOLDER/NAME.ers, \
               and none that is there is replaced by another",
    },
    SUMS,
];

/// The file that the request is written into, of `evidence renew` and `evidence rehash`.
const RENEWAL_REQUEST: Word = Word {
    name: "request",
    takes: Takes::Text("OUT"),
    required: false,
    help: "The file to write the request into, as --request request.tsq; one that is there is replaced (no default: \
           this or --token is given)",
};

/// The words of `evidence renew`, in the order of its help.
pub static EVIDENCE_RENEW: [Word; 3] = [
    RENEWAL_REQUEST,
    Word {
        name: "token",
        takes: Takes::Text("TOKEN"),
        required: false,
        help: "The token that stamps the root of the tree over the last time-stamps of the RECORDs, as --token \
               token.tok (no default: this or --request is given)",
    },
    Word {
        name: "RECORD",
        takes: Takes::Several,
        required: true,
        help: "The evidence records to renew, as record.ers (no default); with --token each is replaced",
    },
];

/// The words of `evidence rehash`, in the order of its help.
pub static EVIDENCE_REHASH: [Word; 6] = [
    Word {
        name: "alg",
        takes: Takes::NamedAlgorithm,
        required: true,
        help: "The digest algorithm of SUMS and of the new chains, as --alg sha512 (no default)",
    },
    Word {
        name: "into",
        takes: Takes::Text("FOLDER"),
        required: true,
        help: "The folder with the records, as --into records (no default): that of NAME is FOLDER/NAME.ers",
    },
    Word {
        name: "alone",
        takes: Takes::Nothing,
        required: false,
        help: "Takes further hash values of a record's first list for those of neighbours in its tree (by default SUMS \
               must have as many lines for the record as the list has values)",
    },
    RENEWAL_REQUEST,
    Word {
        name: "token",
        takes: Takes::Text("TOKEN"),
        required: false,
        help: "The token that stamps the root of the tree over SUMS and the records, as --token token.tok (no \
               default: this or --request is given)",
    },
    Word {
        name: "SUMS",
        takes: Takes::Place,
        required: true,
        help: "The digests to read, as SHA512SUMS (no default): a line for each file, as `sha256sum` and its kin write \
               it, behind a space if its record is that of the line before",
    },
];
