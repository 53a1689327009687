//! The texts of the help of the program and of its commands. After the list of words no line has more than 100
//! characters.

/// The exit statuses, and an example of each command.
pub const STATUSES: &str = "\
Exit status:
  0  done, or help was asked for
  1  refused: a rule isn't met, or two signatures don't sign the same
  2  malformed: a file isn't well formed; standard output names the fault, and the octet, from 0,
     or of a list the line, from 1
  3  usage: the command line, or a value on it, is wrong; nothing was written
  4  failed: a file, standard output (`-`) or memory

For one file that is read, `-` names standard input; a file of that name is written ./- instead. A
file to write must not be one to read, except that attach's OUT may be FILE.

`check`, `fit` and `questions` take several FILEs, `stamp questions` several STAMPs, and `evidence
questions` several RECORDs, or with --files-from a list of their names, where `-` is a file of that
name. They read the other lists once, go on after a file that fails, and end with the greatest of
the statuses. `check` and `fit` print a line for each file on standard output, `FILE: ` and what is
printed for it alone. The others print one text, with a comment before the questions of each file,
`# FILE`, or `# FILE: ` and the line of one that fails. In FILE and in these lines each octet that
isn't one of ASCII from space to tilde, a backslash, and a space behind a colon is `\\x` and two
digits. Without --files-from, -0 changes nothing.

An option that is the name of a file too is refused, `usage WORD`, and so is `-`: a shell can have
put it in the place of `*`. Write ./* for *, or -- before it.

Example:
  cmsproof request --digest $(sha256sum < FILE | cut -c 1-64) --cert request.tsq
  cmsproof show request request.tsq
  cmsproof show signed signed.p7s
  cmsproof cert authority.der
  cmsproof fit --content document.pdf signed.p7s
  cmsproof match request.tsq response.tsr token.tok
  cmsproof questions --trust trusted.txt signed.p7s > questions.txt
  cmsproof check --trust trusted.txt --answers answers.txt signed.p7s
  cmsproof stamp check --trust trusted.txt --answers answers.txt response.tsr document.pdf
  cmsproof evidence check --trust trusted.txt --answers answers.txt record.ers document.pdf
  cmsproof evidence request --cert SHA256SUMS request.tsq
  cmsproof evidence make --token token.tok --into records SHA256SUMS
  cmsproof evidence renew --request request.tsq record.ers
  cmsproof evidence rehash --alg sha512 --into records --request request.tsq SHA512SUMS
  cmsproof attach --signer 1 --token token.tok signed.p7s stamped.p7s
  cmsproof compare signed.p7s stamped.p7s
  cmsproof migrate trusted.txt trusted-2.txt";

/// What a request is made of.
pub const REQUEST_LINES: &str = "\
Give either --digest or --of, and --signer only with --of; otherwise the line is `usage digest`.
With --of the digest is that of the signature of the signer N, by the algorithm of --alg. A token
in that signer's unsigned attributes must stamp this digest (RFC 3161 appendix A). If FILE fails one
of these rules, the first of them is printed, and OUT isn't made:
  malformed FAULT           FILE isn't a CMS ContentInfo in DER (status 2)
  refused A1 NotSignedData  FILE holds another kind of CMS content (status 1)
  refused A2 NoSuchSigner   FILE has no signer of this number (status 1)
The values are judged before FILE is opened: `usage digest`, `usage policy` or `usage nonce` names
the first that is wrong.

Examples:
  cmsproof request --of signed.p7s --cert request.tsq
  cmsproof request --alg sha1 --digest a9993e364706816aba3e25717850c26c9cd0d89d --policy 2.999.3 \
--nonce 05 --cert request.tsq";

/// What is shown of each kind.
pub const SHOW_LINES: &str = "\
A request shows as lines: `request`, `algorithm OID`, `digest HEX`, `policy OID` if it names one,
`nonce HEX` if it has one, `certreq STATE` with absent, false (spelled out) or true, and
`extensions N` if it has extensions. HEX is `-` if there are no octets.

A response (RFC 3161 2.4.2) shows as lines: `response`, `status NAME`, or `status HEX` if the
number has no name, `text T` for each text, `fail NAME` for each bit that is set, or `fail bit N`
if the bit has no name, and `token present` or `token absent`. In T each octet but those of ASCII
from space to tilde, and the backslash too, is `\\x` and two digits. The token is not read.

A TSTInfo, which is the content of a time-stamp token, shows as lines: `tst`, `policy OID`,
`algorithm OID`, `digest HEX`, `serial HEX`, `time TIME`, `accuracy HEX HEX HEX` if it has one,
with seconds, millis and micros, `ordering STATE`, `nonce HEX`, `tsa HEX` (the whole name) and
`extensions N` if it has extensions. TIME is a GeneralizedTime, in UTC, as 20240131235959Z.

A CMS SignedData (RFC 5652, DER) shows as lines: `signed`, `version V agrees` if the version is the
one that RFC 5652 demands, or `version V differs`, `digests N`, `type OID`, `content N` with its
number of octets, or `content absent`, `certificates N`, `crls N`, `signers N`, and for each
signer, from 1 on, `signer I version V agrees` or `differs`, `issuer HEX serial HEX` or
`keyid HEX`, `digest OID`, `signature OID`, `attributes N` for those that are signed, or
`attributes absent`, and `tokens N` for the time-stamp tokens among the others. No signature is
checked. A ContentInfo of another type gives `refused NotSignedData`.

An evidence record (RFC 4998) shows as lines: `evidence`, `version 1`, `algorithms N`,
`cryptoinfos N` and `encryption OID` if it has these fields, `chains N`, and for each archive
time-stamp, in the order of the file, `chain C stamp S algorithm OID time TIME lists N values M`:
the number of its chain, and its own in this chain, from 1; its digest algorithm, or if it names
none that of its token's imprint; the token's time; how many lists of hash values it has, and how
many hash values in all. What a token would say that can't be read is `-`. No time-stamp is checked.

Examples:
  cmsproof show request request.tsq
  cmsproof show response response.tsr
  cmsproof show signed signed.p7s
  openssl cms -verify -noverify -nosigs -inform DER -in token.tok -out token.tst
  cmsproof show tst token.tst
  cmsproof show evidence record.ers";

/// What is shown of a certificate.
pub const CERTIFICATE_LINES: &str = "\
A certificate shows as lines: `cert`, `serial HEX`, `issuer HEX`, `subject HEX`, `from TIME`,
`until TIME`, `key HEX`, `keyid HEX` if it has a key identifier, and `stamping yes` if its key is
for time-stamping alone, or `stamping no`. Issuer, subject and key are whole elements. TIME is a
GeneralizedTime, in UTC, as 20240131235959Z. No signature is checked.

Example:
  openssl x509 -in authority.pem -outform DER -out authority.der
  cmsproof cert authority.der";

/// What `fit` prints.
pub const FIT_LINES: &str = "\
Prints `fits N`, with the number N of signers, if each of them has two signed attributes, each once
and with one value: content-type, which is the type of the content (RFC 5652 11.1), and
message-digest, which is the digest of the content (11.2). Otherwise it prints the first rule that
fails:
  malformed FAULT           FILE isn't a CMS ContentInfo in DER (status 2)
  refused C2 NotSignedData  FILE holds another kind of CMS content
  refused C3 NoSigner       FILE has no signer
  refused C4 NoContent      FILE holds no content, and --content is missing
  refused C5 ContentTwice   FILE holds a content, and --content is given
and for the first signer that doesn't fit, I counting from 1, `refused signer I RULE`:
  S1 NoSignedAttrs          it has no signed attributes
  S2 ContentTypeAttr        content-type doesn't occur once with one value, an OBJECT IDENTIFIER
  S3 ContentTypeDiffers     content-type isn't the type of the content
  S4 DigestAttr             message-digest doesn't occur once with one value, an OCTET STRING
  S5 DigestAlgorithm        the digest algorithm isn't known, or is SHA-1 without --sha1
  S6 DigestDiffers          message-digest isn't the digest of the content
No signature is checked: `fits` says nothing about who signed. If a content can't be read, the line
is `failed X1 ReadFailed`; if it has more than 2^40 octets, `failed X5 ContentTooLong`; both on the
standard error.

Of several FILEs there is a line for each, as the help of `cmsproof` says.

Examples:
  cmsproof fit signed.p7s
  cmsproof fit --content document.pdf signed.p7s
  cmsproof fit signed.p7s stamped.p7s";

/// What `match` prints.
pub const MATCH_LINES: &str = "\
Prints `answers` if the response answers the request (RFC 3161 2.4.2), and writes the response's
token, a CMS SignedData, into TOKEN. Otherwise it prints the first rule that fails, and makes no
file:
  malformed request FAULT   REQUEST is no time-stamp request in DER (status 2)
  malformed response FAULT  RESPONSE is no time-stamp response in DER (status 2)
  refused P1 Status         the status is neither granted nor grantedWithMods
  refused P2 NoToken        the response has no token
  refused P3 TokenMalformed the token isn't a SignedData of one signer whose content is a TSTInfo
  refused P4 Imprint        the token is for another digest
  refused P5 Nonce          the request has a nonce, and the token doesn't have that one
  refused P6 Policy         the request names a policy, and the token has another
  refused P7 CertMissing    the request asks for the authority's certificate, and the token lacks
                            the one that its signer names
No signature is checked: a response that no authority made can answer too.

Examples:
  cmsproof match request.tsq response.tsr
  cmsproof match request.tsq response.tsr token.tok";

/// What `check` prints.
pub const CHECK_LINES: &str = "\
Prints `accepted TIME` if three things are true of each signer: its attributes fit the content; a
trusted certificate is the signer's, and the signature is good under its key; and a trusted
authority made a time-stamp token of the signature (RFC 5652 5.4 and 5.6, RFC 3161). TIME is a
GeneralizedTime in UTC, as 20240131235959Z. A stamp counts if its token passes, and the signer's
certificate is valid and listed at its time. Of each signer the earliest stamp that counts is taken,
and TIME is the latest of these. By then each of the signatures existed.

TRUST is a trust list, as the help of `migrate` says. ANSWERS says which signatures are good: its
first line is `cmsproof answers 1`, and each other line is one that `questions` prints. Empty lines
and lines that begin with # have no meaning.

Otherwise one line is printed. For the lists, N counting all lines from 1 (status 2):
  trust L1 Version at line 1      TRUST isn't a trust list: its first line is another,
  trust L2 Line at line N         line N is of another form,
  trust L5 Period at line N       its period ends before it begins, or
  trust L3 Certificate at line N  its octets aren't a certificate
  answers B1 Version at line 1    ANSWERS isn't an answers list: its first line is another, or
  answers B2 Line at line N       line N isn't five fields in hexadecimal with one space between
For FILE, the first of these that fails (status 1):
  malformed FAULT           FILE isn't a CMS ContentInfo in DER (C1, status 2)
  refused C2 NotSignedData  FILE holds another kind of CMS content
  refused C3 NoSigner       FILE has no signer
  refused C4 NoContent      FILE holds no content, and --content is missing
  refused C5 ContentTwice   FILE holds a content, and --content is given
Then for the first signer that fails a rule, I counting from 1, `refused signer I RULE`:
  S1 NoSignedAttrs          it has no signed attributes
  S2 ContentTypeAttr        content-type doesn't occur once with one value, an OBJECT IDENTIFIER
  S3 ContentTypeDiffers     content-type isn't the type of the content
  S4 DigestAttr             message-digest doesn't occur once with one value, an OCTET STRING
  S5 DigestAlgorithm        the digest algorithm isn't known, or is SHA-1 without --sha1
  S6 DigestDiffers          message-digest isn't the digest of the content
  S7 UnknownSigner          no certificate listed as `signer` is the one that it names, in a period
                            that holds the time of one of its tokens that pass
  S8 NotNamed               its attributes name none of those certificates (RFC 2634, RFC 5035)
  S9 SignatureFails         its signature isn't good under the key of any of those
  S10 NoToken               it has no time-stamp token
and, if no token of a signer passes, for its first token `refused signer I token 1 RULE`:
  K1 FAULT, K1 NotSignedData  the token isn't a CMS SignedData in DER
  K2 ContentType            its content isn't a TSTInfo by its type
  K3 NoContent              it has no content
  K4 OneSigner              it doesn't have exactly one signer
  K5 RULE                   its signer fails this one of S1 to S6
  K6 FAULT                  its content isn't a TSTInfo in DER
  K7 CriticalExtension      its TSTInfo has a critical extension
  K8 ImprintAlgorithm       the imprint's algorithm isn't known, or is SHA-1 without --sha1
  K9 ImprintDiffers         the imprint isn't the digest of the signature
  K10 UnknownTsa            no certificate listed as `tsa` is the one that its signer names
  K11 NotNamed              its signer's attributes name none of those
  K12 Purpose               none of those is for time-stamping alone
  K13 Period                none of those is valid and trusted at its time
  K14 SignatureFails        its signature isn't good under the key of any of those
On the standard error (status 4):
  failed X1 ReadFailed      FILE or CONTENT can't be read
  failed X2 AskFailed       the verifier failed; an answers list never does
  failed X3 TooLong         what must be kept of FILE is longer than --buffer allows
  failed X5 ContentTooLong  CONTENT has more than 2^40 octets
No signature is computed here: ANSWERS is believed, and so is TRUST. Neither certification paths
nor revocation are checked. TRUST is opened, read and judged first, then ANSWERS; then CONTENT and
FILE are opened, FILE is read, and CONTENT is read last, both in pieces.

FILE may be a pipe, as /dev/stdin. Two of its elements are kept, each whole: the type of its content
(eContentType, RFC 5652 5.2, mostly 11 octets) and its signers with all attributes and tokens
(signerInfos, 5.1). A signer with a token has some 3,000 octets, more if the token holds many
certificates. The content isn't kept, nor are the certificates beside the signers.
Of a regular file some octets are kept at first, and more in another pass if they are too few, up
to the N of --buffer or 64 MiB; of a pipe, which is read once, up to N or 1 MiB. After X3, say
--buffer with an N of twice as many, up to 1073741824.

Of several FILEs there is a line for each, as the help of `cmsproof` says. If a list fails, its line
stands alone, and no FILE is opened.

With --evidence the file RECORD, an evidence record (RFC 4998), must show by some moment that FILE
existed, and CONTENT too if it is given. Then FILE is judged as one could judge it at that moment: a
digest algorithm is allowed if it holds then (S5, K8), so --sha1 has no place; and a stamp passes
only if it isn't later, under a certificate that is valid and trusted at that moment too (K13). So
stamps count that were good then, whatever ended since. TIME is theirs, as without RECORD. How
RECORD is judged, and what --end and --at say, is in the help of `evidence check`: DATA are FILE and
CONTENT.
Its lines name it: `malformed record FAULT`, `refused record V2 Encrypted`, `refused record chain C
stamp S RULE`. It stands beside one FILE: of several the line is `usage FILE` (status 3). ANSWERS is
made from what `questions` prints of FILE and what `evidence questions` prints of RECORD.
RECORD is opened after ANSWERS, then FILE and then CONTENT, which are read whole, once; none of the
two is opened after V1 and V2. Each may have up to 4294967301 octets, or the line is `failed size`.
Without --buffer up to 64 MiB of FILE are kept.

Examples:
  cmsproof check --trust trusted.txt --answers answers.txt --content document.pdf signed.p7s
  cmsproof check --trust trusted.txt --answers answers.txt --evidence record.ers signed.p7s
  zcat signed.p7s.gz | cmsproof check --trust trusted.txt --answers answers.txt /dev/stdin
  cmsproof check --trust trusted.txt --answers answers.txt signed.p7s stamped.p7s
  find . -name '*.p7s' -print0 | cmsproof check --trust trusted.txt --answers answers.txt \
--files-from - -0";

/// What `questions` prints.
pub const QUESTIONS_LINES: &str = "\
The text begins with the line `cmsproof questions 1`. Each other line is a question of five fields
with one space between, in hexadecimal, `-` if one is empty: the key (a SubjectPublicKeyInfo),
the digest algorithm and the signature algorithm (AlgorithmIdentifiers), the signed attributes
from their length octets on, before which the octet 31 was signed (RFC 5652 5.4), and the
signature. For each signer of FILE that has signed attributes there is a line for each entry of
the list in the role `signer` that its identifier matches; and then, for each of its time-stamp
tokens with one signer who has signed attributes, a line for each entry in the role `tsa` that
matches. A question that is asked twice occurs twice. The help of `migrate` says what a trust list
is.

If a verifier finds that the signature of a line is good, the line goes unchanged into an answers
list.

Of several FILEs there is one text, as the help of `cmsproof` says. The answers to it serve for all
of them.

Otherwise one line is printed:
  trust L1 Version at line 1      TRUST isn't a trust list (status 2): its first line is another,
  trust L2 Line at line N         line N is of another form,
  trust L5 Period at line N       its period ends before it begins, or
  trust L3 Certificate at line N  its octets aren't a certificate
  malformed FAULT                 FILE isn't a CMS ContentInfo in DER (status 2)
  refused Q2 NotSignedData        FILE holds another kind of CMS content (status 1)
  failed X3 TooLong               what must be kept of FILE is longer than --buffer allows (status 4)
TRUST is read and judged before FILE is opened. If the output fails, the line is `failed write -`
(status 4), and a beginning of the text was printed. No signature is checked.

Examples:
  cmsproof questions --trust trusted.txt signed.p7s > questions.txt
  cmsproof questions --trust trusted.txt signed.p7s stamped.p7s | cmsproof-verify > answers.txt";

/// What the commands about stamps are.
pub const STAMP_LINES: &str = "\
The commands are `stamp check` and `stamp questions`; `cmsproof stamp check --help` says what each
takes and prints.

Examples:
  cmsproof stamp questions --trust trusted.txt response.tsr > questions.txt
  cmsproof stamp check --trust trusted.txt --answers answers.txt response.tsr document.pdf";

/// What `stamp check` prints.
pub const STAMP_CHECK_LINES: &str = "\
STAMP is a time-stamp token (RFC 3161 2.4.2), or a time-stamp response with one, which is told by
its form; nothing else of a response counts. Prints `accepted TIME` if a trusted authority made the
token for the octets of DATA. TIME is the token's genTime, a GeneralizedTime in UTC, as
20240131235959Z: by then DATA existed.

TRUST is a trust list, as the help of `migrate` says, and only its entries `tsa` count; ANSWERS says
which signatures are good, as the help of `check` says. It is made from what `stamp questions`
prints.

Otherwise one line is printed. For the lists, as by `check`: `trust ..`, `answers ..` (status 2).
For STAMP and DATA, the first of these that fails (status 1):
  malformed FAULT           STAMP is no whole element of DER, or no response (status 2)
  refused P1 Status         the response's status is neither granted nor grantedWithMods
  refused P2 NoToken        the response has no token
  refused K1 FAULT, K1 NotSignedData  the token isn't a CMS SignedData in DER
  refused K2 ContentType    its content isn't a TSTInfo by its type
  refused K3 NoContent      it has no content
  refused K4 OneSigner      it doesn't have exactly one signer
  refused K5 RULE           its signer fails this one of S1 to S6
  refused K6 FAULT          its content isn't a TSTInfo in DER
  refused K7 CriticalExtension  its TSTInfo has a critical extension
  refused K8 ImprintAlgorithm   the imprint's algorithm isn't known, or is SHA-1 without --sha1
  refused K9 ImprintDiffers     the imprint isn't the digest of DATA
  refused K10 UnknownTsa    no certificate listed as `tsa` is the one that its signer names
  refused K11 NotNamed      its signer's attributes name none of those
  refused K12 Purpose       none of those is for time-stamping alone
  refused K13 Period        none of those is valid and listed at its time
  refused K14 SignatureFails    its signature isn't good under the key of any of those
DATA is opened and read only if the token passes K1 to K8. If it can't be read, the line is
`failed X1 ReadFailed`; if it has more than 2^40 octets, `failed X5 ContentTooLong`; both on the
standard error (status 4).

Examples:
  cmsproof stamp check --trust trusted.txt --answers answers.txt response.tsr document.pdf
  cmsproof stamp check --trust trusted.txt --answers answers.txt token.tok - < document.pdf";

/// What `stamp questions` prints.
pub const STAMP_QUESTIONS_LINES: &str = "\
The text is one of questions, as the help of `questions` says. If the token in STAMP has one signer,
who has signed attributes, there is a line for each entry of the list in the role `tsa` that its
identifier matches. STAMP is a token or a response, as the help of `stamp check` says.

Of several STAMPs there is one text, as the help of `cmsproof` says. The answers to it serve for all
of them.

Otherwise one line is printed: `trust ..` for the list, as by `questions`, and for STAMP:
  malformed FAULT           STAMP is no whole element of DER, or no response, or its token no
                            CMS ContentInfo (status 2)
  refused P1 Status         the response's status is neither granted nor grantedWithMods
  refused P2 NoToken        the response has no token
  refused Q2 NotSignedData  the token is another kind of CMS content
TRUST is read and judged before STAMP is opened. No signature is checked.

Examples:
  cmsproof stamp questions --trust trusted.txt response.tsr > questions.txt
  cmsproof stamp questions --trust trusted.txt *.tsr | cmsproof-verify > answers.txt";

/// What the commands about evidence records are.
pub const EVIDENCE_LINES: &str = "\
The commands are `evidence check`, `evidence questions`, `evidence request`, `evidence make`,
`evidence renew` and `evidence rehash`; `cmsproof evidence check --help` says what each takes and
prints. What is in a record `cmsproof show evidence` shows.

One time-stamp is enough for many files: `request` asks for one of the root of a hash tree over
their digests, and `make` makes a record of each file by it (RFC 4998 4.2). Another one renews them
all, before the first no longer serves: `renew` asks for it, and puts it into each record (5.2).
`rehash` does so before a digest algorithm no longer serves, by the files' digests by another one.

Examples:
  sha256sum *.pdf > SHA256SUMS
  cmsproof evidence request --cert SHA256SUMS request.tsq
  cmsproof match request.tsq response.tsr token.tok
  cmsproof evidence make --token token.tok --into records SHA256SUMS
  cmsproof evidence renew --request request.tsq records/*.ers
  cmsproof evidence rehash --alg sha512 --into records --request request.tsq SHA512SUMS
  cmsproof evidence questions --trust trusted.txt record.ers > questions.txt
  cmsproof evidence check --trust trusted.txt --answers answers.txt record.ers document.pdf";

/// What `evidence check` prints.
pub const EVIDENCE_CHECK_LINES: &str = "\
RECORD is an evidence record (RFC 4998, DER): chains of archive time-stamps, each of which has lists
of hash values, and a time-stamp token for their root. Prints `accepted TIME` if each of them holds:
its hash values cover each DATA, what it renews, or both (5.2, 5.3); a trusted authority made its
token for the root of its lists (4.3); and its algorithms and its authority still held at the end of
its use, which is the time of the next one. TIME is the time of the first one, a GeneralizedTime in
UTC, as 20240131235959Z: by then each DATA existed.

TRUST is a trust list, as the help of `migrate` says, and only its entries `tsa` count; ANSWERS says
which signatures are good, as the help of `check` says. It is made from what `evidence questions`
prints.

--end ALG=TIME says until when a digest algorithm holds, that moment included. ALG is a name of
--alg in the help of `request`, and TIME a GeneralizedTime in UTC, as 20160101000000Z. Without an
--end an algorithm holds at any time, but SHA-1 at none: it holds only if an --end is given for it.
If several are given for one algorithm, the earliest counts.
--at TIME names the end of the use of the last time-stamp, the moment at which it must still hold.
Without it that is its own time, and nothing is said of what held later, as today.
--whole refuses a record (W8) whose first list has other hash values than those of DATA, as that of
a group. It shows nothing against whoever holds the record: where no later chain covers its lists,
they can be rewritten for one file of the group.

The words are judged first: `usage end` if an --end isn't ALG=TIME, and then `usage at` if the TIME
of --at is none (status 3). Otherwise one line is printed. For the lists, as by `check`: `trust ..`,
`answers ..` (status 2). For RECORD, the first of these that fails (status 1):
  malformed FAULT           RECORD isn't an evidence record in DER (V1, status 2)
  refused V2 Encrypted      its data are encrypted
Then `refused chain C stamp S RULE`, for the time-stamp S of the chain C, both counted from 1: the
first that fails one of W1 to W5; if none does, the first that fails W6 or W7; and then W8.
  W1 Algorithm              its algorithm isn't known, or isn't that of the first of its chain
  W2 HashLength             a hash value isn't as long as a digest by its algorithm
  W3 NotCovered             its lists don't cover DATA, or what it renews
  W4 RULE                   its token fails this one of K1 to K14, which the help of `stamp check`
                            has, with the root in place of DATA; here SHA-1 is a matter of W6
  W5 Order                  it isn't later than the one before; or it is the last, and later than
                            the TIME of --at
  W6 Weak                   a digest algorithm doesn't hold at the end of its use: that of its
                            lists, of its token's imprint or of its token's signer
  W7 Lapsed                 no certificate under which its token passes is valid and listed then
  W8 Others                 with --whole: its first list has other hash values than those of DATA
TRUST is opened, read and judged first, then ANSWERS, then RECORD by V1 and V2. Then each DATA is
opened and read, once and in pieces, and then the time-stamps are judged. If a DATA can't be read,
the line is `failed X1 ReadFailed`; if it has more than 2^40 octets, `failed X5 ContentTooLong`;
both on the standard error (status 4).

Examples:
  cmsproof evidence check --trust trusted.txt --answers answers.txt record.ers document.pdf
  cmsproof evidence check --trust trusted.txt --answers answers.txt --end sha1=20160101000000Z \
--at 20261231235959Z record.ers document.pdf
  cmsproof evidence check --trust trusted.txt --answers answers.txt --whole record.ers *.pdf";

/// What `evidence questions` prints.
pub const EVIDENCE_QUESTIONS_LINES: &str = "\
The text is one of questions, as the help of `questions` says. For the token of each archive
time-stamp of RECORD, in their order, if it has one signer, who has signed attributes, there is a
line for each entry of the list in the role `tsa` that its identifier matches. RECORD is an evidence
record, as the help of `evidence check` says.

Of several RECORDs there is one text, as the help of `cmsproof` says. The answers to it serve for
all of them.

Otherwise one line is printed: `trust ..` for the list, as by `questions`, and for RECORD:
  malformed FAULT           RECORD isn't an evidence record in DER (V1, status 2)
  refused V2 Encrypted      its data are encrypted (status 1)
TRUST is read and judged before RECORD is opened. No signature is checked.

Examples:
  cmsproof evidence questions --trust trusted.txt record.ers > questions.txt
  cmsproof evidence questions --trust trusted.txt *.ers | cmsproof-verify > answers.txt";

/// What a request for a stamp of the root of a tree is made of.
pub const EVIDENCE_REQUEST_LINES: &str = "\
SUMS has a line for each file, as `sha256sum` and its kin write it, but not with their --tag: its
digest by the algorithm of --alg, in hexadecimal digits of either case, a space, a second space or
`*`, and its name. If the name has a backslash, a line feed or a carriage return, these stand as
`\\\\`, `\\n` and `\\r`, and a backslash begins the line. The files themselves are not opened.

The request is for the root of the hash tree over these digests (RFC 4998 4.2), whatever their
order. The different ones, in ascending order, are its leaves; each two neighbours of a level have a
node on the next one, where an odd one at the end stands alone. The root over one digest is that
digest. The token of the answer is the TOKEN of `evidence make`.

Otherwise one line is printed, and OUT isn't made:
  sums U1 Line at line N  line N of SUMS, counted from 1, is of another form (status 2)
  sums U2 Empty           SUMS has no line (status 2)
  refused U5 Name         a name is empty, begins with `/`, or has an octet 0, or between its
                          slashes an empty part, a part `.` or a part `..`; or, after U6, it
                          isn't UTF-8 (status 1)
  refused U6 NameTwice    two lines have one name (status 1)
The values are judged before SUMS is opened: `usage OUT`, if OUT is SUMS, `usage policy` or `usage
nonce` names the first that is wrong (status 3).

Examples:
  cmsproof evidence request --cert SHA256SUMS request.tsq
  sha512sum *.pdf | cmsproof evidence request --alg sha512 --policy 2.999.3 --nonce 05 --cert - \
request.tsq";

/// What `evidence make` writes and prints.
pub const EVIDENCE_MAKE_LINES: &str = "\
SUMS are those of the request, as the help of `evidence request` says. TOKEN is the token of the
answer to it, a CMS SignedData that holds a TSTInfo (RFC 3161 2.4.2), as `match` writes it. Without
--alg SUMS are by the algorithm of its imprint; or by SHA-256, if that is none of those that --alg
may name, or line 1 of SUMS is none by it.

For each line of SUMS, in their order, FOLDER/NAME.ers is made, with the NAME of that line: the
evidence record (RFC 4998, DER) of the octets that have this digest. It has the hash values which
lead from the digest to the root, and TOKEN. FOLDER must be there; the folders in a NAME, as in
maps/map.tif, are made. Nothing is printed.

Otherwise the first rule that fails is printed, and no record is made:
  sums U1 Line at line N     line N of SUMS, counted from 1, is of another form (status 2)
  sums U2 Empty              SUMS has no line (status 2)
  refused U5 Name            a name is empty, begins with `/`, or has an octet 0, or between its
                             slashes an empty part, a part `.` or a part `..`; or, after U6, it
                             isn't UTF-8 (status 1, and the others too)
  refused U6 NameTwice       two lines have one name
  refused U7 TokenMalformed  TOKEN isn't a CMS SignedData whose content is a TSTInfo, in DER
  refused U8 ImprintDiffers  the token isn't for the root: SUMS has other digests than those of the
                             request, or their algorithm is another
  refused U10 TooLong        a length would pass 4,294,967,295
SUMS and TOKEN are read before either is judged. No record is replaced by another: one that is there
with the same octets stays as it is, so a run that was cut off can be run again; one with others, as
a record that was renewed, ends the command. All places are tested before the first record is
written. Otherwise the line names the first file that can't be put (status 4), its octets beyond
printable ASCII as `\\x` and two digits:
  failed replace FOLDER/NAME.ers  it is there, and has other octets
  failed write FOLDER/NAME.ers    FOLDER isn't a folder, something else than a regular file stands in
                                  the file's place, or than a folder on the way to it, as a link;
                                  or the write fails, and then the records before it are there
No signature is checked: `evidence check` says whether a record is accepted.

Examples:
  cmsproof match request.tsq response.tsr token.tok
  cmsproof evidence make --token token.tok --into records SHA256SUMS
  sha512sum *.pdf | cmsproof evidence make --token token.tok --into records -";

/// What `evidence renew` writes and prints.
pub const EVIDENCE_RENEW_LINES: &str = "\
The last time-stamp of an evidence record (RFC 4998, DER) serves until its authority or its
algorithms end. Before that a new one is put behind it, in its chain (5.2). One is enough for all
RECORDs: it is for the root of the hash tree over the hash values of their last time-stamps, by the
digest algorithm of their last chains, which must be the same.

With --request the request for it is made, for no policy, without a nonce and without a certificate.
With --token, the token of the answer to it, as `match` writes it, each RECORD is replaced by a new
file with the record as it was and one archive time-stamp more: the hash values which lead from its
last time-stamp to the root, and TOKEN. Nothing is printed.

Otherwise the first rule that fails is printed, and nothing is written; of the RECORDs, in their
order, one of these:
  malformed FAULT            it isn't an evidence record in DER (status 2)
  refused U3 NoStamp         its data are encrypted, its last time-stamp states no time, or the
                             algorithm of its last chain isn't known (status 1, and the others too)
  refused U4 Mixed           its last chain is by another algorithm than those of the RECORDs before
then, with --token:
  refused U7 TokenMalformed  TOKEN isn't a CMS SignedData whose content is a TSTInfo, in DER
  refused U8 ImprintDiffers  the token isn't for the root: the request was for other RECORDs
  refused U9 Order           the token isn't later than the last time-stamp of a RECORD
  refused U10 TooLong        a length would pass 4,294,967,295
TOKEN is read first. A RECORD that TOKEN has renewed already stays as it is, and counts for the tree
as it was: a run that was cut off can be run again, with the same RECORDs. Each must be a regular
file, and no link; it keeps its permissions. All are tested before the first is replaced. Otherwise
the line names the first that can't be opened, read or replaced (status 4):
  failed write RECORD        it isn't a regular file, or can't be written; or the write fails, and
                             then those before it are renewed
  failed read RECORD         it can't be read; or it has changed since all were tested, and then
                             those before it are renewed
`usage request` says that neither or both of --request and --token are given, or that OUT is a
RECORD, and `usage RECORD` that with --token one of these is `-` (status 3).
No signature is checked: `evidence check` says whether a record is accepted.

Examples:
  cmsproof evidence renew --request request.tsq records/*.ers
  cmsproof match request.tsq response.tsr token.tok
  cmsproof evidence renew --token token.tok records/*.ers";

/// What `evidence rehash` writes and prints.
pub const EVIDENCE_REHASH_LINES: &str = "\
Before a digest algorithm of an evidence record (RFC 4998, DER) no longer serves, the record gets a
new chain by another one, over the data and the old chains (5.2). One time-stamp is enough for all:
SUMS has a line for each file, as the help of `evidence request` says, with its digest by the new
algorithm, that of --alg; its record is FOLDER/NAME.ers, with the NAME of that line. A line that
begins with a space has behind it the line of a further file of the record of the line before it.
The new chain covers the files of these lines, and no others.

The time-stamp is for the root of the hash tree over the leaves, one of each record. That of a line
is the digest of two joined digests: that of the line, and that of the record's chains as they
stand. It is the record's leaf; of several lines that is the digest of theirs, in ascending order
and joined (4.2).

A record of several files shows each of them as long as its chains do, so all must have a line: a
record whose first list has another number of hash values than lines is refused (U11). --alone says
that the others, if there are more, are not of files of the record but of neighbours in its tree, as
in the example of RFC 4998 4.2.

With --request the request for it is made, for no policy, without a nonce and without a certificate.
With --token, the token of the answer to it, as `match` writes it, each record is replaced by a new
file with the record as it was and one chain more, of one archive time-stamp: the hash values which
lead from its leaf to the root, and TOKEN. Nothing is printed.

Otherwise the first rule that fails is printed, and nothing is written:
  sums U1 Line at line N     line N of SUMS, counted from 1, is of another form (status 2)
  sums U2 Empty              SUMS has no line (status 2)
  refused U5 Name            a name is empty, begins with `/`, or has an octet 0, or between its
                             slashes an empty part, a part `.` or a part `..`; or, after U6, it
                             isn't UTF-8 (status 1, and the others too)
  refused U6 NameTwice       two lines have one name; U5 and U6 are not of lines behind a space
then of the records, in the order of the lines, one of these:
  malformed FAULT            it isn't an evidence record in DER (status 2)
  refused U3 NoStamp         its data are encrypted, or its last time-stamp states no time
  refused U11 Unnamed        without --alone: its first list has another number of hash values than
                             SUMS has lines for it
then, with --token:
  refused U7 TokenMalformed  TOKEN isn't a CMS SignedData whose content is a TSTInfo, in DER
  refused U8 ImprintDiffers  the token isn't for the root: the request was for other SUMS or records
  refused U9 Order           the token isn't later than the last time-stamp of a record
  refused U10 TooLong        a length would pass 4,294,967,295
SUMS is read first, then TOKEN, then the records. One that has its new chain by TOKEN already stays
as it is, and counts for the tree as it was: a run that was cut off can be run again, with the same
SUMS and TOKEN. All records are tested before the first is replaced; they keep their permissions.
Otherwise the line names the first that can't be opened, read or replaced (status 4), its octets
beyond printable ASCII as `\\x` and two digits:
  failed open FOLDER/NAME.ers   it isn't there, or it isn't a regular file, or something else than a
                                folder stands on the way to it, as a link
  failed write FOLDER/NAME.ers  it can't be replaced, or the write fails, and then those before it
                                have the new chain
  failed read FOLDER/NAME.ers   it can't be read; or it has changed since all were tested, and then
                                those before it have the new chain
`usage request` says that neither or both of --request and --token are given, or that OUT is SUMS or
a record (status 3). Neither a signature is checked, nor whether a record is for its file: `evidence
check` says that, and tells a record that was exchanged.

Examples:
  sha512sum *.pdf > SHA512SUMS
  sha512sum a.txt b.txt c.txt | sed '2,$s/^/ /' >> SHA512SUMS   # of a.txt.ers, which is of all three
  cmsproof evidence rehash --alg sha512 --into records --request request.tsq SHA512SUMS
  cmsproof match request.tsq response.tsr token.tok
  cmsproof evidence rehash --alg sha512 --into records --token token.tok SHA512SUMS";

/// What `attach` writes and prints.
pub const ATTACH_LINES: &str = "\
OUT is FILE with one attribute more among the unsigned ones of the signer N, counted from 1: the
time-stamp token, which is a CMS SignedData that holds a TSTInfo. It comes after those of FILE. All
else stays as it is, in its order; only the lengths around the token change. Nothing is printed.

Otherwise the first rule that fails is printed, and OUT isn't made:
  malformed FAULT           FILE isn't a CMS ContentInfo in DER (status 2)
  refused A1 NotSignedData  FILE holds another kind of CMS content (status 1, and the others too)
  refused A2 NoSuchSigner   FILE has no signer of this number
  refused A3 TokenMalformed TOKEN isn't a CMS SignedData whose content is a TSTInfo, in DER
  refused A4 ImprintDiffers the token isn't for the signature of this signer; SHA-1 is allowed
  refused A5 TooLong        a length would pass 4,294,967,295
TOKEN is opened and read first, then FILE, before either is judged. OUT is made once the new file
is complete in memory. If a write fails, the line is `failed write OUT` (status 4), and OUT stays as
it was; a device or pipe may have a beginning of the new file. No signature is checked.

Examples:
  cmsproof request --of signed.p7s --cert request.tsq
  cmsproof match request.tsq response.tsr token.tok
  cmsproof attach --signer 1 --token token.tok signed.p7s stamped.p7s";

/// What `compare` prints.
pub const COMPARE_LINES: &str = "\
Prints `same` if both signers name the same digest algorithm and signed the same octets, which are
their signed attributes (RFC 5652 5.4), and the contents are the same. Prints `different` if the
algorithms or the signed octets differ. Prints `collision` if those are the same but the contents
differ; the contents then have the same digest. The last two have status 1.

Otherwise it prints the first rule that fails. The rules of A come before those of B, whose lines
have `second` in place of `first`:
  malformed first FAULT          A isn't a CMS ContentInfo in DER (status 2)
  refused first E1 NotSignedData A holds another kind of CMS content (status 1, and the others too)
  refused first E2 NoSuchSigner  A has no signer of this number
  refused first E3 NoContent     A holds no content
  refused first E4 RULE          the signer fails this one of S1 to S6, which the help of `fit` has;
                                 SHA-1 is allowed
A and B are read before either is judged. No signature is checked: `same` says nothing about who
signed. The values of the signatures may differ, as when one signer signed twice.

Examples:
  cmsproof compare signed.p7s stamped.p7s
  cmsproof compare --second 2 signed.p7s both.p7s";

/// What `migrate` writes and prints.
pub const MIGRATE_LINES: &str = "\
A trust list is a text. Its first line is `cmsproof trust 1` or `cmsproof trust 2`. Each other
line of version 1 is `ROLE HEX`: ROLE is `signer`, or `tsa` for an authority, and HEX a
certificate in DER, in hexadecimal. In version 2 it is `ROLE FROM UNTIL HEX`: the certificate is
trusted from FROM until UNTIL, both included, each a GeneralizedTime in UTC, as 20240131235959Z,
or `-` if that end is open. Words have one space between them. Empty lines and lines that begin
with # have no meaning.

OUT is of version 2, with a line for each certificate in the order of LIST, and nothing else. Both
ends of a line of version 1 are open. Nothing is printed.

If LIST isn't a trust list, its first faulty line is printed with the first of these rules that the
line fails (status 2), N counting all lines from 1, and OUT isn't made:
  trust L1 Version at line 1      the first line is neither of the two
  trust L2 Line at line N         the line is of another form
  trust L5 Period at line N       both ends are given, and FROM is later than UNTIL
  trust L3 Certificate at line N  the octets are no certificate
The certificates are not checked.

Example:
  cmsproof migrate trusted.txt trusted-2.txt";

/// What the program does, at the top of its help.
pub const ABOUT: &str =
    "Makes requests for time-stamps (RFC 3161); shows what is in requests, responses, time-stamps,\n\
     certificates, CMS SignedData and evidence records (RFC 4998); says whether a content and its signed\n\
     attributes belong together, whether a response answers a request, by when the signatures of a file\n\
     existed, and whether two signatures sign the same; prints what a verifier must be asked about a\n\
     file; judges a time-stamp, or an evidence record, that stands beside files; makes and renews\n\
     evidence records; attaches time-stamp tokens; and brings trust lists to their newest version.";

/// What the commands about stamps do.
pub const STAMPS_ABOUT: &str =
    "Says by when a file existed, by a time-stamp token or response that stands beside it (RFC 3161).";

/// What the commands about evidence records do.
pub const EVIDENCE_ABOUT: &str =
    "Says by when files existed, by an evidence record that stands beside them (RFC 4998); and makes and renews such \
     records.";

// What each command does, at the top of its help.
pub const REQUEST_ABOUT: &str =
    "Makes a request for a time-stamp of a digest, or of a signature, and writes it into OUT.";

pub const SHOW_ABOUT: &str = "Shows what is in FILE, field by field.";

pub const CERTIFICATE_ABOUT: &str =
    "Shows what a checker looks at in the certificate that FILE holds in DER (RFC 5280).";

pub const FIT_ABOUT: &str =
    "Says whether the content and the signed attributes of each signer of the CMS SignedData in FILE belong \
     together (RFC 5652 5.4, 11).";

pub const MATCH_ABOUT: &str =
    "Says whether the response in RESPONSE answers the time-stamp request in REQUEST (RFC 3161 2.4.2), and \
     writes its token into TOKEN.";

pub const CHECK_ABOUT: &str =
    "Says by when each signature of the CMS SignedData in FILE existed, if the file is accepted.";

pub const QUESTIONS_ABOUT: &str =
    "Prints what a verifier must be asked of the signatures in the CMS SignedData in FILE.";

pub const ATTACH_ABOUT: &str =
    "Attaches the time-stamp token in TOKEN to a signer of the CMS SignedData in FILE (RFC 3161 appendix A), \
     and writes the new file into OUT.";

pub const COMPARE_ABOUT: &str =
    "Says whether a signature in the CMS SignedData in A and one in B sign the same (RFC 5652 5.4).";

pub const MIGRATE_ABOUT: &str =
    "Reads the trust list in LIST, of version 1 or 2, and writes it in version 2 into OUT.";

pub const STAMP_CHECK_ABOUT: &str =
    "Says by when the file DATA existed, if the time-stamp token in STAMP is accepted (RFC 3161 2.4.2).";

pub const STAMP_QUESTIONS_ABOUT: &str =
    "Prints what a verifier must be asked of the time-stamp token in STAMP.";

pub const EVIDENCE_CHECK_ABOUT: &str =
    "Says by when the files DATA existed, if the evidence record in RECORD is accepted for each of them \
     (RFC 4998 3.3, 5.3).";

pub const EVIDENCE_QUESTIONS_ABOUT: &str =
    "Prints what a verifier must be asked of the time-stamps in the evidence record in RECORD.";

pub const EVIDENCE_REQUEST_ABOUT: &str =
    "Makes a request for a time-stamp of the root of the hash tree over the digests in SUMS (RFC 4998 4.2), \
     and writes it into OUT.";

pub const EVIDENCE_MAKE_ABOUT: &str =
    "Makes an evidence record of each file in SUMS, by the time-stamp token in TOKEN (RFC 4998 4.2), and \
     writes it into FOLDER.";

pub const EVIDENCE_RENEW_ABOUT: &str =
    "Makes a request for one time-stamp by which the evidence records in the RECORDs are renewed, or renews \
     each of them by its token (RFC 4998 5.2).";

pub const EVIDENCE_REHASH_ABOUT: &str =
    "Makes a request for one time-stamp by which the evidence records of the files in SUMS get a new chain, \
     under another digest algorithm, or gives it to each of them by its token (RFC 4998 5.2).";
