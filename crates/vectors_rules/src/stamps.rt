//! What is said of tokens: for what was stamped, for a digest, and for what a source gives.
use crate::checks::policy_in;
use crate::lists::{answers_in, trust_in};
use check_fit::{Policy, TokenRefused};
use check_verdict::{Accepted, Checker, Stamp, check_stamp, check_token, judge_stamp_of};
use der_time::generalized_text;
use devices::{Slice, Source};
use digests::{Alg, Digest, digest};
use list_answers::{Answers, FusedVerifier};
use trust_lists::Trust;
use vectors::{Bad, Row, Said};
use vectors_doubles::Failing;

/// A token, and by what it is judged.
#[derive(Drop)]
struct Judged<'a> {
    row: &'a Row<'a>,
    token: &'a [u8],
    trust: &'a Trust,
    policy: Policy,
}

/// The verifier of a row, which fails after so many questions.
fn verifier_in(row: &Row<'_>) -> Result<FusedVerifier<Answers>, Bad> {
    let asks = row.number("asks")? as u64;
    Ok(FusedVerifier::new(answers_in(row, "answers")?, asks))
}

/// The moment of a token that passes, the rule that it fails first, or what failed.
fn words_of(row: &Row<'_>, answer: Result<Accepted, TokenRefused>) -> Result<String, Bad> {
    match answer {
        Ok(accepted) => row.word(generalized_text(accepted.moment).as_str()),
        Err(refused) => row.shown(&refused),
    }
}

impl Judged<'_> {
    /// What is said for what was stamped.
    fn of_octets(&self, stamped: &[u8]) -> Result<String, Bad> {
        let mut verifier = verifier_in(self.row)?;
        let answer = check_token(self.token, stamped, self.trust, &self.policy, &mut verifier);
        words_of(self.row, answer)
    }

    /// What is said for a digest.
    fn of_digest(&self, due: &Digest) -> Result<String, Bad> {
        let mut verifier = verifier_in(self.row)?;
        let answer = check_stamp(self.token, due, self.trust, &self.policy, &mut verifier);
        words_of(self.row, answer)
    }

    /// What is said for the digest of what was stamped, by the algorithm that the token states.
    fn of_its_digest(&self, stamped: &[u8]) -> Result<String, Bad> {
        match Stamp::read(self.policy, self.token) {
            Ok(stamp) => self.of_digest(&digest(stamp.alg(), stamped)),
            Err(rule) => self.row.shown(&rule),
        }
    }

    /// What is said for what a source gives.
    fn of_source<S: Source>(&self, source: &mut S) -> Result<String, Bad> {
        match Stamp::read(self.policy, self.token) {
            Ok(stamp) => self.of_stamp(&stamp, source),
            Err(rule) => self.row.shown(&rule),
        }
    }

    fn of_stamp<S: Source>(&self, stamp: &Stamp<'_>, source: &mut S) -> Result<String, Bad> {
        let mut verifier = verifier_in(self.row)?;
        let mut checker = Checker::of(self.trust, self.policy);
        let answer = judge_stamp_of(stamp, source, &mut checker, &mut verifier);
        words_of(self.row, answer)
    }

    /// Says each of these, or one if they are the same.
    fn tell_each(&self, said: &mut Said, stamped: &[u8]) {
        let alloc = self.row.alloc;
        let octets = said.taken(self.of_octets(stamped), String::new(alloc));
        let digest = said.taken(self.of_its_digest(stamped), String::new(alloc));
        let source = self.of_source(&mut Slice::new(stamped));
        let source = said.taken(source, String::new(alloc));
        said.word(octets.as_str());
        if octets != digest || octets != source {
            said.mark(",");
            said.word(digest.as_str());
            said.mark(",");
            said.word(source.as_str());
        }
    }
}

/// What is said of a token for what was stamped; and, if that is something else, for the digest of that, and for a
/// source that gives it.
pub fn token(said: &mut Said, row: &Row<'_>) {
    let token = given!(said, row.octets("of"));
    let stamped = given!(said, row.octets("stamps"));
    let trust = given!(said, trust_in(row, "trust"));
    let judged = Judged {
        row,
        token: &token,
        trust: &trust,
        policy: policy_in(said, row),
    };
    judged.tell_each(said, &stamped);
}

/// What is said of a token for a digest that is given.
pub fn stamp(said: &mut Said, row: &Row<'_>) {
    let token = given!(said, row.octets("of"));
    let due = given!(said, digest_in(row));
    let trust = given!(said, trust_in(row, "trust"));
    let judged = Judged {
        row,
        token: &token,
        trust: &trust,
        policy: Policy::with_sha1(false),
    };
    tell(said, judged.of_digest(&due));
}

fn digest_in(row: &Row<'_>) -> Result<Digest, Bad> {
    let octets = row.octets("digest")?;
    digest_by(row.text("alg")?, octets.as_slice())
}

fn digest_by(name: &str, octets: &[u8]) -> Result<Digest, Bad> {
    let alg = Alg::named(name).ok_or(Bad::Text("no algorithm"))?;
    Digest::given(alg, octets).ok_or(Bad::Text("no digest"))
}

/// What is said of a token for what a source gives that fails at its end.
pub fn cut(said: &mut Said, row: &Row<'_>) {
    let token = given!(said, row.octets("of"));
    let stamped = given!(said, row.octets("stamps"));
    let trust = given!(said, trust_in(row, "trust"));
    let judged = Judged {
        row,
        token: &token,
        trust: &trust,
        policy: Policy::with_sha1(false),
    };
    tell(
        said,
        judged.of_source(&mut Failing::new(Slice::new(&stamped))),
    );
}

fn tell(said: &mut Said, words: Result<String, Bad>) {
    match words {
        Ok(words) => said.word(words.as_str()),
        Err(bad) => said.refuse(bad),
    }
}
