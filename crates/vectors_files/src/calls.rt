//! What calls say.
use crate::found::pass;
use crate::questioned::{tell_asked, tell_end, tell_questions};
use crate::sources::{left_of, source};
use crate::terms::Terms;
use cms_stream::listed_algorithms;
use cmsproof_api::{
    Accepted, Alg, Algs, Checker, Pass, Policy, Refused, Trust, Verifier, check, check_signer,
    check_stream, check_stream_by, fits,
};
use der_time::generalized_text;
use devices::{Fused, Pieces};
use lines_shown::show_signed;
use vectors::{Bad, Said, number_of};

/// A call, its octets, and the sources of them and of a content if one is handed in.
#[derive(Drop)]
struct Call<'d> {
    name: &'d str,
    rest: &'d str,
    octets: &'d [u8],
    file: Fused<Pieces<'d>>,
    content: Option<Fused<Pieces<'d>>>,
}

/// The name of a call, and what stands behind it.
fn parts_of(by: &str) -> (&str, &str) {
    by.split_once('/').unwrap_or((by, "9"))
}

/// How many octets sources hand out at most at a call.
fn most_of(said: &mut Said, name: &str, rest: &str) -> usize {
    match name {
        "signer" | "guess" => 9,
        _ => said.taken(number_of(rest), 9),
    }
}

impl<'r, 'a> Terms<'r, 'a> {
    /// What a call says of octets, in a buffer where it needs one: `check/N`, `signer/NUMBER`, `stream/N`,
    /// `guess/ALGORITHM` of `check_stream_by`, `fits/N`, `questions`, `asked/N` of `questions_stream`, `show`, `pass/N`
    /// of `Pass::open_stream`, or `listed/N`.
    /// N is how many octets sources hand out at most at a call, 9 without it. The device that fails passes so many
    /// calls on. After the line comes whether other questions were asked, if that is to be said; with a device that
    /// fails how often it failed; or how much of a content is left.
    pub fn line_of(
        &self,
        by: &str,
        octets: &[u8],
        room: &mut [u8],
        calls: u64,
    ) -> Result<String, Bad> {
        let mut said = Said::new(self.row)?;
        let (name, rest) = parts_of(by);
        let most = most_of(&mut said, name, rest);
        let mut call = Call {
            name,
            rest,
            octets,
            file: source(octets, most, self.passed_on("source", calls)),
            content: self.content(most, calls),
        };
        if self.expecting {
            self.tell_expecting(&mut said, &mut call, room);
        } else {
            self.tell_counting(&mut said, &mut call, room, calls);
        }
        said.end()
    }

    /// The source of the content, if one is handed in.
    fn content(&self, most: usize, calls: u64) -> Option<Fused<Pieces<'_>>> {
        match &self.content {
            Some(octets) => {
                let calls = self.passed_on("content", calls);
                Some(source(octets.as_slice(), most, calls))
            }
            None => None,
        }
    }

    /// How many calls a device passes on: so many, if it is the one that fails.
    fn passed_on(&self, device: &str, calls: u64) -> u64 {
        match self.row.value("fails") {
            Some(name) if name == device => calls,
            _ => u64::MAX,
        }
    }

    /// Says a line, and whether other questions were asked than are expected.
    fn tell_expecting(&self, said: &mut Said, call: &mut Call<'_>, room: &mut [u8]) {
        match self.expecting_verifier() {
            Ok(mut asks) => {
                self.answer(said, call, room, &mut asks);
                said.mark(",");
                said.word(if asks.surprised { "others" } else { "no other" });
                said.word("asked");
            }
            Err(bad) => said.refuse(bad),
        }
    }

    /// Says a line, and how often devices failed, or how many octets of a content are left.
    fn tell_counting(&self, said: &mut Said, call: &mut Call<'_>, room: &mut [u8], calls: u64) {
        match self.fused_verifier(self.passed_on("verifier", calls)) {
            Ok(mut verifier) => {
                self.answer(said, call, room, &mut verifier);
                self.tell_counts(said, call, verifier.failed);
            }
            Err(bad) => said.refuse(bad),
        }
    }

    fn tell_counts(&self, said: &mut Said, call: &mut Call<'_>, failed: u64) {
        if self.row.value("fails").is_some() {
            said.shown(&call.failed().saturating_add(failed));
        } else if let Some(content) = &self.content {
            said.mark(",");
            said.shown(&call.left(content.len()));
            said.word("left");
        }
    }

    /// Says the line of a call.
    fn answer<V: Verifier>(
        &self,
        said: &mut Said,
        call: &mut Call<'_>,
        room: &mut [u8],
        verifier: &mut V,
    ) {
        match call.name {
            "check" => tell_verdict(said, call.check(&self.trust, &self.policy, verifier)),
            "signer" => {
                let number = said.taken(number_of(call.rest), 0) as u64;
                let verdict = call.check_signer(&self.trust, &self.policy, verifier, number);
                tell_verdict(said, verdict);
            }
            "stream" => {
                let verdict = call.check_stream(room, &self.trust, &self.policy, verifier);
                tell_verdict(said, verdict);
            }
            "guess" => self.tell_guess(said, call, room, verifier),
            _ => self.tell_alone(said, call, room),
        }
    }

    fn tell_guess<V: Verifier>(
        &self,
        said: &mut Said,
        call: &mut Call<'_>,
        room: &mut [u8],
        verifier: &mut V,
    ) {
        let guess = said.taken(algorithm(call.rest), Algs::none());
        let mut passing = Pass::new();
        let mut checker = Checker::of(&self.trust, self.policy);
        match call.check_by(&mut passing, &mut checker, room, verifier, guess) {
            Some(verdict) => tell_verdict(said, verdict),
            None => said.word("nothing"),
        }
    }

    /// Says the line of a call that asks no verifier. Questions that aren't the row's `lines` are said by how many
    /// octets they have.
    fn tell_alone(&self, said: &mut Said, call: &mut Call<'_>, room: &mut [u8]) {
        let (row, trust) = (self.row, &self.trust);
        match call.name {
            "fits" => tell_fits(said, call.fits(&self.policy)),
            "questions" => tell_questions(said, row, call.octets, trust),
            "asked" => tell_asked(said, row, &mut call.file, room, trust),
            "pass" => pass(said, row, &mut call.file, room),
            "show" => tell_shown(said, call.octets),
            "listed" => tell_listed(said, listed_algorithms(&mut call.file)),
            _ => said.refuse(Bad::Text("a call that isn't known")),
        }
    }
}

// Each call is a function of its own, because its contract makes each step after it slow to check.
impl Call<'_> {
    fn check<V: Verifier>(
        &mut self,
        trust: &Trust,
        policy: &Policy,
        verifier: &mut V,
    ) -> Result<Accepted, Refused> {
        check(self.octets, &mut self.content, trust, policy, verifier)
    }

    fn check_signer<V: Verifier>(
        &mut self,
        trust: &Trust,
        policy: &Policy,
        verifier: &mut V,
        number: u64,
    ) -> Result<Accepted, Refused> {
        let content = &mut self.content;
        check_signer(self.octets, content, trust, policy, verifier, number)
    }

    fn check_stream<V: Verifier>(
        &mut self,
        room: &mut [u8],
        trust: &Trust,
        policy: &Policy,
        verifier: &mut V,
    ) -> Result<Accepted, Refused> {
        let (file, content) = (&mut self.file, &mut self.content);
        check_stream(file, content, room, trust, policy, verifier)
    }

    fn check_by<V: Verifier>(
        &mut self,
        passing: &mut Pass,
        checker: &mut Checker<'_>,
        room: &mut [u8],
        verifier: &mut V,
        algorithms: Algs,
    ) -> Option<Result<Accepted, Refused>> {
        let (file, content) = (&mut self.file, &mut self.content);
        check_stream_by(passing, checker, file, content, room, verifier, algorithms)
    }

    fn fits(&mut self, policy: &Policy) -> Result<usize, Refused> {
        fits(self.octets, &mut self.content, policy)
    }
}

impl Call<'_> {
    /// How often the sources failed.
    fn failed(&self) -> u64 {
        match &self.content {
            Some(content) => self.file.failed.saturating_add(content.failed),
            None => self.file.failed,
        }
    }

    /// How many octets are left of a content that had so many.
    fn left(&mut self, length: usize) -> usize {
        match &mut self.content {
            Some(content) => left_of(content, length),
            None => 0,
        }
    }
}

fn tell_verdict(said: &mut Said, verdict: Result<Accepted, Refused>) {
    match verdict {
        Ok(accepted) => {
            said.word("accepted");
            said.word(generalized_text(accepted.moment).as_str());
        }
        Err(refused) => said.shown(&refused),
    }
}

fn tell_fits(said: &mut Said, fits: Result<usize, Refused>) {
    match fits {
        Ok(count) => said.value("fits", &count),
        Err(refused) => said.shown(&refused),
    }
}

fn tell_shown(said: &mut Said, octets: &[u8]) {
    let shown = show_signed::text_of(said.alloc, octets).map(|_| ());
    tell_end(said, "shown", shown);
}

fn tell_listed(said: &mut Said, found: Algs) {
    said.word(if found == Algs::none() {
        "none"
    } else if found == Algs::none().with(Alg::Sha256) {
        "sha256"
    } else {
        "others"
    });
}

/// An algorithm alone, or none.
fn algorithm(name: &str) -> Result<Algs, Bad> {
    match name {
        "none" => Ok(Algs::none()),
        "sha256" => Ok(Algs::none().with(Alg::Sha256)),
        "sha512" => Ok(Algs::none().with(Alg::Sha512)),
        _ => Err(Bad::Text("an algorithm that isn't known")),
    }
}
