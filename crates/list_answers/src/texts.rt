//! Lines of a text, and words of a line.
ghost use Rattle.std.specs.Prelude.{◌≡◌, ◌+◌, ◌==◌, ◌∷◌, [], length, MatchOption};
ghost use Rattle.std.specs.List.{position};
ghost use Rattle.list_answers.specs.Texts.{parts, trimmed, lines_of, words_of, is_silent, under};

use der_core::octets::is_same;
use std::marker::Model;

/// A line of a text with its number.
#[derive(Debug, Drop)]
pub struct Line<'a> {
    /// How many lines of the text are before it, and 1.
    pub number: usize,
    /// The line without its end.
    pub octets: &'a [u8],
}

impl<'a> Model for Line<'a> {
    ghost use Rattle.list_answers.specs.Texts.{NumberedLine};

    ghost Value = { NumberedLine };

    ghost view = { λ l. record { number = l.number; octets = l.octets.now } };
}

/// The lines of a text, from one of them on, that have a meaning: those that aren't empty and don't begin with `#`.
#[derive(Debug, Drop)]
pub struct Lines<'a> {
    before: usize,
    rest: Option<&'a [u8]>,
}

impl<'a> Model for Lines<'a> {
    ghost use Rattle.std.specs.Prelude.{◌+◌, ◌^◌, ◌<◌, List};
    ghost use Rattle.std.specs.Option.{option_copied};
    ghost use Rattle.list_answers.specs.Texts.{NumberedLine};
    ghost use Rattle.list_answers.specs.TextSteps.{lines_left, room_of};

    ghost Value = { List NumberedLine };

    ghost view = { λ l. lines_left l.before (option_copied l.rest) };

    ghost invariant = { λ l. l.before + room_of (option_copied l.rest) < 2 ^ 64 };
}

/// The words of a line, from one of them on: the octets between its spaces.
#[derive(Debug, Drop)]
pub struct Words<'a> {
    rest: Option<&'a [u8]>,
}

impl<'a> Model for Words<'a> {
    ghost use Rattle.std.specs.Prelude.{List, ℕ};
    ghost use Rattle.std.specs.Option.{option_copied};
    ghost use Rattle.list_answers.specs.TextSteps.{words_left};

    ghost Value = { List (List ℕ) };

    ghost view = { λ w. words_left (option_copied w.rest) };
}

// Where the first octet of this value is.
#[tactic(auto, using(crate::proofs::Cuts::first_place))]
fn place_of(octets: &[u8], at: u8) -> Option<usize>
    ensures { result ≡ position (λ b. b == at) octets.now }
{
    memchr::memchr(at, octets)
}

// The octets before the first octet of this value, and those after it if there is one.
#[tactic(auto, using(crate::proofs::Cuts::uncut, crate::proofs::Cuts::cut_there))]
fn cut(octets: &[u8], at: u8) -> (&[u8], Option<&[u8]>)
    ensures parts { MatchOption result.1 (parts at octets.now ≡ result.0.now ∷ [])
        (λ r. parts at octets.now ≡ result.0.now ∷ parts at r.now) }
    ensures len { MatchOption result.1 (length result.0.now ≡ length octets.now)
        (λ r. length result.0.now + 1 + length r.now ≡ length octets.now) }
{
    match place_of(octets, at) {
        None => (octets, None),
        Some(index) => (&octets[..index], Some(&octets[index + 1..])),
    }
}

// The line without the carriage return at its end.
fn trimmed(line: &[u8]) -> &[u8]
    ensures { result.now ≡ trimmed line.now }
{
    if !line.is_empty() && line[line.len() - 1] == b'\r' {
        &line[..line.len() - 1]
    } else {
        line
    }
}

fn is_silent(line: &[u8]) -> bool
    ensures { result ≡ is_silent line.now }
{
    line.is_empty() || line[0] == b'#'
}

impl<'a> Lines<'a> {
    /// The lines after the first one, if that is `first`.
    pub fn under(text: &'a [u8], first: &[u8]) -> Option<Lines<'a>>
        ensures { MatchOption result (under first.now (lines_of text.now) ≡ None)
            (λ ls. under first.now (lines_of text.now) ≡ Some ls) }
    {
        let (line, rest) = cut(text, b'\n');
        if is_same(trimmed(line), first) {
            Some(Lines { before: 1, rest })
        } else {
            None
        }
    }

    /// The same lines once more.
    pub fn again(&self) -> Lines<'a>
        ensures { result ≡ self.now }
    {
        Lines {
            before: self.before,
            rest: self.rest,
        }
    }

    /// The first of the lines, and the others.
    pub fn next(&self) -> Option<(Line<'a>, Lines<'a>)>
        ensures { MatchOption result (self.now ≡ []) (λ x. self.now ≡ x.0 ∷ x.1) }
    {
        let mut before = self.before;
        let mut rest = self.rest;
        while let Some(text) = rest {
            let (line, behind) = cut(text, b'\n');
            let octets = trimmed(line);
            before += 1;
            rest = behind;
            if !is_silent(octets) {
                let number = before;
                return Some((Line { number, octets }, Lines { before, rest }));
            }
        }
        None
    }
}

impl<'a> Words<'a> {
    /// The words of a line.
    pub fn of(line: &'a [u8]) -> Words<'a>
        ensures { result ≡ words_of line.now }
    {
        Words { rest: Some(line) }
    }

    /// Takes the first of the words.
    pub fn next(&mut self) -> Option<&'a [u8]>
        ensures { MatchOption result ((self.old ≡ []) × (self.new ≡ [])) (λ word. self.old ≡ word.now ∷ self.new) }
    {
        let (word, rest) = cut(self.rest?, b' ');
        self.rest = rest;
        Some(word)
    }
}
