ghost use Rattle.std.specs.Prelude.{◌≡◌, ◌↔◌, ◌+◌, ◌^◌, ◌<◌, ◌++◌, ◌==◌, ℕ, List, [], length, false, option_map, Ok};
ghost use Rattle.std.specs.Prelude.{Err};
ghost use Rattle.std.specs.Prelude.{IfOk, IfErr, IfSome, IsErr, IsSomeAnd, MatchOption, OnErr, IsOk};
ghost use Rattle.der_core.specs.Reading.{Gives, Moves, Spot, spot, fault, next_at, expect_at, optional_at, enter_at};
ghost use Rattle.der_core.specs.Reading.{end_at, none_at};
ghost use Rattle.der_core.specs.Standing.{IsTaken, IsFaultAt, IsFaultOfOne, IsFaultOfOptional, Enters};
ghost use Rattle.der_core.specs.Element.{el, has_tag, IsElement, IsBytes};
ghost use Rattle.der_core.specs.Seen.{seen};

use crate::element::Element;
use crate::fault::{Fault, Kind};
use crate::length::{length_of, stated_length};
use crate::octets::{has_tag, is_tag};
use std::marker::Model;

/// A place in a body of elements: a position, and the octets from there to the end of the body.
///
/// Contracts see a cursor as a `Spot` (`specs/Reading.antt`): `pos` counts octets from the first octet of the input,
/// `rest` is what is left of the body. No call copies octets or allocates, and a call that reports a fault leaves the
/// cursor where it was.
#[derive(Debug, Drop)]
pub struct Cursor<'a> {
    rest: &'a [u8],
    at: u64,
}

impl<'a> Model for Cursor<'a> {
    ghost use Rattle.std.specs.Prelude.{◌+◌, ◌^◌, ◌<◌, length};
    ghost use Rattle.der_core.specs.Reading.{Spot, spot};
    ghost use Rattle.der_core.specs.Element.{IsBytes};

    ghost Value = { Spot };

    ghost view = { λ c. spot c.at c.rest.now };

    ghost invariant = { λ c. (c.at + length c.rest.now < 2 ^ 64) × IsBytes c.rest.now };
}

// The fault of the octets here, where no element can be taken.
#[cold]
#[inline(never)]
#[tactic(auto, unfolding(crate::specs::Reading::next_at))]
fn fault_here(rest: &[u8], at: u64) -> Fault
    requires room { at + length rest.now < 2 ^ 64 }
    requires faulty { IsErr (next_at (spot at rest.now)) }
    ensures { next_at (spot at rest.now) ≡ Err result }
{
    match rest {
        [] => Fault::new(Kind::End, at),
        [tag, after @ ..] => {
            if !is_tag(*tag) {
                return Fault::new(Kind::HighTag, at);
            }
            match length_of(at + 1, after) {
                Ok(_) => Fault::new(Kind::Overrun, at),
                Err(fault) => fault,
            }
        }
    }
}

// The fault where an identifier is due that is not here.
#[cold]
#[inline(never)]
#[tactic(auto, unfolding(crate::specs::Reading::expect_at, crate::specs::Reading::next_at))]
fn tag_fault(rest: &[u8], at: u64) -> Fault
    ensures { (tag : ℕ) → has_tag tag rest.now ≡ false → expect_at tag (spot at rest.now) ≡ Err result }
{
    match rest {
        [] => Fault::new(Kind::End, at),
        [first, ..] if is_tag(*first) => Fault::new(Kind::Tag, at),
        _ => Fault::new(Kind::HighTag, at),
    }
}

impl<'a> Cursor<'a> {
    /// A cursor at the front of `bytes`, whose first octet is at position `base` of the input.
    pub fn new(bytes: &'a [u8], base: u64) -> Cursor<'a>
        requires { base + length bytes.now < 2 ^ 64 }
        ensures { result ≡ spot base bytes.now }
    {
        Cursor {
            rest: bytes,
            at: base,
        }
    }

    // Takes the element here, unless the octets have a fault.
    #[inline]
    #[tactic(auto, unfolding(crate::specs::Reading::next_at))]
    fn take_element(&mut self) -> Option<Element<'a>>
        ensures { MatchOption result (IsErr (next_at self.old) × (self.new ≡ self.old))
            (λ e. next_at self.old ≡ Ok (seen e, self.new)) }
    {
        match self.rest {
            [tag, after @ ..] if is_tag(*tag) => {
                let at = self.at;
                let (len, from_body) = stated_length(at + 1, after)?;
                if from_body.len() < len {
                    return None;
                }
                let (body, rest) = from_body.split_at(len);
                let count = self.rest.len() - rest.len();
                let (whole, _) = self.rest.split_at(count);
                self.rest = rest;
                self.at = at + count as u64;
                Some(Element {
                    tag: *tag,
                    body,
                    whole,
                })
            }
            _ => None,
        }
    }

    #[inline]
    fn next_element(&mut self) -> Result<Element<'a>, Fault>
        ensures { Moves seen result self.old self.new (next_at self.old) }
    {
        match self.take_element() {
            Some(element) => Ok(element),
            None => Err(fault_here(self.rest, self.at)),
        }
    }

    /// Takes the element at the cursor (X.690 8.1, 10.1).
    ///
    /// Faults: `End` if the body ends here or in the length octets, `HighTag` at an octet that is not an identifier,
    /// `Indefinite` and `LengthForm` at the first length octet, `Overrun` at the element.
    #[inline]
    pub fn next(&mut self) -> Result<Element<'a>, Fault>
        // What is taken is at the cursor.
        ensures found { IfOk result (λ e. IsTaken self.old (seen e) self.new) }
        // An element at the cursor is taken, for any octets that follow it.
        ensures only { (t : ℕ) (b r : List ℕ) → IsElement t b → self.old.rest ≡ el t b ++ r
            → IfOk result (λ e. (e.tag ≡ t) × (e.body.now ≡ b) × (self.new.rest ≡ r)) × IsOk result }
        // The fault is one of the octets here, in every grammar that demands an element here.
        ensures fault { IfErr result (λ f. IsFaultAt self.old f) }
        // After a fault the cursor is where it was.
        ensures stays { OnErr result (self.new ≡ self.old) }
        // Which fault is reported.
        ensures exact { Moves seen result self.old self.new (next_at self.old) }
    {
        // Named for the proof.
        let _rest = self.rest;
        self.next_element()
    }

    #[tactic(auto, unfolding(crate::specs::Reading::expect_at))]
    #[inline]
    fn expect_element(&mut self, tag: u8) -> Result<Element<'a>, Fault>
        ensures { Moves seen result self.old self.new (expect_at tag self.old) }
    {
        match self.rest {
            [first, ..] if *first == tag => self.next_element(),
            _ => Err(tag_fault(self.rest, self.at)),
        }
    }

    /// Takes the element at the cursor, which must have the identifier `tag`.
    ///
    /// Faults: those of `next`, and `Tag` at an element with another identifier.
    #[inline]
    pub fn expect(&mut self, tag: u8) -> Result<Element<'a>, Fault>
        // What is taken is at the cursor.
        ensures found { IfOk result (λ e. (e.tag ≡ tag) × IsTaken self.old (seen e) self.new) }
        // An element at the cursor is taken, for any octets that follow it.
        ensures only { (b r : List ℕ) → IsElement tag b → self.old.rest ≡ el tag b ++ r
            → IfOk result (λ e. (e.body.now ≡ b) × (self.new.rest ≡ r)) × IsOk result }
        // The fault is one of the octets here, in every grammar in which such an element is due here.
        ensures fault { IfErr result (λ f. IsFaultOfOne tag self.old f) }
        // After a fault the cursor is where it was.
        ensures stays { OnErr result (self.new ≡ self.old) }
        // Which fault is reported.
        ensures exact { Moves seen result self.old self.new (expect_at tag self.old) }
    {
        // Named for the proof.
        let _rest = self.rest;
        self.expect_element(tag)
    }

    /// Whether the octet at the cursor is the identifier `tag`.
    pub fn has(&self, tag: u8) -> bool
        ensures { result ≡ has_tag tag self.now.rest }
    {
        has_tag(self.rest, tag)
    }

    #[tactic(auto, unfolding(crate::specs::Reading::optional_at))]
    #[inline]
    fn optional_element(&mut self, tag: u8) -> Result<Option<Element<'a>>, Fault>
        ensures { Moves (option_map seen) result self.old self.new (optional_at tag self.old) }
    {
        if !self.has(tag) {
            return Ok(None);
        }
        let element = self.next_element()?;
        Ok(Some(element))
    }

    /// Takes the element at the cursor if it has the identifier `tag`. Returns `None` exactly at another octet or at
    /// the end of the body.
    ///
    /// Faults: those of `next` at an element with that identifier.
    #[inline]
    pub fn optional(&mut self, tag: u8) -> Result<Option<Element<'a>>, Fault>
        // `None` is returned exactly when this identifier is not at the cursor.
        ensures none { (result ≡ Ok None) ↔ (has_tag tag self.old.rest ≡ false) }
        // What is taken is at the cursor.
        ensures found { IfOk result (λ o. IfSome o (λ e. (e.tag ≡ tag) × IsTaken self.old (seen e) self.new)) }
        // An element at the cursor is taken, for any octets that follow it.
        ensures only { (b r : List ℕ) → IsElement tag b → self.old.rest ≡ el tag b ++ r
            → IfOk result (λ o. IsSomeAnd o (λ e. (e.body.now ≡ b) × (self.new.rest ≡ r))) × IsOk result }
        // The fault is one of the octets here, in every grammar in which such an element is due here and may be absent.
        ensures fault { IfErr result (λ f. IsFaultOfOptional tag self.old f) }
        // After a fault the cursor is where it was.
        ensures stays { OnErr result (self.new ≡ self.old) }
        // After `None` the cursor is where it was.
        ensures stays_at_none { result ≡ Ok None → self.new ≡ self.old }
        // Which fault is reported.
        ensures exact { Moves (option_map seen) result self.old self.new (optional_at tag self.old) }
    {
        // Named for the proof.
        let _rest = self.rest;
        self.optional_element(tag)
    }

    /// A cursor at the same place as this one.
    pub fn again(&self) -> Cursor<'a>
        ensures { result ≡ self.now }
    {
        Cursor {
            rest: self.rest,
            at: self.at,
        }
    }

    #[tactic(auto, unfolding(crate::specs::Reading::enter_at))]
    #[inline]
    fn open_element(&mut self, tag: u8) -> Result<(Element<'a>, Cursor<'a>), Fault>
        ensures moves { Moves (λ x. x.1) result self.old self.new (enter_at tag self.old) }
        ensures whole { IfOk result (λ x. x.0.whole.now ≡ el x.0.tag x.1.rest) }
        ensures tag { IfOk result (λ x. x.0.tag ≡ tag) }
    {
        let element = self.expect(tag)?;
        Ok((
            element,
            Cursor {
                rest: element.body,
                at: self.at - element.body.len() as u64,
            },
        ))
    }

    /// Takes the element at the cursor, which must have the identifier `tag`, and returns it and a cursor at the front
    /// of its contents.
    ///
    /// Faults: those of `expect`.
    #[inline]
    pub fn open(&mut self, tag: u8) -> Result<(Element<'a>, Cursor<'a>), Fault>
        // What is opened is at the cursor.
        ensures found { IfOk result (λ x. Enters tag self.old x.1 self.new) }
        // Returns the whole element of this identifier and these contents.
        ensures whole { IfOk result (λ x. x.0.whole.now ≡ el tag x.1.rest) }
        // The fault is one of the octets here, in every grammar in which such an element is due here.
        ensures fault { IfErr result (λ f. IsFaultOfOne tag self.old f) }
        // After a fault the cursor is where it was.
        ensures stays { OnErr result (self.new ≡ self.old) }
        // Which fault is reported.
        ensures exact { Moves (λ x. x.1) result self.old self.new (enter_at tag self.old) }
    {
        // Named for the proof.
        let _rest = self.rest;
        self.open_element(tag)
    }

    /// Takes the element at the cursor, which must have the identifier `tag`, and returns a cursor at the front of its
    /// contents.
    ///
    /// Faults: those of `expect`.
    #[inline]
    pub fn enter(&mut self, tag: u8) -> Result<Cursor<'a>, Fault>
        // What is entered is at the cursor.
        ensures found { IfOk result (λ c. Enters tag self.old c self.new) }
        // The fault is one of the octets here, in every grammar in which such an element is due here.
        ensures fault { IfErr result (λ f. IsFaultOfOne tag self.old f) }
        // After a fault the cursor is where it was.
        ensures stays { OnErr result (self.new ≡ self.old) }
        // Which fault is reported.
        ensures exact { Moves (λ c. c) result self.old self.new (enter_at tag self.old) }
    {
        let (_, inside) = self.open(tag)?;
        Ok(inside)
    }

    /// Takes the element at the cursor, which must have the identifier `tag`, and returns its contents and the position
    /// of the first of them.
    ///
    /// Faults: those of `expect`.
    #[inline]
    pub fn contents(&mut self, tag: u8) -> Result<(&'a [u8], u64), Fault>
        // Returns the value or the fault that its reading gives; after a fault the cursor has not moved.
        ensures { Moves (λ x. spot x.1 x.0.now) result self.old self.new (enter_at tag self.old) }
    {
        let inside = self.enter(tag)?;
        Ok((inside.rest, inside.at))
    }

    /// Checks that the body ends here.
    ///
    /// Faults: `Trailing` here, if an octet follows.
    #[tactic(auto, unfolding(crate::specs::Reading::end_at))]
    pub fn end(&self) -> Result<(), Fault>
        // Succeeds exactly if no octet follows.
        ensures at_the_end { IsOk result ↔ (self.now.rest ≡ []) }
        // The fault is `Trailing` at the cursor.
        ensures fault { IfErr result (λ f. f ≡ fault Kind.Trailing self.now.pos) }
        // Returns what the reading of an end gives.
        ensures exact { Gives (λ u. tt) result (end_at self.now) }
    {
        if self.rest.is_empty() {
            Ok(())
        } else {
            Err(Fault::new(Kind::Trailing, self.at))
        }
    }

    /// Checks that the body ends here, after a last part that may be absent and is absent: any other identifier is one
    /// that is not allowed.
    ///
    /// Faults: `Tag` at an identifier, `HighTag` at another octet.
    #[tactic(auto, unfolding(crate::specs::Reading::none_at))]
    pub fn none(&self) -> Result<(), Fault>
        // Succeeds exactly if no octet follows.
        ensures at_the_end { IsOk result ↔ (self.now.rest ≡ []) }
        // Returns what the reading of an absent last part gives.
        ensures exact { Gives (λ u. tt) result (none_at self.now) }
    {
        match self.rest {
            [] => Ok(()),
            [first, ..] if is_tag(*first) => Err(Fault::new(Kind::Tag, self.at)),
            _ => Err(Fault::new(Kind::HighTag, self.at)),
        }
    }

    /// The octets from here to the end of the body.
    pub fn rest(&self) -> &'a [u8]
        // Returns the octets that are left.
        ensures rest { result.now ≡ self.now.rest }
        // They are octets.
        ensures octets { IsBytes self.now.rest }
    {
        self.rest
    }

    /// The position of the cursor, counted from the first octet of the input.
    pub fn position(&self) -> u64
        ensures { result ≡ self.now.pos }
    {
        self.at
    }

    /// Whether the body ends here.
    pub fn is_empty(&self) -> bool
        ensures { result ≡ (length self.now.rest == 0) }
    {
        self.rest.is_empty()
    }
}
