ghost use Rattle.std.specs.Prelude.{◌≡◌, ◌≢◌, ◌↔◌, ◌++◌, ◌∷◌, [], None, Some, IsTrue, MatchOption, IfSome};
ghost use Rattle.std.specs.Option.{option_copied};
ghost use Rattle.evidence_types.specs.EvidenceValue.{chains_parts};
ghost use Rattle.check_evidence.specs.Places.{IsIn, chain_of, chain_number, stamp_number, last_of, following};
ghost use Rattle.judge_evidence.specs.Going.{IsFirstPlace, IsLastPlace, IsNextPlace, GoesOn, EndsAt, BeginsAt};
ghost use Rattle.judge_evidence.specs.PlaceParts.{before_end};

use evidence_types::{ArchiveTimeStamp, Chain, Chains};
use std::marker::Model;

/// The place of an archive time-stamp among the chains of an evidence record (RFC 4998 5.1), from which one goes on to
/// the next, in the order of the file. It allocates nothing.
///
/// Contracts see a `Place` (`check_evidence/specs/Places.antt`).
#[derive(Debug, Drop)]
pub struct StampPlace<'a> {
    // All chains.
    chains: Chains<'a>,
    // The chain of the archive time-stamp, and those after it.
    onward: Chains<'a>,
    // Those after it.
    later: Chains<'a>,
    // The whole chain.
    chain: Chain<'a>,
    stamp: ArchiveTimeStamp<'a>,
    // The one before it in the chain.
    previous: Option<ArchiveTimeStamp<'a>>,
    // Those after it in the chain.
    after: Chain<'a>,
}

impl<'a> Model for StampPlace<'a> {
    ghost use Rattle.check_evidence.specs.Places.{Place};
    ghost use Rattle.judge_evidence.specs.PlaceParts.{place_of, ArePlaceParts};

    ghost Value = { Place };

    ghost view = { λ p. place_of p.chains p.onward p.later p.chain p.stamp p.after };

    ghost invariant = { λ p. ArePlaceParts p.chains p.onward p.later p.chain p.previous p.stamp p.after };
}

impl<'a> StampPlace<'a> {
    // The first place of those chains with which all end.
    fn first_of(chains: Chains<'a>, onward: Chains<'a>) -> Option<StampPlace<'a>>
        requires { chains ≡ before_end chains onward ++ onward }
        ensures { MatchOption result (onward.entry ≡ [])
            (λ p. (p.earlier ≡ before_end chains.entry onward.entry) × (p.before ≡ [])
            × (onward.entry ≡ chain_of p ∷ p.later)) }
    {
        // So no chain is empty.
        let _octets = onward.bytes();
        let (chain, later) = onward.next()?;
        let Some((stamp, after)) = chain.next() else {
            unreachable!()
        };
        Some(StampPlace {
            chains,
            onward,
            later,
            chain,
            stamp,
            previous: None,
            after,
        })
    }

    /// The place of the first archive time-stamp.
    pub fn first(chains: &Chains<'a>) -> StampPlace<'a>
        // There is a chain.
        requires { chains.now ≢ [] }
        // It is a place in these chains.
        ensures there { IsIn chains.now result }
        // It is the first.
        ensures first { IsFirstPlace result }
        // None is before it.
        ensures begins { BeginsAt result }
    {
        match StampPlace::first_of(chains.again(), chains.again()) {
            Some(place) => place,
            None => unreachable!(),
        }
    }

    /// The place of the next archive time-stamp: in the same chain, or of the first of the next chain. `None` if this
    /// is the last.
    pub fn next(self) -> Option<StampPlace<'a>>
        // It comes right after this one, or this is the last.
        ensures next { MatchOption result (IsLastPlace self.entry) (IsNextPlace self.entry) }
        // It is a place in the same chains, and before it are this one and those before this, and no other.
        ensures goes_on { IfSome result (GoesOn self.entry) }
        // If this is the last, each place is before it, or is this.
        ensures ends { result ≡ None → EndsAt self.entry }
    {
        let StampPlace {
            chains,
            onward,
            later,
            chain,
            stamp,
            previous: _,
            after,
        } = self;
        match after.next() {
            Some((next, others)) => Some(StampPlace {
                chains,
                onward,
                later,
                chain,
                stamp: next,
                previous: Some(stamp),
                after: others,
            }),
            None => StampPlace::first_of(chains, later),
        }
    }

    /// The number of the chain, from 1.
    pub fn chain_number(&self) -> usize
        ensures { result ≡ chain_number self.now }
    {
        self.chains.len() - self.later.len()
    }

    /// The number of the archive time-stamp in its chain, from 1.
    pub fn stamp_number(&self) -> usize
        ensures { result ≡ stamp_number self.now }
    {
        self.chain.len() - self.after.len()
    }

    /// The archive time-stamp.
    pub fn stamp(&self) -> &ArchiveTimeStamp<'a>
        ensures { result.now ≡ self.now.stamp }
    {
        &self.stamp
    }

    /// The archive time-stamp before it in the same chain. `None` if it is the first of its chain.
    pub fn previous(&self) -> Option<&ArchiveTimeStamp<'a>>
        ensures { option_copied result ≡ last_of self.now.before }
    {
        self.previous.as_ref()
    }

    /// Whether it is the first of its chain.
    pub fn is_first_of_chain(&self) -> bool
        ensures { IsTrue result ↔ self.now.before ≡ [] }
    {
        self.stamp_number() == 1
    }

    /// Whether it is in the first chain.
    pub fn is_in_first_chain(&self) -> bool
        ensures { IsTrue result ↔ self.now.earlier ≡ [] }
    {
        self.chain_number() == 1
    }

    /// The archive time-stamp that follows, in the same chain or as the first of the next one. `None` if this is the
    /// last.
    pub fn following(&self) -> Option<ArchiveTimeStamp<'a>>
        ensures { result ≡ following self.now }
    {
        if let Some((stamp, _)) = self.after.next() {
            return Some(stamp);
        }
        // So no chain is empty.
        let _octets = self.later.bytes();
        let (chain, _) = self.later.next()?;
        match chain.next() {
            Some((stamp, _)) => Some(stamp),
            None => unreachable!(),
        }
    }

    /// The octets of the chains before its own, one after the other, as in the contents of the ArchiveTimeStampSequence
    /// that a later chain covers (RFC 4998 5.2).
    pub fn earlier_octets(&self) -> &'a [u8]
        ensures { result.now ≡ chains_parts self.now.earlier }
    {
        let all = self.chains.bytes();
        let others = self.onward.bytes();
        &all[..all.len() - others.len()]
    }
}
