ghost use Rattle.std.specs.Prelude.{◌≡◌, ◌≢◌, ◌+◌, ◌<◌, ◌≤◌, ℕ, length, slice_index, nat_lt, true, false, IsTrue, IfOk};
ghost use Rattle.std.specs.Prelude.{IfErr};
ghost use Rattle.der_core.specs.Contents.{are_subidentifiers, is_oid};
ghost use Rattle.der_core.specs.Reading.{Gives, fault, spot, oid_in};

use crate::fault::{Fault, Kind};
use std::marker::Model;
use std::simd::prelude::*;

/// The contents of an OBJECT IDENTIFIER (X.690 8.19), kept unchanged: one or more subidentifiers in base 128, each
/// ending at the first octet below 80 (hexadecimal) and none beginning with 80. Contracts see the list of these octets.
#[derive(Debug, Drop)]
pub struct Oid<'a> {
    octets: &'a [u8],
}

impl<'a> Model for Oid<'a> {
    ghost use Rattle.std.specs.Prelude.{◌≡◌, ℕ, List, true};
    ghost use Rattle.der_core.specs.Contents.{is_oid};

    ghost Value = { List ℕ };

    ghost view = { λ o. o.octets.now };

    ghost invariant = { λ o. is_oid o.octets.now ≡ true };
}

// Whether the body is subidentifiers to its end, the first of them begun before it or not.
#[cold]
#[inline(never)]
fn are_more_subidentifiers(mut begins: bool, body: &[u8]) -> bool
    ensures { result ≡ are_subidentifiers begins body.now }
{
    for b in body {
        if begins && *b == 128 {
            return false;
        }
        begins = *b < 128;
    }
    begins
}

// Whether none of the eight octets at the front is 80 (hexadecimal).
#[inline(always)]
fn eight_without(body: &[u8]) -> bool
    requires { 8 ≤ length body.now }
    ensures { IsTrue result → (k : ℕ) → k < 8 → slice_index body.now k ≢ 128 }
{
    let octets = u8x8::from_slice(body);
    octets.simd_eq(u8x8::splat(128)).to_bitmask() == 0
}

// Whether none of the four octets from a place on is.
#[inline(always)]
fn four_without(body: &[u8], at: usize) -> bool
    requires { at + 4 ≤ length body.now }
    ensures { IsTrue result → (k : ℕ) → k < 4 → slice_index body.now (at + k) ≢ 128 }
{
    let octets = u8x4::from_slice(&body[at..]);
    octets.simd_eq(u8x4::splat(128)).to_bitmask() == 0
}

// Whether these are one to seven octets, and none of them is 80 (hexadecimal).
#[inline(always)]
fn few_without(body: &[u8]) -> bool
    ensures { IsTrue result → (k : ℕ) → k < length body.now → slice_index body.now k ≢ 128 }
{
    match body.len() {
        1 => body[0] != 128,
        2 => body[0] != 128 && body[1] != 128,
        3 => body[0] != 128 && body[1] != 128 && body[2] != 128,
        4..=7 => four_without(body, 0) && four_without(body, body.len() - 4),
        _ => false,
    }
}

// Whether the body is subidentifiers to its end. Few bodies have an octet 80 (hexadecimal): of octets without it only
// the last one matters, so that eight are passed at once.
#[inline(never)]
fn are_subidentifiers(body: &[u8]) -> bool
    ensures { result ≡ are_subidentifiers true body.now }
{
    let mut begins = true;
    let mut left = body;
    while 8 <= left.len() && eight_without(left) {
        let (_, others) = left.split_at(8);
        begins = left[7] < 128;
        left = others;
    }
    match left {
        [] => begins,
        [.., last] if few_without(left) => *last < 128,
        _ => are_more_subidentifiers(begins, left),
    }
}

impl<'a> Oid<'a> {
    /// The OBJECT IDENTIFIER whose contents are `body`, octets that start at position `at` of the input.
    ///
    /// Faults: `Oid` at `at`, exactly when they are not the contents of an OBJECT IDENTIFIER.
    pub fn read(body: &'a [u8], at: u64) -> Result<Oid<'a>, Fault>
        // Returns these octets, which are the contents of an OBJECT IDENTIFIER.
        ensures found { IfOk result (λ o. (o ≡ body.now) × (is_oid body.now ≡ true)) }
        // The fault is `Oid` at `at`, and the octets are no contents of an OBJECT IDENTIFIER.
        ensures fault { IfErr result (λ f. (f ≡ fault Kind.Oid at) × (is_oid body.now ≡ false)) }
        // Returns the value or the fault that the reading of this type gives.
        ensures exact { Gives (λ o. o) result (oid_in (spot at body.now)) }
    {
        if !body.is_empty() && are_subidentifiers(body) {
            Ok(Oid { octets: body })
        } else {
            Err(Fault::new(Kind::Oid, at))
        }
    }

    /// The contents octets.
    pub fn bytes(&self) -> &'a [u8]
        // Returns the contents.
        ensures octets { result.now ≡ self.now }
        // They are the contents of an OBJECT IDENTIFIER.
        ensures formed { is_oid self.now ≡ true }
    {
        self.octets
    }

    /// The same OBJECT IDENTIFIER again.
    pub fn again(&self) -> Oid<'a>
        ensures { result ≡ self.now }
    {
        Oid {
            octets: self.octets,
        }
    }
}
