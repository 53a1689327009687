ghost use Rattle.std.specs.Prelude.{◌≡◌, ◌<◌, ◌+◌, ◌^◌, ◌==◌, ◌∷◌, [], List, length, MatchOption, IfOk, IfErr, Ok};
ghost use Rattle.der_core.specs.Lists.{only};
ghost use Rattle.der_core.specs.Reading.{Gives, spot};
ghost use Rattle.der_lists.specs.Numbers.{of_number};
ghost use Rattle.cms_types.specs.CmsFaults.{IsSignersFault};
ghost use Rattle.cms_types.specs.SignedDataReading.{signers_in};
ghost use Rattle.cms_types.specs.SignedDataValue.{EncodesSigners, signers_parts};
ghost use Rattle.cms_types.specs.SignerValue.{SignerValue, BeginsBy};

use crate::signer::Signer;
use crate::signer_again::{first_digest_algorithm, first_signer};
use der_core::{AlgorithmIdentifier, Cursor, Fault};
use der_lists::{ListIter, ListView, scan_items};
use std::marker::Model;

/// Signers (RFC 5652 5.3), as a view of the octets of a list of them.
///
/// Contracts see the list of their `SignerValue`s in the order in which they occur.
#[derive(Debug, Drop)]
pub struct Signers<'a> {
    list: Cursor<'a>,
    // How many there are.
    count: usize,
}

impl<'a> Model for Signers<'a> {
    ghost use Rattle.std.specs.Prelude.{List};
    ghost use Rattle.der_core.specs.Reading.{within};
    ghost use Rattle.der_lists.specs.Items.{all_in, IsCounted};
    ghost use Rattle.cms_types.specs.SignerValue.{SignerValue};
    ghost use Rattle.cms_types.specs.SignerReading.{signer_in};

    ghost Value = { List SignerValue };

    ghost view = { λ s. all_in (within 0x30 signer_in) s.list };

    ghost invariant = { λ s. IsCounted (within 0x30 signer_in) s.list s.count };
}

impl<'a> Signers<'a> {
    // The signers from the cursor to the end of its body.
    pub(crate) fn read_list(list: Cursor<'a>) -> Result<Signers<'a>, Fault>
        ensures { Gives (λ s. s) result (signers_in list.entry) }
    {
        let count = scan_items::<Signer>(&list)?;
        Ok(Signers { list, count })
    }

    /// The signers that all of `octets` encode, one after the other, as in the contents of `signerInfos` (RFC 5652
    /// 5.1). The first octet is at position `at` of the input.
    ///
    /// Faults, the first that is found: at each signer those of `Cursor::expect` for a SEQUENCE, and in it those of its
    /// parts (RFC 5652 5.3).
    pub fn read(octets: &'a [u8], at: u64) -> Result<Signers<'a>, Fault>
        requires { at + length octets.now < 2 ^ 64 }
        // A value that is read is encoded by the octets.
        ensures found { IfOk result (λ ss. EncodesSigners octets.now ss) }
        // A value that the octets encode is read.
        ensures only { (ss : List SignerValue) → EncodesSigners octets.now ss → result ≡ Ok ss }
        // A fault that is reported is one that the octets have at this position.
        ensures fault { IfErr result (IsSignersFault at octets.now) }
        // Value and fault are those of the reading.
        ensures exact { Gives (λ s. s) result (signers_in (spot at octets.now)) }
    {
        let signers = Signers::read_list(Cursor::new(octets, at))?;
        Ok(signers)
    }

    /// The first signer and the others, or `None` if there is none.
    pub fn next(&self) -> Option<(Signer<'a>, Signers<'a>)>
        ensures { MatchOption result (self.now ≡ []) (λ x. self.now ≡ x.0 ∷ x.1) }
    {
        let (first, list) = first_signer(&self.list)?;
        Some((
            first,
            Signers {
                list,
                count: self.count - 1,
            },
        ))
    }

    /// The digest algorithm of the first signer, and the other signers, or `None` if there is none. The other parts of
    /// the signer are not read.
    pub fn next_digest_algorithm(&self) -> Option<(AlgorithmIdentifier<'a>, Signers<'a>)>
        // The digest algorithm of the first signer, and the others; `None` exactly if there is no signer.
        ensures { MatchOption result (self.now ≡ []) (λ x. BeginsBy self.now x.0 x.1) }
    {
        let (algorithm, list) = first_digest_algorithm(&self.list)?;
        let count = self.len() - 1;
        Some((algorithm, Signers { list, count }))
    }

    /// The signer of this number, counted from 1. `None` exactly if no signer has it: 0, or a number above how many
    /// there are.
    pub fn get(&self, number: u64) -> Option<Signer<'a>>
        ensures { result ≡ of_number self.now number }
    {
        let mut before = number.checked_sub(1)?;
        let mut left = self.again();
        while let Some((signer, others)) = left.next() {
            if before == 0 {
                return Some(signer);
            }
            before -= 1;
            left = others;
        }
        None
    }

    /// The one signer. `None` exactly if there is none or more than one.
    pub fn only(&self) -> Option<Signer<'a>>
        ensures { result ≡ only self.now }
    {
        let (signer, others) = self.next()?;
        if others.is_empty() {
            Some(signer)
        } else {
            None
        }
    }

    /// The same signers again.
    pub fn again(&self) -> Signers<'a>
        ensures { result ≡ self.now }
    {
        Signers {
            list: self.list.again(),
            count: self.count,
        }
    }

    /// The octets of the signers, one after the other, as in the contents of `signerInfos` (RFC 5652 5.1).
    pub fn bytes(&self) -> &'a [u8]
        ensures { result.now ≡ signers_parts self.now }
    {
        self.list.rest()
    }

    /// Whether there is none.
    pub fn is_empty(&self) -> bool
        ensures { result ≡ (length self.now == 0) }
    {
        self.len() == 0
    }

    /// How many there are.
    pub fn len(&self) -> usize
        ensures { result ≡ length self.now }
    {
        self.count
    }

    /// The signers, one after another.
    pub fn iter(&self) -> ListIter<Signers<'a>>
        ensures { result.left ≡ self.now }
    {
        ListIter { left: self.again() }
    }
}

impl<'a> ListView for Signers<'a> {
    type Item = Signer<'a>;

    ghost items = { λ s. s };

    fn first(&self) -> Option<(Signer<'a>, Signers<'a>)> {
        self.next()
    }
}
