ghost use Rattle.std.specs.Prelude.{◌≡◌, ◌==◌, ◌∷◌, [], length, MatchOption};
ghost use Rattle.std.specs.Option.{option_copied};
ghost use Rattle.cms_types.specs.Tokens.{tokens_of};

use crate::attributes::Attributes;
use crate::oids::TIME_STAMP_TOKEN;
use der_core::octets::is_same;
use der_lists::{ListIter, ListView, Opaque, Opaques};
use std::marker::Model;

/// The time-stamp tokens of a signer (RFC 3161 appendix A): all values of all its unsigned attributes of the type
/// id-aa-timeStampToken, in the order in which they occur. Their contents are not read here.
///
/// Contracts see the list of their octets.
#[derive(Debug, Drop)]
pub struct Tokens<'a> {
    // The tokens of one attribute that are left, and the attributes after it.
    current: Opaques<'a>,
    left: Attributes<'a>,
}

impl<'a> Model for Tokens<'a> {
    ghost use Rattle.std.specs.Prelude.{List, ℕ, ◌++◌};
    ghost use Rattle.cms_types.specs.Tokens.{tokens_in};

    ghost Value = { List (List ℕ) };

    ghost view = { λ t. t.current ++ tokens_in t.left };
}

impl<'a> Tokens<'a> {
    // The tokens among unsigned attributes.
    pub(crate) fn of(attributes: Option<&Attributes<'a>>) -> Tokens<'a>
        ensures { result ≡ tokens_of (option_copied attributes.entry) }
    {
        let left = match attributes {
            Some(attributes) => attributes.again(),
            None => Attributes::empty(),
        };
        Tokens {
            current: Opaques::empty(),
            left,
        }
    }

    /// The first token and the others, or `None` if there is none.
    pub fn next(&self) -> Option<(Opaque<'a>, Tokens<'a>)>
        ensures { MatchOption result (self.now ≡ []) (λ x. self.now ≡ x.0 ∷ x.1) }
    {
        let mut current = self.current.again();
        let mut left = self.left.again();
        loop {
            if let Some((token, others)) = current.next() {
                return Some((
                    token,
                    Tokens {
                        current: others,
                        left,
                    },
                ));
            }
            let (attribute, after) = left.next()?;
            if is_same(attribute.id().bytes(), &TIME_STAMP_TOKEN) {
                current = attribute.values().again();
            }
            left = after;
        }
    }

    /// The same tokens again.
    pub fn again(&self) -> Tokens<'a>
        ensures { result ≡ self.now }
    {
        Tokens {
            current: self.current.again(),
            left: self.left.again(),
        }
    }

    /// Whether there is none.
    pub fn is_empty(&self) -> bool
        ensures { result ≡ (length self.now == 0) }
    {
        self.next().is_none()
    }

    /// How many there are.
    pub fn len(&self) -> usize
        ensures { result ≡ length self.now }
    {
        // There are no more tokens than octets, so the count fits its type.
        let most = self.current.bytes().len() + self.left.bytes().len();
        let mut count = 0;
        let mut left = self.again();
        while let Some((_first, others)) = left.next() {
            prove!(count < most);
            count += 1;
            left = others;
        }
        count
    }

    /// The tokens, one after another.
    pub fn iter(&self) -> ListIter<Tokens<'a>>
        ensures { result.left ≡ self.now }
    {
        ListIter { left: self.again() }
    }
}

impl<'a> ListView for Tokens<'a> {
    type Item = Opaque<'a>;

    ghost items = { λ t. t };

    fn first(&self) -> Option<(Opaque<'a>, Tokens<'a>)> {
        self.next()
    }
}
