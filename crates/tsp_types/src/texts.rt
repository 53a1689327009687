ghost use Rattle.std.specs.Prelude.{◌≡◌, ◌==◌, ◌∷◌, [], length, MatchOption};
ghost use Rattle.der_core.specs.Reading.{Gives};
ghost use Rattle.tsp_types.specs.ResponseReading.{texts_in};

use der_core::{Cursor, Fault};
use der_lists::{Item, ListIter, ListView, next_item, scan_items};
use std::marker::Model;

/// The identifier octet of a UTF8String (X.680 8.6).
const UTF8_STRING: u8 = 0x0c;

/// A text of a response (RFC 3161 2.4.2): the octets of a UTF8String, which may be any octets.
///
/// Contracts see these octets.
#[derive(Debug, Drop)]
pub struct Text<'a> {
    octets: &'a [u8],
}

impl<'a> Model for Text<'a> {
    ghost use Rattle.std.specs.Prelude.{List, ℕ};

    ghost Value = { List ℕ };

    ghost view = { λ t. t.octets.now };
}

impl<'a> Text<'a> {
    /// The octets of the text. They need not be UTF-8.
    pub fn bytes(&self) -> &'a [u8]
        ensures { result.now ≡ self.now }
    {
        self.octets
    }
}

impl<'a> Item<'a> for Text<'a> {
    ghost use Rattle.der_core.specs.Reading.{within, any_at};
    ghost use Rattle.der_lists.specs.Shorter.{within_shorter};

    ghost reading = { within 0x0c any_at };

    ghost shorter = { within_shorter 0x0c any_at };

    fn take(list: &mut Cursor<'a>) -> Result<Text<'a>, Fault> {
        let (octets, _) = list.contents(UTF8_STRING)?;
        Ok(Text { octets })
    }
}

/// The texts of a response (RFC 3161 2.4.2), as a view of the octets of a list of them.
///
/// Contracts see the list of their octets in the order in which they occur.
#[derive(Debug, Drop)]
pub struct Texts<'a> {
    list: Cursor<'a>,
    // How many there are.
    count: usize,
}

impl<'a> Model for Texts<'a> {
    ghost use Rattle.std.specs.Prelude.{List, ℕ};
    ghost use Rattle.der_core.specs.Reading.{within, any_at};
    ghost use Rattle.der_lists.specs.Items.{all_in, IsCounted};

    ghost Value = { List (List ℕ) };

    ghost view = { λ t. all_in (within 0x0c any_at) t.list };

    ghost invariant = { λ t. IsCounted (within 0x0c any_at) t.list t.count };
}

impl<'a> Texts<'a> {
    // The texts from the cursor to the end of its body.
    pub(crate) fn read(list: Cursor<'a>) -> Result<Texts<'a>, Fault>
        ensures { Gives (λ t. t) result (texts_in list.entry) }
    {
        let count = scan_items::<Text>(&list)?;
        Ok(Texts { list, count })
    }

    /// The first text and the others, or `None` if there is none.
    pub fn next(&self) -> Option<(Text<'a>, Texts<'a>)>
        ensures { MatchOption result (self.now ≡ []) (λ x. self.now ≡ x.0 ∷ x.1) }
    {
        let (first, list) = next_item::<Text>(&self.list)?;
        Some((
            first,
            Texts {
                list,
                count: self.count - 1,
            },
        ))
    }

    /// The same texts again.
    pub fn again(&self) -> Texts<'a>
        ensures { result ≡ self.now }
    {
        Texts {
            list: self.list.again(),
            count: self.count,
        }
    }

    /// Whether there is none.
    pub fn is_empty(&self) -> bool
        ensures { result ≡ (length self.now == 0) }
    {
        self.len() == 0
    }

    /// How many there are.
    pub fn len(&self) -> usize
        ensures { result ≡ length self.now }
    {
        self.count
    }

    /// The texts, one after another.
    pub fn iter(&self) -> ListIter<Texts<'a>>
        ensures { result.left ≡ self.now }
    {
        ListIter { left: self.again() }
    }
}

impl<'a> ListView for Texts<'a> {
    type Item = Text<'a>;

    ghost items = { λ t. t };

    fn first(&self) -> Option<(Text<'a>, Texts<'a>)> {
        self.next()
    }
}
