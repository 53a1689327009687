ghost use Rattle.std.specs.Prelude.{◌≡◌, ◌==◌, ◌∷◌, [], length, MatchOption};
ghost use Rattle.der_core.specs.Reading.{Gives};
ghost use Rattle.cert_types.specs.DistinctExtensions.{distinct_in};
ghost use Rattle.cert_types.specs.ExtensionReading.{extensions_in};

use crate::distinct::scan_distinct;
use crate::extension::Extension;
use der_core::{Cursor, Fault};
use der_lists::{ListIter, ListView, next_item, scan_items};
use std::marker::Model;

/// Extensions (RFC 5280 4.2), as a view of the octets of a list of them.
///
/// Contracts see the list of their `ExtensionValue`s in the order in which they occur.
#[derive(Debug, Drop)]
pub struct Extensions<'a> {
    list: Cursor<'a>,
    // How many there are.
    count: usize,
}

impl<'a> Model for Extensions<'a> {
    ghost use Rattle.std.specs.Prelude.{List};
    ghost use Rattle.der_core.specs.Reading.{within};
    ghost use Rattle.der_lists.specs.Items.{all_in, IsCounted};
    ghost use Rattle.cert_types.specs.ExtensionValue.{ExtensionValue};
    ghost use Rattle.cert_types.specs.ExtensionReading.{extension_in};

    ghost Value = { List ExtensionValue };

    ghost view = { λ e. all_in (within 0x30 extension_in) e.list };

    ghost invariant = { λ e. IsCounted (within 0x30 extension_in) e.list e.count };
}

impl<'a> Extensions<'a> {
    /// The extensions from the cursor to the end of its body. Each of them is read.
    ///
    /// Faults: at each element those of `Cursor::expect` for a SEQUENCE, and in it those of its parts.
    // Extensions ::= SEQUENCE SIZE (1..MAX) OF Extension; this profile reads an empty list too
    pub fn read(list: Cursor<'a>) -> Result<Extensions<'a>, Fault>
        // Returns the list or the fault that the reading of extensions gives.
        ensures { Gives (λ e. e) result (extensions_in list.entry) }
    {
        let count = scan_items::<Extension>(&list)?;
        Ok(Extensions { list, count })
    }

    /// The extensions of a certificate, from the cursor to the end of its body. Each of them is read.
    ///
    /// Faults: those of `read`, and `Value` at a second subjectKeyIdentifier or a second extendedKeyUsage (RFC 5280
    /// 4.2).
    pub(crate) fn read_distinct(list: Cursor<'a>) -> Result<Extensions<'a>, Fault>
        ensures { Gives (λ e. e) result (distinct_in list.entry) }
    {
        let count = scan_distinct(&list)?;
        Ok(Extensions { list, count })
    }

    /// The first extension and the others, or `None` if there is none.
    pub fn next(&self) -> Option<(Extension<'a>, Extensions<'a>)>
        ensures { MatchOption result (self.now ≡ []) (λ x. self.now ≡ x.0 ∷ x.1) }
    {
        let (first, list) = next_item::<Extension>(&self.list)?;
        Some((
            first,
            Extensions {
                list,
                count: self.count - 1,
            },
        ))
    }

    /// The same extensions again.
    pub fn again(&self) -> Extensions<'a>
        ensures { result ≡ self.now }
    {
        Extensions {
            list: self.list.again(),
            count: self.count,
        }
    }

    /// Whether there is none.
    pub fn is_empty(&self) -> bool
        ensures { result ≡ (length self.now == 0) }
    {
        self.len() == 0
    }

    /// How many there are.
    pub fn len(&self) -> usize
        ensures { result ≡ length self.now }
    {
        self.count
    }

    /// The extensions, one after another.
    pub fn iter(&self) -> ListIter<Extensions<'a>>
        ensures { result.left ≡ self.now }
    {
        ListIter { left: self.again() }
    }
}

impl<'a> ListView for Extensions<'a> {
    type Item = Extension<'a>;

    ghost items = { λ e. e };

    fn first(&self) -> Option<(Extension<'a>, Extensions<'a>)> {
        self.next()
    }
}
