//! Each list of a library, counted and item by item, and lists and elements alone.
use cert_types::{Extension, Extensions};
use cms_types::{Attribute, Attributes, Signer, Signers, Tokens};
use der_core::{AlgorithmIdentifier, Cursor, Fault};
use der_lists::{AlgorithmIdentifiers, ListIter, ListView, Opaque, Opaques};
use tsp_types::{Text, Texts};
use vectors::{Bad, Row, Said};

/// A list of a library.
pub trait Listed: ListView {
    /// How many items it has, if its `len`, that of `again`, a `for` and `is_empty` agree on it.
    fn count(&self) -> Option<usize>;

    /// Says an item.
    fn tell(said: &mut Said, item: &Self::Item);
}

/// The number of items, as `Listed::count` says it.
macro_rules! counted {
    ($list:expr) => {{
        let (count, again, met) = ($list.len(), $list.again().len(), met($list.iter()));
        let agree = again == count && met == count && $list.is_empty() == (count == 0);
        if agree { Some(count) } else { None }
    }};
}

impl Listed for Opaques<'_> {
    fn count(&self) -> Option<usize> {
        counted!(self)
    }

    fn tell(said: &mut Said, item: &Opaque<'_>) {
        said.octets(item.whole());
    }
}

impl Listed for Tokens<'_> {
    fn count(&self) -> Option<usize> {
        counted!(self)
    }

    fn tell(said: &mut Said, item: &Opaque<'_>) {
        said.octets(item.whole());
    }
}

impl Listed for Texts<'_> {
    fn count(&self) -> Option<usize> {
        counted!(self)
    }

    fn tell(said: &mut Said, item: &Text<'_>) {
        said.octets(item.bytes());
    }
}

impl Listed for AlgorithmIdentifiers<'_> {
    fn count(&self) -> Option<usize> {
        counted!(self)
    }

    fn tell(said: &mut Said, item: &AlgorithmIdentifier<'_>) {
        said.algorithm("", item);
    }
}

/// Its version, and the one that the standard asks for.
impl Listed for Signers<'_> {
    fn count(&self) -> Option<usize> {
        counted!(self)
    }

    fn tell(said: &mut Said, item: &Signer<'_>) {
        said.shown(&item.version());
        said.shown(&item.standard_version());
    }
}

impl Listed for Attributes<'_> {
    fn count(&self) -> Option<usize> {
        counted!(self)
    }

    fn tell(said: &mut Said, item: &Attribute<'_>) {
        said.part("type", item.id().bytes());
        tell_list(said, "values", item.values());
    }
}

impl Listed for Extensions<'_> {
    fn count(&self) -> Option<usize> {
        counted!(self)
    }

    fn tell(said: &mut Said, item: &Extension<'_>) {
        said.part("id", item.id().bytes());
        said.flag("critical", item.critical());
        said.part("value", item.value());
    }
}

/// How many items a `for` meets.
fn met<L: ListView>(items: ListIter<L>) -> usize {
    let mut count = 0usize;
    for _item in items {
        count = count.wrapping_add(1);
    }
    count
}

/// Says the name of a list, how many items it has, and each of them. What is left after an item is counted, too.
pub fn tell_list<L: Listed>(said: &mut Said, name: &str, list: &L) {
    let Some(count) = list.count() else {
        return said.refuse(Bad::Text("a list that is counted differently"));
    };
    said.value(name, &count);
    let mut next = list.first();
    for n in 0..count {
        let Some((item, others)) = next else {
            return said.refuse(Bad::Text("an item that is missing"));
        };
        L::tell(said, &item);
        if others.count() != Some(count.wrapping_sub(n).wrapping_sub(1)) {
            return said.refuse(Bad::Text("items left that are counted differently"));
        }
        next = others.first();
    }
}

/// Says a list that may be absent.
pub fn tell_maybe<L: Listed>(said: &mut Said, name: &str, list: Option<&L>) {
    match list {
        Some(list) => tell_list(said, name, list),
        None => said.maybe(name, None),
    }
}

/// Says a list that was read, or the fault.
fn tell_read<L: Listed>(said: &mut Said, name: &str, read: Result<L, Fault>) {
    match read {
        Ok(list) => tell_list(said, name, &list),
        Err(fault) => said.shown(&fault),
    }
}

/// The position of the first octet, `at`.
pub fn place(said: &mut Said, row: &Row<'_>) -> u32 {
    let at = said.taken(row.number("at"), 0);
    let at = u32::try_from(at).map_err(|_| Bad::Text("a position that is too far"));
    said.taken(at, 0)
}

/// `elements of at`, `ordered_elements of at`, `tagged_elements of at tags`, `algorithms of at`, `signers of at` (the
/// contents of signerInfos alone), `element of at` (one alone).
pub fn alone(said: &mut Said, row: &Row<'_>, octets: &[u8]) {
    let tags = said.given_if_any(row, "tags");
    let at = place(said, row) as u64;
    let body = Cursor::new(octets, at);
    match row.kind {
        "elements" => tell_elements(said, Opaques::read(body)),
        "ordered_elements" => tell_elements(said, Opaques::read_ordered(body)),
        "tagged_elements" => tell_elements(said, Opaques::read_tagged(body, tags.as_slice())),
        "element" => tell_element(said, Opaque::read(body)),
        "algorithms" => tell_read(said, "algorithms", AlgorithmIdentifiers::read(body)),
        "signers" => tell_read(said, "signers", Signers::read(octets, at)),
        _ => said.refuse(Bad::Text("a kind of row that is not known")),
    }
}

/// `no_elements`: the empty list.
pub fn no_elements(said: &mut Said) {
    tell_elements(said, Ok(Opaques::empty()));
}

fn tell_elements(said: &mut Said, read: Result<Opaques<'_>, Fault>) {
    match read {
        Ok(list) => {
            tell_list(said, "elements", &list);
            said.part("bytes", list.bytes());
        }
        Err(fault) => said.shown(&fault),
    }
}

fn tell_element(said: &mut Said, read: Result<Opaque<'_>, Fault>) {
    match read {
        Ok(element) => said.part("element", element.whole()),
        Err(fault) => said.shown(&fault),
    }
}
