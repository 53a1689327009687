//! Digests of messages in one piece, in many and from sources, by all algorithms and by some.
use crate::names::named;
use crate::told::found;
use devices::{FromRead, Pieces, Slice, Source};
use digests::Alg::{self, Sha1, Sha224, Sha256, Sha384, Sha512, Sha512_224, Sha512_256};
use digests::{Algs, All, ContentFault, Digest, Wanted, digest};
use vectors::{Bad, Row, Said};
use vectors_doubles::Failing;

/// All algorithms, in the order of each table of digests.
const ALGS: [Alg; 7] = [Sha1, Sha224, Sha256, Sha384, Sha512, Sha512_224, Sha512_256];

/// The set of the algorithms whose bits are in the number, each added twice; 127 is the set of all.
fn set_of(number: usize) -> Result<Algs, Bad> {
    let mut set = Algs::none();
    for i in 0..7 {
        if number >> i & 1 == 1 {
            set = set.with(ALGS[i]).with(ALGS[i]);
        }
    }
    for i in 0..7 {
        if set.has(ALGS[i]) != (number >> i & 1 == 1) {
            return Err(Bad::Text("a set of other algorithms"));
        }
    }
    Ok(set)
}

/// Hashers of all algorithms, which read if `by_all`, and of those of a set, which read else.
#[derive(Drop)]
struct Both {
    by_all: bool,
    all: All,
    set: Algs,
    wanted: Wanted,
}

impl Both {
    fn new(set: Algs) -> Both {
        Both {
            by_all: false,
            all: All::new(),
            set,
            wanted: Wanted::new(set),
        }
    }

    fn feed(&mut self, piece: &[u8]) {
        self.all.update(piece);
        self.wanted.update(piece);
    }

    /// Says how many octets hashers read from the source of a message, or why not; the others are fed the message.
    fn read<S: Source>(&mut self, said: &mut Said, message: &[u8], source: &mut S) {
        let read = if self.by_all {
            self.wanted.update(message);
            self.all.read_from(source)
        } else {
            self.all.update(message);
            self.wanted.read_from(source)
        };
        tell_count(said, read);
    }

    /// Whether the digests are those in the table, by all algorithms, joined; else says the first that is not.
    fn agree(self, said: &mut Said, table: &[u8]) -> bool {
        let (all, wanted) = (self.all.finish(), self.wanted.finish());
        let mut at: usize = 0;
        for alg in ALGS {
            let end = at.saturating_add(alg.length());
            let octets = table.get(at..end).unwrap_or(b"");
            let is_right = match wanted.of(alg) {
                Some(one) => self.set.has(alg) && one.bytes() == octets,
                None => !self.set.has(alg),
            };
            if !is_right || all.of(alg).bytes() != octets {
                said.word(alg.name());
                said.word("differs");
                return false;
            }
            at = end;
        }
        if at != table.len() {
            said.refuse(Bad::Text("a table with too many digests"));
        }
        true
    }

    /// Whether both give this digest.
    fn give(self, one: Digest) -> bool {
        self.all.finish().of(one.alg()) == one && self.wanted.finish().of(one.alg()) == Some(one)
    }
}

/// Says how many octets were read, or the name of the fault.
fn tell_count(said: &mut Said, read: Result<u64, ContentFault>) {
    match read {
        Ok(count) => said.shown(&count),
        Err(ContentFault::ReadFailed) => said.word("ReadFailed"),
        Err(ContentFault::ContentTooLong) => said.word("ContentTooLong"),
    }
}

/// Whether hashers that are fed a message in two pieces, and hashers that read it, give this digest.
fn ways_agree(message: &[u8], one: Digest) -> bool {
    let set = Algs::none().with(one.alg());
    let (mut fed, mut read) = (Both::new(set), Both::new(set));
    let (first, second) = message.split_at(message.len() / 3);
    fed.feed(first);
    fed.feed(second);
    read.all.read_from(&mut Slice::new(message)).is_ok()
        && read.wanted.read_from(&mut Slice::new(message)).is_ok()
        && fed.give(one)
        && read.give(one)
}

/// `digest by=NAME of=MESSAGE is=OCTETS,..` answers the digest's algorithm, and of each of the octets whether it is
/// them.
pub fn digests(said: &mut Said, row: &Row<'_>) {
    let message = said.given(row, "of");
    match named(said.taken(row.text("by"), "")) {
        Ok(alg) => tell_digest(said, row, message.as_slice(), alg),
        Err(bad) => said.refuse(bad),
    }
}

fn tell_digest(said: &mut Said, row: &Row<'_>, message: &[u8], alg: Alg) {
    let one = digest(alg, message);
    if !ways_agree(message, one) {
        return said.word("ways to hash that differ");
    }
    said.word(one.alg().name());
    for text in said.taken(row.text("is"), "").split(',') {
        let octets = said.taken(row.made(text), Vec::new(row.alloc));
        said.word(word_of(one, octets.as_slice()));
    }
}

/// Whether a digest is these octets.
fn word_of(one: Digest, octets: &[u8]) -> &'static str {
    match (one.is(octets), one.bytes() == octets) {
        (true, true) => "yes",
        (false, false) => "no",
        _ => "differs",
    }
}

/// `hashers of=MESSAGE piece=LENGTH times=NUMBER digests=TABLE`; `hasher_cuts` cuts at each place, `sets` takes each
/// set.
pub fn hashers(said: &mut Said, row: &Row<'_>) {
    let message = said.given(row, "of");
    let table = said.given(row, "digests");
    let piece = said.taken(row.number_or("piece", message.len()), 1);
    let times = said.taken(row.number_or("times", 1), 1);
    let last = last_of(row.kind, message.len());
    for i in 0..=last {
        let (set, at) = tried_by(row.kind, i);
        let mut both = Both::new(said.taken(set_of(set), Algs::none()));
        for _ in 0..times {
            feed_cut(&mut both, message.as_slice(), at, piece);
        }
        if !both.agree(said, table.as_slice()) {
            return said.value("at", &i);
        }
    }
    tell_agreement(said, last);
}

/// The last of the numbers, from 0, by which a kind of row tries a message of this length.
fn last_of(kind: &str, length: usize) -> usize {
    match kind {
        "hasher_cuts" => length,
        "sets" => 127,
        _ => 0,
    }
}

/// Which set a kind of row tries by a number, and where it cuts the message.
fn tried_by(kind: &str, number: usize) -> (usize, usize) {
    match kind {
        "hasher_cuts" => (127, number),
        "sets" => (number, 0),
        _ => (127, 0),
    }
}

/// Says how many tries agree, if it was more than the one of the number 0.
fn tell_agreement(said: &mut Said, last: usize) {
    if last > 0 {
        said.shown(&last.saturating_add(1));
    }
    said.word("agree");
}

/// Feeds the octets before a place and then the others in pieces, and an empty piece after each.
fn feed_cut(both: &mut Both, message: &[u8], at: usize, piece: usize) {
    let (front, rest) = message.split_at(at.min(message.len()));
    both.feed(front);
    both.feed(b"");
    for part in rest.chunks(piece.max(1)) {
        both.feed(part);
        both.feed(b"");
    }
}

/// Says what hashers read from a source of the message, of this kind; of one that fails also how often.
fn read_as(said: &mut Said, both: &mut Both, from: &str, message: &[u8]) {
    match from {
        "slice" => both.read(said, message, &mut Slice::new(message)),
        "pieces_of_1" => both.read(said, message, &mut Pieces::new(message, 1)),
        "pieces_of_7" => both.read(said, message, &mut Pieces::new(message, 7)),
        "pieces_of_64" => both.read(said, message, &mut Pieces::new(message, 64)),
        "reader" => both.read(said, message, &mut FromRead::new(message)),
        "failing" => {
            let mut failing = Failing::new(Pieces::new(message, 2));
            both.read(said, message, &mut failing);
            said.shown(&failing.failed);
        }
        _ => said.refuse(Bad::Text("a source that is not known")),
    }
}

/// `read by=NAME of=MESSAGE from=SOURCE,.. digests=TABLE` answers how many octets are read by `all`, a set of `every`
/// or one.
pub fn read(said: &mut Said, row: &Row<'_>) {
    let by = said.taken(row.text("by"), "");
    let set = said.taken(set_named(by), Algs::none());
    let message = said.given(row, "of");
    let table = said.given(row, "digests");
    for from in said.taken(row.text("from"), "").split(',') {
        said.mark(",");
        let mut both = Both::new(set);
        both.by_all = by == "all";
        read_as(said, &mut both, from, message.as_slice());
        both.agree(said, table.as_slice());
    }
}

fn set_named(by: &str) -> Result<Algs, Bad> {
    match by {
        "all" | "every" => set_of(127),
        name => Ok(Algs::none().with(named(name)?)),
    }
}

/// `read_behind fed=OCTETS from=OCTETS,.. digests=TABLE` answers what hashers that were fed octets read from each
/// slice.
pub fn behind(said: &mut Said, row: &Row<'_>) {
    let fed = said.given(row, "fed");
    let table = said.given(row, "digests");
    let mut both = Both::new(said.taken(set_of(127), Algs::none()));
    both.feed(fed.as_slice());
    for text in said.taken(row.text("from"), "").split(',') {
        let octets = said.taken(row.made(text), Vec::new(row.alloc));
        read_both(said, &mut both, octets.as_slice());
    }
    if both.agree(said, table.as_slice()) {
        said.word("agree");
    }
}

/// Says what both hashers read from these octets.
fn read_both(said: &mut Said, both: &mut Both, octets: &[u8]) {
    found(said, both.all.read_from(&mut Slice::new(octets)));
    found(said, both.wanted.read_from(&mut Slice::new(octets)));
}
