//! The kinds of rows.
use vectors::Bad;

/// What is asked.
pub enum Asked {
    FirstSigner,
    Answers,
    Granted,
    Compared,
    Made,
    File,
    Token,
    Stamp,
    Cut,
    Trust,
    Vouches,
    Fused,
    Expecting,
    Rewritten,
    Refusal,
    Written,
}

/// A kind of row: its name, the values that it takes, and what it asks.
pub struct Kind {
    name: &'static str,
    pub takes: &'static str,
    pub asked: Asked,
}

/// A line of the table.
macro_rules! kind {
    ($name:literal, $takes:literal, $asked:ident) => {
        Kind {
            name: $name,
            takes: $takes,
            asked: Asked::$asked,
        }
    };
}

static KINDS: [Kind; 20] = [
    kind!("names", "file sid signed of", FirstSigner),
    kind!(
        "signer",
        "file algorithm signed content type sha1",
        FirstSigner
    ),
    kind!("answers", "request response", Answers),
    kind!("granted", "of known", Granted),
    kind!("compare", "first by second and", Compared),
    kind!("made", "algorithm signed as", Made),
    kind!("file", "of content source sha1", File),
    kind!("token", "of stamps trust answers asks sha1", Token),
    kind!("stamp", "of alg digest trust answers asks", Stamp),
    kind!("cut", "of stamps trust answers asks", Cut),
    kind!("trust", "text", Trust),
    kind!("vouches", "text signatures", Vouches),
    kind!("fused", "text calls signatures", Fused),
    kind!("expecting", "text expected signatures", Expecting),
    kind!("rewritten", "text as", Rewritten),
    kind!("rule", "of", Refusal),
    kind!("line", "of", Refusal),
    kind!("attach", "file signer token new pieces", Written),
    kind!("questions", "of trust lines pieces", Written),
    kind!("report", "refusal line pieces", Written),
];

/// The kind of this name.
pub fn kind_of(name: &str) -> Result<&'static Kind, Bad> {
    for kind in &KINDS {
        if kind.name == name {
            return Ok(kind);
        }
    }
    Err(Bad::Text("a kind of row that is not known"))
}
