//! Prints what each layer says of files that other programs made, so that it can be compared with what OpenSSL says of
//! them.
//!
//! The words are names of files: first the content of those that were signed without it, then each of which the lines
//! are printed, in this order. The ending of its name says what such a file holds. Decision 91 of
//! `docs/DECISIONS.md`.
#![tactic(auto)]

mod fitting;
mod forms;
mod lines;
mod parts;

use fitting::Content;
use std::io::{self, BufWriter, ErrorKind, Write};
use std::{env, fs};

fn main(rt: HostRuntime) -> io::Result<()> {
    let words: Vec<String> = env::args(&rt)?.collect(rt.alloc())?;
    let [_, content, names @ ..] = words.as_slice() else {
        return Err(io::Error::from(ErrorKind::InvalidInput));
    };
    let octets = fs::read(&rt, content.as_str())?;
    let content = Content::new(content.as_str(), octets.as_slice());
    let mut out = BufWriter::new(rt.alloc(), rt.stdout())?;
    for name in names {
        let text = forms::text_of(&rt, name.as_str(), &content)?;
        out.write_all(text.as_bytes())?;
    }
    out.flush()
}
