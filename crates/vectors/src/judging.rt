//! Files of octet strings and of rows, and what is said of the rows.
use crate::bad::Bad;
use crate::blobs::Blobs;
use crate::rows::Row;
use std::alloc::{AllocError, Global};
use std::fs;
use std::io::{self, Write};
use std::rt::Files;

/// Something that answers rows.
pub trait Judge {
    /// What is answered. A line feed in it counts as a space, at its end as nothing.
    ///
    /// Errors: a row of a kind that isn't known, or whose values can't be read; or no memory.
    fn said(&self, row: &Row<'_>) -> Result<String, Bad>;
}

/// Takes the octet strings of a file whose name ends in `.blobs`; of any other file judges the rows, prints those that
/// don't agree, with the number of their line, and how many do.
///
/// A line of octet strings that is bad is printed, and those after it in the file are not taken.
///
/// Errors: the file can't be read, no memory, or the output failed.
pub fn judge_file<R: Files + AllocGlobal, J: Judge, O: Write>(
    rt: &R,
    judge: &J,
    blobs: &mut Blobs,
    name: &str,
    out: &mut O,
) -> io::Result<()> {
    let text = fs::read_to_string(rt, name)?;
    let said = said_of_file(rt.alloc(), judge, blobs, name, text.as_str())?;
    out.write_all(said.as_bytes())
}

/// What is printed of the file of this name, which has this text.
fn said_of_file<J: Judge>(
    alloc: Global,
    judge: &J,
    blobs: &mut Blobs,
    name: &str,
    text: &str,
) -> Result<String, AllocError> {
    if !matches!(name.split_once(".blobs"), Some((_, ""))) {
        return said_of_rows(alloc, judge, blobs, name, text);
    }
    match blobs.read(alloc, text) {
        Ok(()) => Ok(String::new(alloc)),
        Err((line, bad)) => format!(in alloc; "{name}:{line}: {bad}\n"),
    }
}

/// Compares each row of a text with what is said, and gives the others with the number of their line, counted from 1;
/// then how many rows there are, bad ones too, and how many agree. Empty lines and those that begin with `#` are no
/// rows.
fn said_of_rows<J: Judge>(
    alloc: Global,
    judge: &J,
    blobs: &Blobs,
    name: &str,
    text: &str,
) -> Result<String, AllocError> {
    let (mut number, mut rows, mut agreed) = (0u64, 0u64, 0u64);
    let mut lines = String::new(alloc);
    for line in text.lines() {
        number = number.saturating_add(1);
        if line.is_empty() || line.starts_with('#') {
            continue;
        }
        rows = rows.saturating_add(1);
        match difference(alloc, judge, blobs, line)? {
            None => agreed = agreed.saturating_add(1),
            Some(why) => lines.push_str(line_of(alloc, name, number, why.as_str())?.as_str())?,
        }
    }
    format!(in alloc; "{lines}{name}: {agreed} of {rows} rows agree\n")
}

fn line_of(alloc: Global, name: &str, number: u64, why: &str) -> Result<String, AllocError> {
    format!(in alloc; "{name}:{number}: {why}\n")
}

/// How what is said of a row differs from what it wants.
fn difference<J: Judge>(
    alloc: Global,
    judge: &J,
    blobs: &Blobs,
    line: &str,
) -> Result<Option<String>, AllocError> {
    let (said, wanted) = match answer(alloc, judge, blobs, line) {
        Ok(answer) => answer,
        Err(bad) => return Ok(Some(format!(in alloc; "bad row: {bad}")?)),
    };
    if said.as_str() == wanted {
        return Ok(None);
    }
    Ok(Some(format!(in alloc; "wanted `{wanted}`, said `{said}`")?))
}

/// What is said of a row, on one line, and what it wants.
fn answer<'a, J: Judge>(
    alloc: Global,
    judge: &J,
    blobs: &'a Blobs,
    line: &'a str,
) -> Result<(String, &'a str), Bad> {
    let row = Row::read(alloc, line, blobs)?;
    let wanted = row.wanted;
    let said = flat(alloc, judge.said(&row)?.as_str())?;
    Ok((said, wanted))
}

/// The lines of a text, with a space between them.
fn flat(alloc: Global, text: &str) -> Result<String, AllocError> {
    let mut flat = String::new(alloc);
    for line in text.lines() {
        if !flat.is_empty() {
            flat.push_str(" ")?;
        }
        flat.push_str(line)?;
    }
    Ok(flat)
}
