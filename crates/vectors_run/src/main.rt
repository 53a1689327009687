//! Answers rows: what must be said of octets that stand in the standards, that other programs made, or that were
//! written by hand. The words are names of files: of octet strings that all areas use, then for each area, which has a
//! folder, those of its octet strings and of its rows. It prints each row that doesn't agree, and how many do.
#![tactic(auto)]

mod checks;
mod commands;
mod evidence;
mod folder;
mod outcome;
mod runs;
mod stamps;

use commands::OfCommands;
use std::env;
use std::io::{self, BufWriter, Write};
use vectors::{Bad, Blobs, Judge, Row, judge_file};
use vectors_der::OfDer;
use vectors_files::OfFiles;
use vectors_rules::OfRules;
use vectors_types::OfTypes;

/// The judge of an area, which is named as its folder.
#[derive(Drop)]
struct OfArea<'a> {
    rt: &'a HostRuntime,
    area: &'a str,
}

impl Judge for OfArea<'_> {
    fn said(&self, row: &Row<'_>) -> Result<String, Bad> {
        match self.area {
            "der" => OfDer.said(row),
            "types" => OfTypes.said(row),
            "rules" => OfRules.said(row),
            "files" => OfFiles.said(row),
            "commands" => OfCommands { rt: self.rt }.said(row),
            _ => Err(Bad::Text("a row outside the folder of an area")),
        }
    }
}

fn main(rt: HostRuntime) -> io::Result<()> {
    let words: Vec<String> = env::args(&rt)?.collect(rt.alloc())?;
    let mut out = BufWriter::new(rt.alloc(), rt.stdout())?;
    judge_all(&rt, words.as_slice(), &mut out)?;
    out.flush()
}

/// Judges the files that words name behind the first.
fn judge_all<O: Write>(rt: &HostRuntime, words: &[String], out: &mut O) -> io::Result<()> {
    let mut blobs = Blobs::new(rt.alloc());
    let mut shared: usize = 0;
    let mut had_blobs = false;
    for name in words.iter().skip(1) {
        let name = name.as_str();
        let (area, _) = name.split_once('/').unwrap_or(("", ""));
        let has_blobs = name.ends_with(".blobs");
        if has_blobs && !had_blobs && !area.is_empty() {
            blobs.keep_first(shared);
        }
        had_blobs = has_blobs;
        judge_file(rt, &OfArea { rt, area }, &mut blobs, name, out)?;
        if area.is_empty() {
            shared = blobs.count();
        }
    }
    Ok(())
}
