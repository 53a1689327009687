//! The files of a row, in the folder where it is answered.
use std::fs;
use std::io::{self, PipeReader, PipeWriter, Write};
use std::rt::Files;
use vectors::{Bad, Row, Said, number_of};

const FAILED: Bad = Bad::Text("a file of the row could not be read, written or removed");

/// Makes the answer bad if a call failed.
fn ended(said: &mut Said, outcome: io::Result<()>) {
    if outcome.is_err() {
        said.refuse(FAILED);
    }
}

/// Makes a file of these octets.
pub fn put(said: &mut Said, rt: &HostRuntime, path: &str, octets: &[u8]) {
    ended(said, fs::write(rt, path, octets));
}

/// Makes a file of the octets that a row has by this name.
pub fn put_value(said: &mut Said, rt: &HostRuntime, row: &Row<'_>, path: &str, name: &str) {
    let octets = said.given(row, name);
    put(said, rt, path, octets.as_slice());
}

/// Removes a file, if it is there.
pub fn remove(said: &mut Said, rt: &HostRuntime, path: &str) {
    if is_there(said, rt, path) {
        ended(said, fs::remove_file(rt, path));
    }
}

fn is_there(said: &mut Said, rt: &HostRuntime, path: &str) -> bool {
    match fs::exists(rt, path) {
        Ok(is_there) => is_there,
        Err(_) => {
            said.refuse(FAILED);
            false
        }
    }
}

/// The end of a pipe that gives these octets, once.
pub fn pipe_of(said: &mut Said, rt: &HostRuntime, octets: &[u8]) -> Option<PipeReader> {
    match rt.pipe() {
        Ok((reader, writer)) => {
            put_all(said, writer, octets);
            Some(reader)
        }
        Err(_) => {
            said.refuse(Bad::Text("no pipe can be made"));
            None
        }
    }
}

/// Puts octets into a pipe, and ends it.
fn put_all(said: &mut Said, mut writer: PipeWriter, octets: &[u8]) {
    if writer.write_all(octets).is_err() {
        said.refuse(Bad::Text("the pipe takes not all"));
    }
}

/// The text that a row has by this name, with `\n` for a line feed.
pub fn spelled(said: &mut Said, row: &Row<'_>, name: &str) -> String {
    let value = said.taken(row.text(name), "");
    text_in(said, row, value)
}

fn text_in(said: &mut Said, row: &Row<'_>, value: &str) -> String {
    said.taken(row.spelled(value, "\\n"), String::new(row.alloc))
}

/// The octets that a value spells of a file that a row has by this name.
fn octets_in(said: &mut Said, row: &Row<'_>, name: &str, value: &str) -> Vec<u8> {
    match name {
        "texts" | "wrote" => text_in(said, row, value).into_bytes(),
        _ => said.taken(row.made(value), Vec::new(row.alloc)),
    }
}

/// Makes the folders that a row has as `folders=PATH;..`, the files that it has as `files=PATH:OCTETS;..` and
/// `texts=PATH:TEXT;..`, with `\n` for a line feed, and one of zeros as `long=PATH:LENGTH`.
pub fn fill(said: &mut Said, rt: &HostRuntime, row: &Row<'_>) {
    for path in row.value("folders").unwrap_or("").split(';') {
        if !path.is_empty() {
            ended(said, fs::create_dir(rt, path));
        }
    }
    put_files(said, rt, row, "files");
    put_files(said, rt, row, "texts");
    if let Some((path, length)) = row.value("long").unwrap_or("").split_once(':') {
        let length = said.taken(number_of(length), 0) as u64;
        ended(said, put_zeros(rt, path, length));
    }
}

fn put_zeros(rt: &HostRuntime, path: &str, length: u64) -> io::Result<()> {
    let file = fs::create(rt, path)?;
    file.set_len(length)
}

fn put_files(said: &mut Said, rt: &HostRuntime, row: &Row<'_>, name: &str) {
    for part in row.value(name).unwrap_or("").split(';') {
        if let Some((path, value)) = part.split_once(':') {
            let octets = octets_in(said, row, name, value);
            put(said, rt, path, octets.as_slice());
        }
    }
}

/// Says of each file that the row has as `made=PATH:OCTETS;..` or `wrote=PATH:TEXT;..` whether it is so.
pub fn tell_made(said: &mut Said, rt: &HostRuntime, row: &Row<'_>) {
    tell_files(said, rt, row, "made");
    tell_files(said, rt, row, "wrote");
}

fn tell_files(said: &mut Said, rt: &HostRuntime, row: &Row<'_>, name: &str) {
    for part in row.value(name).unwrap_or("").split(';') {
        if let Some((path, value)) = part.split_once(':') {
            let octets = octets_in(said, row, name, value);
            said.mark(",");
            said.word(path);
            tell_state(said, rt, path, octets.as_slice());
        }
    }
}

/// Says how a file is beside what it should be: `as given`, `absent`, or its octets.
fn tell_state(said: &mut Said, rt: &HostRuntime, path: &str, wanted: &[u8]) {
    if !is_there(said, rt, path) {
        return said.word("absent");
    }
    match fs::read(rt, path) {
        Ok(octets) if octets.as_slice() == wanted => said.word("as given"),
        Ok(octets) => said.octets(octets.as_slice()),
        Err(_) => said.refuse(FAILED),
    }
}

/// Removes all that the row made, or let make: then the folders that the row has as `leaves=PATH;..`, which a command
/// made, and those of `folders`, the last first.
pub fn clear(said: &mut Said, rt: &HostRuntime, row: &Row<'_>) {
    for name in ["files", "texts", "long", "made", "wrote"] {
        remove_files(said, rt, row, name);
    }
    remove_folders(said, rt, row, "leaves");
    remove_folders(said, rt, row, "folders");
}

fn remove_files(said: &mut Said, rt: &HostRuntime, row: &Row<'_>, name: &str) {
    for part in row.value(name).unwrap_or("").split(';') {
        if let Some((path, _)) = part.split_once(':') {
            remove(said, rt, path);
        }
    }
}

fn remove_folders(said: &mut Said, rt: &HostRuntime, row: &Row<'_>, name: &str) {
    for path in row.value(name).unwrap_or("").rsplit(';') {
        if !path.is_empty() {
            ended(said, fs::remove_dir(rt, path));
        }
    }
}
