//! Records that are put into memory, in place of the system's files: those that Bouncy Castle 1.72 made of the same
//! tree.
use crate::asserts::must_hold;
use crate::double::Memory;
use crate::ends::{End, end_of};
use crate::renewals::FIRST;
use crate::tokens::{FIRST_TOKEN, octets_of, record_of};
use cli_failures::Failure;
use cli_making::make_all;
use digests::Alg;

/// Sums of two files. The text of each is the word `document`, a space, its place, counted from 0, and a line feed.
const BOTH: &str = "\
b30bb20e74f7a295aeaba71bedea2d4c63ebad7ded8d1d6368f9e70fa063d0ad  first document\n\
f6065ce8be732658ce43398ea1da159c98d57c15c9ff3832e91979db9cbe8bfd *documents/1\n";

/// The same under other names.
const BOTH_PLAIN: &str = "\
b30bb20e74f7a295aeaba71bedea2d4c63ebad7ded8d1d6368f9e70fa063d0ad  first document\n\
f6065ce8be732658ce43398ea1da159c98d57c15c9ff3832e91979db9cbe8bfd  second document\n";

/// The same under one name.
const TWICE: &str = "\
b30bb20e74f7a295aeaba71bedea2d4c63ebad7ded8d1d6368f9e70fa063d0ad  first document\n\
f6065ce8be732658ce43398ea1da159c98d57c15c9ff3832e91979db9cbe8bfd  first document\n";

/// The sum of the first alone.
const ONE: &str =
    "b30bb20e74f7a295aeaba71bedea2d4c63ebad7ded8d1d6368f9e70fa063d0ad  first document\n";

/// What is written of the first file, up to the token, which is over the root of the tree over both. `FIRST` is what is
/// written of the other.
const RECORD: &str =
    "308203b8020101300d300b0609608648016503040201308203a23082039e3082039aa00b060960864801\
     6503040201a24830220420b30bb20e74f7a295aeaba71bedea2d4c63ebad7ded8d1d6368f9e70fa063d0\
     ad30220420f6065ce8be732658ce43398ea1da159c98d57c15c9ff3832e91979db9cbe8bfd";

/// What `make_all` answers for these sums by the first token.
fn make<'a>(memory: &mut Memory, sums: &str) -> Result<(), Failure<'a>> {
    let Some(token) = octets_of(memory.alloc, &FIRST_TOKEN) else {
        return Err(Failure::Memory);
    };
    let alloc = memory.alloc;
    make_all(
        alloc,
        memory,
        "folder",
        Alg::Sha256,
        sums.as_bytes(),
        &token,
    )
}

/// How it ends.
fn made(memory: &mut Memory, sums: &str) -> End {
    let answer = make(memory, sums);
    end_of(&answer)
}

/// Whether the file with this number was put into the folder by this name, and is the record before the first token,
/// and that.
fn is_file(memory: &Memory, number: usize, name: &str, before: &str) -> bool {
    match (
        memory.files.get(number),
        record_of(memory.alloc, &[(before, &FIRST_TOKEN)]),
    ) {
        (Some(kept), Some(octets)) => {
            kept.folder.as_str() == "folder"
                && kept.name.as_str() == name
                && kept.octets.as_slice() == octets.as_slice()
        }
        _ => false,
    }
}

#[test]
fn each_record_is_put_by_its_name(rt: HostRuntime) {
    let mut memory = Memory::new(rt.alloc(), 2);
    let is_made = matches!(made(&mut memory, BOTH), End::Done);
    let are_put = memory.files.len() == 2
        && is_file(&memory, 0, "first document", RECORD)
        && is_file(&memory, 1, "documents/1", FIRST);
    must_hold(&rt, is_made && are_put, "both");
}

#[test]
fn nothing_is_put_where_something_is_refused(rt: HostRuntime) {
    let mut memory = Memory::new(rt.alloc(), 2);
    let is_other = matches!(made(&mut memory, ONE), End::ImprintDiffers);
    let is_twice = matches!(made(&mut memory, TWICE), End::Twice(2));
    let is_none_put = memory.files.is_empty();
    must_hold(&rt, is_other && is_twice && is_none_put, "none");
}

#[test]
fn the_first_records_are_put_until_one_fails(rt: HostRuntime) {
    let mut memory = Memory::new(rt.alloc(), 1);
    let is_cut = matches!(made(&mut memory, BOTH_PLAIN), End::Cut);
    must_hold(&rt, is_cut && memory.files.len() == 1, "one");
}
