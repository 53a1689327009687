//! Files that are put, read and replaced below a folder, by names from elsewhere. None may lead out of the folder, so
//! no link below it is followed. The folder itself may be one, since the user named it. What is there is replaced only
//! by `replace_below`.
ghost use Rattle.std.specs.Prelude.{◌≡◌, ◌++◌, IfOk, OnOk};
ghost use Rattle.std.specs.Io.KnownBytes.{Appends};
ghost use Rattle.std.specs.String.{string_bytes};
ghost use Rattle.cli_failures.specs.Files.{IsFound, IsFoundIn, path_below};

use crate::replacing::{can_replace, put_new, replace_there};
use std::alloc::{AllocError, Global};
use std::fs;
use std::io::{self, ErrorKind, Read};
use std::rt::Files;

/// What is found where octets would be put.
#[derive(Clone, Copy)]
pub enum Found {
    /// Nothing.
    Nothing,
    /// A regular file that holds exactly these octets.
    Same,
    /// A regular file that holds others.
    Other,
}

/// What stands at a path, links not followed.
#[derive(Clone, Copy)]
enum Standing {
    /// Nothing.
    Nothing,
    /// A folder.
    Folder,
    /// A regular file.
    File,
    /// A link, a device, a pipe or a socket.
    Other,
}

/// The path of the file of this name below a folder.
///
/// Errors: no memory.
pub fn path_of(alloc: Global, folder: &str, name: &str) -> Result<String, AllocError>
    ensures { IfOk result (λ path. string_bytes path ≡ path_below folder.now name.now) }
{
    format!(in alloc; "{folder}/{name}.ers")
}

/// What is at the path of the file of this name below a folder, where these octets would be put. The folder must be
/// there; on the way from it there must be folders or nothing, and no link.
///
/// Errors: that isn't so, something else than a regular file is at the path, or the system doesn't say what is there;
/// the file that is there can't be read; no memory.
pub fn found_below<R: Files + AllocGlobal>(
    rt: &R,
    folder: &str,
    name: &str,
    path: &str,
    octets: &[u8],
) -> io::Result<Found>
    ensures { IfOk result (IsFound R.File.remaining octets.now) }
{
    match standing_below(rt, folder, name, path)? {
        Standing::Nothing => Ok(Found::Nothing),
        Standing::File => found_in(rt.alloc(), fs::open(rt, path)?, octets),
        Standing::Folder | Standing::Other => Err(io::Error::from(ErrorKind::AlreadyExists)),
    }
}

/// What stands at the path of the file of this name below a folder. The folder must be there; on the way from it there
/// must be folders or nothing, and no link.
///
/// Errors: that isn't so, or the system doesn't say what is there; no memory.
fn standing_below<R: Files + AllocGlobal>(
    rt: &R,
    folder: &str,
    name: &str,
    path: &str,
) -> io::Result<Standing> {
    if !stays_below(name) || !fs::metadata(rt, folder)?.is_dir() {
        return Err(io::Error::from(ErrorKind::NotADirectory));
    }
    if let Some((folders, _)) = name.rsplit_once('/')
        && !are_folders(rt, folder, folders)?
    {
        return Err(io::Error::from(ErrorKind::NotADirectory));
    }
    standing_at(rt, path)
}

/// The open file of this name below a folder, where a regular file must stand.
///
/// Errors: another thing stands there, or nothing; it can't be opened; those of `standing_below`.
pub fn open_below<R: Files + AllocGlobal>(
    rt: &R,
    folder: &str,
    name: &str,
    path: &str,
) -> io::Result<R::File> {
    match standing_below(rt, folder, name, path)? {
        Standing::File => fs::open(rt, path),
        _ => Err(io::Error::from(ErrorKind::NotFound)),
    }
}

/// Whether a regular file of this name is below a folder, and may be replaced.
///
/// Errors: it may not be written; those of `standing_below`.
pub fn can_replace_below<R: Files + AllocGlobal>(
    rt: &R,
    folder: &str,
    name: &str,
    path: &str,
) -> io::Result<bool> {
    match standing_below(rt, folder, name, path)? {
        Standing::File => can_replace(rt, path),
        _ => Ok(false),
    }
}

/// Replaces the regular file of this name below a folder: beside it and then in its place.
///
/// Errors: no regular file is there, or it can't be replaced; it is then as it was. Those of `standing_below`.
pub fn replace_below<R: Files + AllocGlobal>(
    rt: &R,
    folder: &str,
    name: &str,
    path: &str,
    octets: &[u8],
) -> io::Result<()>
    ensures { OnOk result ((before : R.File) × (after : R.File) × Appends (R.File.contents before)
        (R.File.contents after) octets.now) }
{
    match standing_below(rt, folder, name, path)? {
        Standing::File => replace_there(rt, path, octets),
        _ => Err(io::Error::from(ErrorKind::NotFound)),
    }
}

/// Whether an open file holds these octets or others. At most one octet more than these is read.
fn found_in<F: Read + Drop>(alloc: Global, file: F, octets: &[u8]) -> io::Result<Found>
    ensures { IfOk result (IsFoundIn (F.remaining file) octets.now) }
{
    let mut held = Vec::new(alloc);
    file.take(octets.len() as u64 + 1).read_to_end(&mut held)?;
    if held.as_slice() == octets {
        Ok(Found::Same)
    } else {
        Ok(Found::Other)
    }
}

/// Makes the folders on the way from a folder to the file of this name, and writes octets as that file, where
/// `found_below` found nothing.
///
/// Errors: a folder or the file can't be made, written or put into its place, or something else is there by now, which
/// is not replaced; no memory.
pub fn put_below<R: Files + AllocGlobal>(
    rt: &R,
    folder: &str,
    name: &str,
    path: &str,
    octets: &[u8],
) -> io::Result<()>
    ensures { OnOk result ((before : R.File) × (after : R.File) × Appends (R.File.contents before)
        (R.File.contents after) octets.now) }
{
    if let Some((folders, _)) = name.rsplit_once('/') {
        make_folders(rt, folder, folders)?;
    }
    put_new(rt, path, octets)
}

/// Whether each part of a name names something in the folder where it stands.
fn stays_below(name: &str) -> bool {
    for part in name.split('/') {
        if part.is_empty() || part == "." || part == ".." {
            return false;
        }
    }
    true
}

/// What stands at this path.
fn standing_at<R: Files>(rt: &R, path: &str) -> io::Result<Standing> {
    match fs::symlink_metadata(rt, path) {
        Ok(about) if about.is_dir() => Ok(Standing::Folder),
        Ok(about) if about.is_file() => Ok(Standing::File),
        Ok(_) => Ok(Standing::Other),
        Err(error) if error.kind() == ErrorKind::NotFound => Ok(Standing::Nothing),
        Err(error) => Err(error),
    }
}

/// Goes from a folder into a part of a name: what stands there.
fn enter<R: Files>(rt: &R, path: &mut String, part: &str) -> io::Result<Standing> {
    path.push('/')?;
    path.push_str(part)?;
    standing_at(rt, path.as_str())
}

/// Whether nothing but folders stands at these, which are below one another.
fn are_folders<R: Files + AllocGlobal>(rt: &R, folder: &str, folders: &str) -> io::Result<bool> {
    let mut path = String::from_str(rt.alloc(), folder)?;
    for part in folders.split('/') {
        match enter(rt, &mut path, part)? {
            Standing::Folder => {}
            Standing::Nothing => return Ok(true),
            Standing::File | Standing::Other => return Ok(false),
        }
    }
    Ok(true)
}

/// Makes those of these folders that aren't there.
///
/// Errors: something else is there; a folder can't be made; no memory.
fn make_folders<R: Files + AllocGlobal>(rt: &R, folder: &str, folders: &str) -> io::Result<()> {
    let mut path = String::from_str(rt.alloc(), folder)?;
    for part in folders.split('/') {
        match enter(rt, &mut path, part)? {
            Standing::Folder => {}
            Standing::Nothing => make_folder(rt, path.as_str())?,
            Standing::File | Standing::Other => {
                return Err(io::Error::from(ErrorKind::NotADirectory));
            }
        }
    }
    Ok(())
}

/// Makes a folder that another process may have made by now.
///
/// Errors: it can't be made, or something else is there.
fn make_folder<R: Files>(rt: &R, path: &str) -> io::Result<()> {
    match fs::create_dir(rt, path) {
        Err(error) if error.kind() == ErrorKind::AlreadyExists => match standing_at(rt, path)? {
            Standing::Folder => Ok(()),
            _ => Err(error),
        },
        made => made,
    }
}
