//! Files that are written beside their place, and put there once they are whole.
ghost use Rattle.std.specs.Prelude.{◌≡◌, OnOk, bit_and};
ghost use Rattle.std.specs.Fs.{permissions_mode};
ghost use Rattle.std.specs.Io.KnownBytes.{Appends};

use std::fs::{self, OpenFile, OpenOptions, Permissions};
use std::io::{self, ErrorKind, Write};
use std::os::unix::fs::{OpenOptionsExt, PermissionsExt};
use std::rt::Files;

/// How many names are tried beside a file that is replaced.
const NAMES: u32 = 100;

/// The permissions of a new file that only its owner may read and write.
const PRIVATE: u32 = 0o600;

/// Who may read, write and run a file, among its permissions.
const ACCESS: u32 = 0o777;

/// How a file is written.
#[derive(Drop)]
enum Place {
    /// Straight into what the path names: a device, a pipe or a descriptor.
    Straight,
    /// Beside this path. If a file stands there, the new one gets these permissions.
    Beside(String, Option<Permissions>),
}

/// Writes octets as the file of this path: beside it and then in its place, if a regular file or nothing is there.
///
/// Errors: the file can't be made, written or put into its place; what was there is then as it was, but for a device or
/// pipe.
pub fn write<R: Files + AllocGlobal>(rt: &R, path: &str, octets: &[u8]) -> io::Result<()>
    ensures { OnOk result ((before : R.File) × (after : R.File) × Appends (R.File.contents before)
        (R.File.contents after) octets.now) }
{
    match place_of(rt, path)? {
        Place::Straight => write_straight(rt, path, octets),
        Place::Beside(place, permissions) => replace(rt, place.as_str(), permissions, octets),
    }
}

fn write_straight<R: Files>(rt: &R, path: &str, octets: &[u8]) -> io::Result<()>
    ensures { OnOk result ((before : R.File) × (after : R.File) × Appends (R.File.contents before)
        (R.File.contents after) octets.now) }
{
    let mut file = fs::create(rt, path)?;
    put_in_file(&mut file, octets)
}

/// Writes all the octets into an open file. What it took after a failure nobody has to know: unless it is a device or
/// a pipe, it is removed.
fn put_in_file<F: Write>(file: &mut F, octets: &[u8]) -> io::Result<()>
    ensures { OnOk result (Appends (F.contents file.old) (F.contents file.new) octets.now) }
{
    file.write_all(octets)?;
    file.flush()
}

/// Writes octets beside a path, and then puts them there. If that fails, what was written is removed.
fn replace<R: Files + AllocGlobal>(
    rt: &R,
    path: &str,
    permissions: Option<Permissions>,
    octets: &[u8],
) -> io::Result<()>
    ensures { OnOk result ((before : R.File) × (after : R.File) × Appends (R.File.contents before)
        (R.File.contents after) octets.now) }
{
    let (beside, file) = made_beside(rt, path, permissions.is_some())?;
    let written = match fill(file, permissions, octets) {
        Ok(()) => fs::rename(rt, beside.as_str(), path),
        Err(error) => Err(error),
    };
    if written.is_err() {
        let _ = fs::remove_file(rt, beside.as_str());
    }
    written
}

/// Writes octets beside a path where nothing is, and then puts them there. If that fails, what was written is removed.
/// What came to that place meanwhile is not replaced.
pub fn put_new<R: Files + AllocGlobal>(rt: &R, path: &str, octets: &[u8]) -> io::Result<()>
    ensures { OnOk result ((before : R.File) × (after : R.File) × Appends (R.File.contents before)
        (R.File.contents after) octets.now) }
{
    let (beside, file) = made_beside(rt, path, false)?;
    let written = match fill(file, None, octets) {
        Ok(()) => settle(rt, beside.as_str(), path),
        Err(error) => Err(error),
    };
    if written.is_err() {
        let _ = fs::remove_file(rt, beside.as_str());
    }
    written
}

/// Gives a file the path where nothing is yet. A second name of the file fails if something is there, as a move does
/// not; where the file system has no second names, the file is moved.
fn settle<R: Files>(rt: &R, beside: &str, path: &str) -> io::Result<()> {
    match fs::hard_link(rt, beside, path) {
        Ok(()) => {
            let _ = fs::remove_file(rt, beside);
            Ok(())
        }
        Err(_) => match fs::symlink_metadata(rt, path) {
            Ok(_) => Err(io::Error::from(ErrorKind::AlreadyExists)),
            Err(error) if error.kind() == ErrorKind::NotFound => fs::rename(rt, beside, path),
            Err(error) => Err(error),
        },
    }
}

/// A new file beside a path, and its path. One that is to replace a file is made private; another has the permissions
/// that new files have.
fn made_beside<R: Files + AllocGlobal>(
    rt: &R,
    path: &str,
    private: bool,
) -> io::Result<(String, R::File)> {
    let mut options = OpenOptions::new();
    options.write(true).create_new(true);
    if private {
        options.mode(PRIVATE);
    }
    for number in 0..NAMES {
        let beside = format!(in rt.alloc(); "{path}.new{number}")?;
        match options.open(rt, beside.as_str()) {
            Ok(file) => return Ok((beside, file)),
            Err(error) if error.kind() == ErrorKind::AlreadyExists => {}
            Err(error) => return Err(error),
        }
    }
    Err(io::Error::from(ErrorKind::AlreadyExists))
}

/// Writes octets into a new file, and closes it once the device has them. The file gets these permissions before an
/// octet is in it.
fn fill<F: Write + OpenFile + Drop>(
    mut file: F,
    permissions: Option<Permissions>,
    octets: &[u8],
) -> io::Result<()>
    ensures { OnOk result ((before : F) × (after : F) × Appends (F.contents before) (F.contents after) octets.now) }
{
    if let Some(permissions) = permissions {
        file.set_permissions(permissions)?;
    }
    put_in_file(&mut file, octets)?;
    file.sync_all()
}

/// How the file of this path is written.
fn place_of<R: Files + AllocGlobal>(rt: &R, path: &str) -> io::Result<Place> {
    if is_descriptor(path) {
        return Ok(Place::Straight);
    }
    match fs::metadata(rt, path) {
        Ok(about) if about.is_file() => {
            // Who may not write a file may not replace it either.
            let _writable = OpenOptions::new().write(true).open(rt, path)?;
            let place = followed(rt, path)?;
            Ok(Place::Beside(place, Some(access(&about.permissions()))))
        }
        Ok(_) => Ok(Place::Straight),
        Err(error) if error.kind() == ErrorKind::NotFound => new_place(rt, path),
        Err(error) => Err(error),
    }
}

/// The permissions that a file gets which replaces one of these: who may read, write and run it. That it runs as its
/// owner or its group (set-user-ID, set-group-ID) was said of other octets, and is not kept.
fn access(permissions: &Permissions) -> Permissions
    ensures { permissions_mode result ≡ bit_and (permissions_mode permissions.now) ACCESS }
{
    Permissions::from_mode(permissions.mode() & ACCESS)
}

/// How a file is written that isn't there. A link that leads nowhere is followed, as it is when a file is opened.
fn new_place<R: Files + AllocGlobal>(rt: &R, path: &str) -> io::Result<Place> {
    if fs::symlink_metadata(rt, path).is_ok() {
        return Ok(Place::Straight);
    }
    let place = String::from_str(rt.alloc(), path)?;
    Ok(Place::Beside(place, None))
}

/// The path of the file that a path names, by no link.
fn followed<R: Files + AllocGlobal>(rt: &R, path: &str) -> io::Result<String> {
    if fs::symlink_metadata(rt, path)?.is_symlink() {
        let place = fs::canonicalize(rt, path)?;
        Ok(String::from_str(rt.alloc(), place.as_str())?)
    } else {
        Ok(String::from_str(rt.alloc(), path)?)
    }
}

/// Whether a path names an open descriptor of the process: what is written there goes on from where others write.
fn is_descriptor(path: &str) -> bool {
    path.starts_with("/dev/std") || path.starts_with("/dev/fd/") || path.starts_with("/proc/")
}

/// Whether two paths name one regular file, links followed.
///
/// Errors: no memory.
pub fn are_same<R: Files + AllocGlobal>(rt: &R, one: &str, other: &str) -> io::Result<bool> {
    match fs::metadata(rt, one) {
        Ok(about) if about.is_file() => {}
        _ => return Ok(false),
    }
    if one == other {
        return Ok(true);
    }
    let (Some(one), Some(other)) = (real(rt, one)?, real(rt, other)?) else {
        return Ok(false);
    };
    Ok(one.as_str() == other.as_str())
}

/// The path of a file by no link, if it can be had.
fn real<R: Files + AllocGlobal>(rt: &R, path: &str) -> io::Result<Option<String>> {
    match fs::canonicalize(rt, path) {
        Ok(place) => Ok(Some(String::from_str(rt.alloc(), place.as_str())?)),
        Err(error) if error.kind() == ErrorKind::OutOfMemory => Err(error),
        Err(_) => Ok(None),
    }
}

/// Whether a regular file is at a path, and no link, that may be replaced.
///
/// Errors: it may not be written; nothing is there, or the system doesn't say what; no memory.
pub fn can_replace<R: Files + AllocGlobal>(rt: &R, path: &str) -> io::Result<bool> {
    Ok(permissions_at(rt, path)?.is_some())
}

/// Replaces the regular file at a path: beside it and then in its place.
///
/// Errors: a link or another thing is there, or nothing; it can't be replaced. It is then as it was. No memory.
pub fn replace_there<R: Files + AllocGlobal>(rt: &R, path: &str, octets: &[u8]) -> io::Result<()>
    ensures { OnOk result ((before : R.File) × (after : R.File) × Appends (R.File.contents before)
        (R.File.contents after) octets.now) }
{
    match permissions_at(rt, path)? {
        Some(permissions) => replace(rt, path, Some(permissions), octets),
        None => Err(io::Error::from(ErrorKind::InvalidInput)),
    }
}

/// The permissions that a file gets which replaces the regular file at a path, or `None` if a link, a device or another
/// thing is there.
fn permissions_at<R: Files>(rt: &R, path: &str) -> io::Result<Option<Permissions>> {
    let about = fs::symlink_metadata(rt, path)?;
    if is_descriptor(path) || !about.is_file() {
        return Ok(None);
    }
    // Who may not write a file may not replace it either.
    let _writable = OpenOptions::new().write(true).open(rt, path)?;
    Ok(Some(access(&about.permissions())))
}
