ghost use Rattle.std.specs.Prelude.{◌≡◌, ◌≢◌, ◌≤◌, ◌⊎◌, IfErr, IfOk, IfSome, IsSomeAnd, OnOk, is_some, length};
ghost use Rattle.std.specs.IoError.{error_kind};
ghost use Rattle.std.specs.Io.KnownBytes.{Appends};
ghost use Rattle.cli_failures.specs.Files.{IsFailureBelow, IsFailureToOpen, IsFailureToRead, IsHeld, IsPut, IsTaken};
ghost use Rattle.cli_failures.specs.Files.{IsFailureToReadShown, IsFailureToReplaceShown, IsOversized, IsUnopened};
ghost use Rattle.cli_failures.specs.Files.{IsUnput, IsUnread, path_below};

use crate::failure::Failure;
pub use crate::folder::path_of;
use crate::folder::{self, Found, found_below, put_below};
use crate::replacing::{are_same, can_replace, replace_there, write};
use devices::FromRead;
use lines_shown::show_response::shown_text;
use std::alloc::Global;
use std::fs::{self, OpenFile};
use std::io::{self, ErrorKind, Read};
use std::rt::Files;

/// The most octets of a file that is read whole: an element with contents of 2^32 - 1 octets, and a header of 6.
/// Decision 81 of `docs/DECISIONS.md`.
const MOST: u64 = 4_294_967_301;

/// The path of what is opened for a file that is read: standard input in the place of `-`.
fn opened_path(path: &str) -> &str {
    if path == "-" { "/dev/stdin" } else { path }
}

/// The octets of a file.
///
/// A file that states more octets than may be read whole fails before it is read; a file that states no size and has
/// too many octets, such as a pipe, fails after the first octet too many was read (decision 85).
pub fn read_whole<'p, R: Files + AllocGlobal>(rt: &R, path: &'p str) -> Result<Vec<u8>, Failure<'p>>
    // Returns at most as many octets as may be read whole.
    ensures size { IfOk result (λ octets. length octets.items ≤ MOST) }
    // A failure is a lack of memory, or names this path.
    ensures failure { IfErr result (IsFailureToRead path.entry) }
    // They are all the octets of a file that was opened, if it is known what such a file holds.
    ensures whole { IfOk result (λ octets. IsHeld R.File.remaining octets.items) }
{
    let file = open(rt, path)?;
    octets_in(rt.alloc(), file, path)
}

/// The open file of this path, or standard input in the place of `-`, of which nothing has been read yet.
pub fn open<'p, R: Files>(rt: &R, path: &'p str) -> Result<R::File, Failure<'p>>
    // A failure is a lack of memory, or names this path, which cannot be opened.
    ensures { IfErr result (IsFailureToOpen path.entry) }
{
    match fs::open(rt, opened_path(path)) {
        Ok(file) => Ok(file),
        Err(error) => Err(device_failure(&error, Failure::Open(path))),
    }
}

/// The content that is handed in, of which nothing has been read yet, if there is one.
pub fn content_of<'a, R: Files>(
    rt: &R,
    path: Option<&'a str>,
) -> Result<Option<FromRead<R::File>>, Failure<'a>>
    // Returns a source exactly if a path is given.
    ensures handed { IfOk result (λ content. is_some content ≡ is_some path.entry) }
    // Fails only if a path is given: by a lack of memory, or with this path, which cannot be opened.
    ensures refused { IfErr result (λ f. IsSomeAnd path.entry (λ p. IsFailureToOpen p f)) }
{
    match path {
        None => Ok(None),
        Some(path) => Ok(Some(FromRead::new(open(rt, path)?))),
    }
}

/// What an open file of this path holds.
fn octets_in<'p, F: Read + OpenFile + Drop>(
    alloc: Global,
    file: F,
    path: &'p str,
) -> Result<Vec<u8>, Failure<'p>>
    ensures size { IfOk result (λ octets. length octets.items ≤ MOST) }
    ensures failure { IfErr result (IsFailureToRead path.entry) }
    ensures whole { IfOk result (λ octets. IfSome (F.remaining file) (λ held. octets.items ≡ held)) }
{
    match whole_of(alloc, file) {
        Ok(Some(octets)) => Ok(octets),
        Ok(None) => Err(Failure::Size(path)),
        Err(error) => Err(device_failure(&error, Failure::Read(path))),
    }
}

/// What an open file holds, unless it has more octets than may be read whole.
fn whole_of<F: Read + OpenFile + Drop>(alloc: Global, file: F) -> io::Result<Option<Vec<u8>>>
    ensures size { IfOk result (λ read. IfSome read (λ octets. length octets.items ≤ MOST)) }
    ensures whole { IfOk result (λ read. IfSome read (λ octets.
        IfSome (F.remaining file) (λ held. octets.items ≡ held))) }
{
    let stated = file.metadata().map_or(0, |about| about.len());
    if stated > MOST {
        return Ok(None);
    }
    let mut octets = Vec::new(alloc);
    let read = file.take(MOST + 1).read_to_end(&mut octets)?;
    if read as u64 > MOST {
        return Ok(None);
    }
    Ok(Some(octets))
}

/// What an open file of this path holds. A failure names the path as it is shown.
fn shown_octets_in<'p, F: Read + OpenFile + Drop>(
    alloc: Global,
    file: F,
    path: &str,
) -> Result<Vec<u8>, Failure<'p>>
    ensures size { IfOk result (λ octets. length octets.items ≤ MOST) }
    ensures failure { IfErr result (IsFailureToReadShown path.now) }
    ensures whole { IfOk result (λ octets. IfSome (F.remaining file) (λ held. octets.items ≡ held)) }
{
    match whole_of(alloc, file) {
        Ok(Some(octets)) => Ok(octets),
        Ok(None) => Err(oversized(alloc, path)),
        Err(error) => Err(unread(alloc, &error, path)),
    }
}

/// Writes these octets as the file of this path. A regular file that is there, or none, is replaced once the octets are
/// written whole, and keeps its permissions; a device or a pipe takes them as it is.
pub fn write_whole<'p, R: Files + AllocGlobal>(
    rt: &R,
    path: &'p str,
    octets: &[u8],
) -> Result<(), Failure<'p>>
    // A failure is a lack of memory, or that this path cannot be written.
    ensures failure { IfErr result (λ f. (f ≡ Failure.Memory) ⊎ (f ≡ Failure.Write path.entry)) }
    // They come after what a file that was opened held, if it is known what such a file holds.
    ensures whole { OnOk result ((before : R.File) × (after : R.File) × Appends (R.File.contents before)
        (R.File.contents after) octets.now) }
{
    match write(rt, path, octets) {
        Ok(()) => Ok(()),
        Err(error) => Err(device_failure(&error, Failure::Write(path))),
    }
}

// The failure that a file of this path can't be written, after such an error. The path is shown as a text with any
// octets is, since a part of it is a name from elsewhere.
fn unput<'p>(alloc: Global, error: &io::Error, path: &str) -> Failure<'p>
    ensures { (result ≡ Failure.Memory) ⊎ IsUnput path.now result }
{
    match shown_text(alloc, path.as_bytes()) {
        Ok(shown) => device_failure(error, Failure::Unput(shown)),
        Err(_) => Failure::Memory,
    }
}

// The failure that a file of this path is not replaced.
fn taken<'p>(alloc: Global, path: &str) -> Failure<'p>
    ensures { (result ≡ Failure.Memory) ⊎ IsTaken path.now result }
{
    match shown_text(alloc, path.as_bytes()) {
        Ok(shown) => Failure::Taken(shown),
        Err(_) => Failure::Memory,
    }
}

// The failure that a file of this path is none that can be replaced.
fn unreplaced<'p>(alloc: Global, path: &str) -> Failure<'p>
    ensures { (result ≡ Failure.Memory) ⊎ IsUnput path.now result }
{
    match shown_text(alloc, path.as_bytes()) {
        Ok(shown) => Failure::Unput(shown),
        Err(_) => Failure::Memory,
    }
}

// The failure that a file of this path can't be opened, after such an error.
fn unopened<'p>(alloc: Global, error: &io::Error, path: &str) -> Failure<'p>
    ensures { (result ≡ Failure.Memory) ⊎ IsUnopened path.now result }
{
    match shown_text(alloc, path.as_bytes()) {
        Ok(shown) => device_failure(error, Failure::Unopened(shown)),
        Err(_) => Failure::Memory,
    }
}

// The failure that a file of this path can't be read, after such an error.
fn unread<'p>(alloc: Global, error: &io::Error, path: &str) -> Failure<'p>
    ensures { (result ≡ Failure.Memory) ⊎ IsUnread path.now result }
{
    match shown_text(alloc, path.as_bytes()) {
        Ok(shown) => device_failure(error, Failure::Unread(shown)),
        Err(_) => Failure::Memory,
    }
}

// The failure that a file of this path is too long to be read whole.
fn oversized<'p>(alloc: Global, path: &str) -> Failure<'p>
    ensures { (result ≡ Failure.Memory) ⊎ IsOversized path.now result }
{
    match shown_text(alloc, path.as_bytes()) {
        Ok(shown) => Failure::Oversized(shown),
        Err(_) => Failure::Memory,
    }
}

/// Tests whether these octets can be put as the file `FOLDER/NAME.ers`, as `write_below` puts them. The folder must be
/// there; on the way from it there must be folders or nothing, and no link; at the path of the file there must be
/// nothing, or a regular file that holds exactly these octets.
pub fn test_below<'p, R: Files + AllocGlobal>(
    rt: &R,
    folder: &str,
    name: &str,
    octets: &[u8],
) -> Result<(), Failure<'p>>
    // A failure is a lack of memory, or names the file: it can't be written, or it is there and holds other octets.
    ensures { IfErr result (IsFailureBelow R.File.remaining folder.now name.now octets.now) }
{
    let path = path_of(rt.alloc(), folder, name)?;
    match found_below(rt, folder, name, path.as_str(), octets) {
        Ok(Found::Nothing | Found::Same) => Ok(()),
        Ok(Found::Other) => Err(taken(rt.alloc(), path.as_str())),
        Err(error) => Err(unput(rt.alloc(), &error, path.as_str())),
    }
}

/// Writes these octets as the file `FOLDER/NAME.ers`, and makes the folders on the way. A file that is there with
/// exactly these octets stays as it is, and one with others is never replaced. It is there once the octets are written
/// whole. Nothing is written where `test_below` fails.
pub fn write_below<'p, R: Files + AllocGlobal>(
    rt: &R,
    folder: &str,
    name: &str,
    octets: &[u8],
) -> Result<(), Failure<'p>>
    // A failure is a lack of memory, or names the file: it can't be written, or it is there and holds other octets.
    ensures failure { IfErr result (IsFailureBelow R.File.remaining folder.now name.now octets.now) }
    // They were there in a file that was opened, or come after what such a file held, if it is known what it holds.
    ensures whole { OnOk result (IsPut R.File.remaining R.File.contents octets.now) }
{
    let path = path_of(rt.alloc(), folder, name)?;
    match found_below(rt, folder, name, path.as_str(), octets) {
        Ok(Found::Nothing) => match put_below(rt, folder, name, path.as_str(), octets) {
            Ok(()) => Ok(()),
            Err(error) => Err(unput(rt.alloc(), &error, path.as_str())),
        },
        Ok(Found::Same) => Ok(()),
        Ok(Found::Other) => Err(taken(rt.alloc(), path.as_str())),
        Err(error) => Err(unput(rt.alloc(), &error, path.as_str())),
    }
}

/// The octets of the file `FOLDER/NAME.ers`. The folder must be there; on the way from it there must be folders, and no
/// link; at the path of the file there must be a regular file. One that has more octets than may be read whole fails.
pub fn read_below<'p, R: Files + AllocGlobal>(
    rt: &R,
    folder: &str,
    name: &str,
) -> Result<Vec<u8>, Failure<'p>>
    // Returns at most as many octets as may be read whole.
    ensures size { IfOk result (λ octets. length octets.items ≤ MOST) }
    // A failure is a lack of memory, or names the file.
    ensures failure { IfErr result (IsFailureToReadShown (path_below folder.now name.now)) }
    // They are all the octets of a file that was opened, if it is known what such a file holds.
    ensures whole { IfOk result (λ octets. IsHeld R.File.remaining octets.items) }
{
    let path = path_of(rt.alloc(), folder, name)?;
    match folder::open_below(rt, folder, name, path.as_str()) {
        Ok(file) => shown_octets_in(rt.alloc(), file, path.as_str()),
        Err(error) => Err(unopened(rt.alloc(), &error, path.as_str())),
    }
}

/// Tests whether the file `FOLDER/NAME.ers` can be replaced, as `replace_below` replaces it.
pub fn test_replace_below<'p, R: Files + AllocGlobal>(
    rt: &R,
    folder: &str,
    name: &str,
) -> Result<(), Failure<'p>>
    // A failure is a lack of memory, or names the file.
    ensures { IfErr result (IsFailureToReplaceShown (path_below folder.now name.now)) }
{
    let path = path_of(rt.alloc(), folder, name)?;
    match folder::can_replace_below(rt, folder, name, path.as_str()) {
        Ok(true) => Ok(()),
        Ok(false) => Err(unreplaced(rt.alloc(), path.as_str())),
        Err(error) => Err(unput(rt.alloc(), &error, path.as_str())),
    }
}

/// Replaces the file `FOLDER/NAME.ers`, a regular file that is there, once the octets are written whole beside it. It
/// keeps its permissions, and holds what it held or these octets, at any moment. No link below the folder is followed.
pub fn replace_below<'p, R: Files + AllocGlobal>(
    rt: &R,
    folder: &str,
    name: &str,
    octets: &[u8],
) -> Result<(), Failure<'p>>
    // A failure is a lack of memory, or names the file.
    ensures failure { IfErr result (IsFailureToReplaceShown (path_below folder.now name.now)) }
    // They come after what a file that was opened held, if it is known what such a file holds.
    ensures whole { OnOk result ((before : R.File) × (after : R.File) × Appends (R.File.contents before)
        (R.File.contents after) octets.now) }
{
    let path = path_of(rt.alloc(), folder, name)?;
    match folder::replace_below(rt, folder, name, path.as_str(), octets) {
        Ok(()) => Ok(()),
        Err(error) => Err(unput(rt.alloc(), &error, path.as_str())),
    }
}

/// Refuses the path of a file that is to be written, the value of the option of this name, if it names a file that is
/// to be read: by the same text, or as one regular file, links followed.
pub fn apart<'p, R: Files + AllocGlobal>(
    rt: &R,
    name: &'p str,
    out: &str,
    input: &str,
) -> Result<(), Failure<'p>>
    // After a success the two paths are different texts.
    ensures apart { OnOk result (out.now ≢ input.now) }
    // A failure is a lack of memory, or `Usage` with this name.
    ensures refused { IfErr result (λ f. (f ≡ Failure.Memory) ⊎ (f ≡ Failure.Usage name.entry)) }
{
    if out == input {
        return Err(Failure::Usage(name));
    }
    match are_same(rt, out, opened_path(input)) {
        Ok(false) => Ok(()),
        Ok(true) => Err(Failure::Usage(name)),
        Err(_) => Err(Failure::Memory),
    }
}

/// The failure that reports a device's error: this one, unless memory ran out.
fn device_failure<'p>(error: &io::Error, otherwise: Failure<'p>) -> Failure<'p>
    ensures memory { error_kind error.now ≡ ErrorKind.OutOfMemory → result ≡ Failure.Memory }
    ensures other { error_kind error.now ≢ ErrorKind.OutOfMemory → result ≡ otherwise.entry }
{
    if error.kind() == ErrorKind::OutOfMemory {
        Failure::Memory
    } else {
        otherwise
    }
}

/// The octets of a file, as `read_whole` reads them. A failure names the path as texts with any octets are shown: where
/// many files are named at once, their names are mostly from elsewhere.
pub fn read_shown<'p, R: Files + AllocGlobal>(rt: &R, path: &str) -> Result<Vec<u8>, Failure<'p>>
    // Returns at most as many octets as may be read whole.
    ensures size { IfOk result (λ octets. length octets.items ≤ MOST) }
    // A failure is a lack of memory, or names this path.
    ensures failure { IfErr result (IsFailureToReadShown path.now) }
    // They are all the octets of a file that was opened, if it is known what such a file holds.
    ensures whole { IfOk result (λ octets. IsHeld R.File.remaining octets.items) }
{
    match fs::open(rt, opened_path(path)) {
        Ok(file) => shown_octets_in(rt.alloc(), file, path),
        Err(error) => Err(unopened(rt.alloc(), &error, path)),
    }
}

/// The failure of a file of this path that does not hold any more what it held: it can't be read.
pub fn changed<'p>(alloc: Global, path: &str) -> Failure<'p>
    // It names this path as it is shown, or memory ran out.
    ensures { (result ≡ Failure.Memory) ⊎ IsUnread path.now result }
{
    match shown_text(alloc, path.as_bytes()) {
        Ok(shown) => Failure::Unread(shown),
        Err(_) => Failure::Memory,
    }
}

/// Tests whether the regular file of this path can be replaced, as `replace_whole` replaces it.
pub fn test_whole<'p, R: Files + AllocGlobal>(rt: &R, path: &str) -> Result<(), Failure<'p>>
    // A failure is a lack of memory, or names this path.
    ensures { IfErr result (IsFailureToReplaceShown path.now) }
{
    match can_replace(rt, path) {
        Ok(true) => Ok(()),
        Ok(false) => Err(unreplaced(rt.alloc(), path)),
        Err(error) => Err(unput(rt.alloc(), &error, path)),
    }
}

/// Replaces the regular file of this path, once the octets are written whole beside it. It keeps its permissions. A
/// link, a device, a pipe, or the path of no file is refused, so that a file holds what it held or these octets, at any
/// moment.
pub fn replace_whole<'p, R: Files + AllocGlobal>(
    rt: &R,
    path: &str,
    octets: &[u8],
) -> Result<(), Failure<'p>>
    // A failure is a lack of memory, or names this path.
    ensures failure { IfErr result (IsFailureToReplaceShown path.now) }
    // They come after what a file that was opened held, if it is known what such a file holds.
    ensures whole { OnOk result ((before : R.File) × (after : R.File) × Appends (R.File.contents before)
        (R.File.contents after) octets.now) }
{
    match replace_there(rt, path, octets) {
        Ok(()) => Ok(()),
        Err(error) => Err(unput(rt.alloc(), &error, path)),
    }
}
