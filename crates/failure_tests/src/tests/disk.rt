//! Files that tests make and remove, if memory may be refused once.
use std::{fs, io};

/// Makes a file; whether that was done.
pub fn put(rt: &HostRuntime, path: &str, octets: &[u8]) -> bool {
    match fs::write(rt, path, octets) {
        Ok(()) => true,
        Err(_) => fs::write(rt, path, octets).is_ok(),
    }
}

/// The octets that digits spell.
pub fn octets_of(rt: &HostRuntime, digits: &str) -> Option<Vec<u8>> {
    match hex::decode(rt.alloc(), digits) {
        Ok(octets) => Some(octets),
        Err(_) => hex::decode(rt.alloc(), digits).ok(),
    }
}

/// Makes a file of the octets that these digits spell; whether that was done.
pub fn put_digits(rt: &HostRuntime, path: &str, digits: &str) -> bool {
    match octets_of(rt, digits) {
        Some(octets) => put(rt, path, &octets),
        None => false,
    }
}

/// Removes these files; whether that was done.
pub fn remove(rt: &HostRuntime, paths: &[&str]) -> bool {
    for path in paths {
        if fs::remove_file(rt, *path).is_err() && fs::remove_file(rt, *path).is_err() {
            return false;
        }
    }
    true
}

/// Makes these folders, in this order.
pub fn make_folders(rt: &HostRuntime, paths: &[&str]) -> io::Result<()> {
    for path in paths {
        fs::create_dir(rt, *path)?;
    }
    Ok(())
}

/// Removes these folders, in this order.
pub fn remove_folders(rt: &HostRuntime, paths: &[&str]) -> io::Result<()> {
    for path in paths {
        fs::remove_dir(rt, *path)?;
    }
    Ok(())
}

/// Whether a file has these octets.
pub fn has(rt: &HostRuntime, path: &str, octets: &[u8]) -> bool {
    match fs::read(rt, path) {
        Ok(read) => read.as_slice() == octets,
        Err(_) => false,
    }
}

/// Whether no file has this path.
pub fn is_free(rt: &HostRuntime, path: &str) -> bool {
    matches!(fs::exists(rt, path), Ok(false))
}
