//! The files below a folder that records are in.
use cli_failures::{Failure, files};
use cli_making::System;
use std::rt::Files;

/// Reads files and replaces them, each as `FOLDER/NAME.ers`: the system, or what stands for it in a test.
pub trait KeepsBelow {
    ghost use Rattle.std.specs.Prelude.{ℕ, List, [], ◌∷◌, Option, IfErr, IfOk, OnErr, OnOk};
    ghost use Rattle.cli_failures.specs.Files.{path_below};
    ghost use Rattle.cli_making.specs.Adding.{Adds};
    ghost use Rattle.cli_renewing.specs.Keeping.{Kept, Ways, kept};

    // What is known of reading files and replacing them. No contract of `Files` says which path is read or written:
    // here paths stand for what is asked of the system, by which the contracts say of which file what is read and put.
    ghost ways: { Ways };

    // The files that were put so far, in their order, if that is known.
    ghost put: { Self → Option (List Kept) };

    /// The octets of the file of this name below a folder.
    fn read_file<'p>(&self, folder: &str, name: &str) -> Result<Vec<u8>, Failure<'p>>
        // The file was read so.
        ensures read { IfOk result (λ octets. ways.read (kept (path_below folder.now name.now) octets.items)) }
        // Why it can't be read.
        ensures unread { IfErr result (ways.unread (path_below folder.now name.now)) };

    /// Tests whether the file of this name below a folder can be replaced.
    fn test_file<'p>(&self, folder: &str, name: &str) -> Result<(), Failure<'p>>
        // A test found that it can be replaced.
        ensures can { OnOk result (ways.can (path_below folder.now name.now)) }
        // Why it can't be replaced.
        ensures unput { IfErr result (ways.unput (path_below folder.now name.now)) };

    /// Replaces the file of this name below a folder by these octets: at any moment it holds what it held, or these.
    fn put_file<'p>(&mut self, folder: &str, name: &str, octets: &[u8]) -> Result<(), Failure<'p>>
        // The file was put.
        ensures did { OnOk result (ways.did (kept (path_below folder.now name.now) octets.now)) }
        // Why it was not.
        ensures unput { IfErr result (ways.unput (path_below folder.now name.now)) }
        // After a success this file was put, and no other.
        ensures adds { OnOk result (Adds (put self.old) (put self.new)
            (kept (path_below folder.now name.now) octets.now ∷ [])) }
        // After a failure none was.
        ensures none { OnErr result (Adds (put self.old) (put self.new) []) };
}

/// The files of the system. No link below the folder is followed.
impl<R: Files + AllocGlobal> KeepsBelow for System<'_, R> {
    ghost use Rattle.std.specs.Prelude.{None};
    ghost use Rattle.cli_renewing.specs.Keeping.{system_ways};

    ghost ways = { system_ways R.File.remaining R.File.contents };

    ghost put = { λ _. None };

    fn read_file<'p>(&self, folder: &str, name: &str) -> Result<Vec<u8>, Failure<'p>> {
        files::read_below(self.rt, folder, name)
    }

    fn test_file<'p>(&self, folder: &str, name: &str) -> Result<(), Failure<'p>> {
        files::test_replace_below(self.rt, folder, name)
    }

    fn put_file<'p>(&mut self, folder: &str, name: &str, octets: &[u8]) -> Result<(), Failure<'p>> {
        files::replace_below(self.rt, folder, name, octets)
    }
}
