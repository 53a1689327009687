use crate::system::System;
use cli_failures::{Failure, files};
use std::rt::Files;

/// Puts files below folders: the system, or what stands for it in a test.
pub trait Puts {
    ghost use Rattle.std.specs.Prelude.{ℕ, List, [], ◌∷◌, Option, IfErr, OnErr, OnOk};
    ghost use Rattle.cli_making.specs.Adding.{Adds};
    ghost use Rattle.cli_making.specs.Placing.{Placed, Ways, placed};

    // What is known of its tests and failures. No contract of `Files` says which path is written: here names stand for
    // what is asked of the system, by which the contracts say which octets are put where.
    ghost ways: { Ways };

    // That a file was put.
    ghost did: { Placed → Type 0 };

    // The files that were put so far, in their order, if that is known. One that is there already with just these
    // octets counts as put.
    ghost put: { Self → Option (List Placed) };

    /// Tests whether these octets can be put as the file `FOLDER/NAME.ers`.
    fn test_file<'p>(&self, folder: &str, name: &str, octets: &[u8]) -> Result<(), Failure<'p>>
        // A test found that they can be put.
        ensures can { OnOk result (ways.can (placed folder.now name.now octets.now)) }
        // Why they can't be put.
        ensures fails { IfErr result (ways.fails (placed folder.now name.now octets.now)) };

    /// Puts them there, after a test.
    fn put_file<'p>(&mut self, folder: &str, name: &str, octets: &[u8]) -> Result<(), Failure<'p>>
        // The file was put.
        ensures did { OnOk result (did (placed folder.now name.now octets.now)) }
        // Why it was not.
        ensures fails { IfErr result (ways.fails (placed folder.now name.now octets.now)) }
        // After a success this file was put, and no other.
        ensures adds { OnOk result (Adds (put self.old) (put self.new) (placed folder.now name.now octets.now ∷ [])) }
        // After a failure none was.
        ensures none { OnErr result (Adds (put self.old) (put self.new) []) };
}

impl<R: Files + AllocGlobal> Puts for System<'_, R> {
    ghost use Rattle.std.specs.Prelude.{None};
    ghost use Rattle.cli_making.specs.Placing.{SystemPut, system_ways};

    ghost ways = { system_ways R.File.remaining };

    ghost did = { SystemPut R.File.remaining R.File.contents };

    ghost put = { λ _. None };

    fn test_file<'p>(&self, folder: &str, name: &str, octets: &[u8]) -> Result<(), Failure<'p>> {
        files::test_below(self.rt, folder, name, octets)
    }

    fn put_file<'p>(&mut self, folder: &str, name: &str, octets: &[u8]) -> Result<(), Failure<'p>> {
        files::write_below(self.rt, folder, name, octets)
    }
}
