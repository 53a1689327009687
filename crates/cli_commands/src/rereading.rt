ghost use Rattle.std.specs.Prelude.{Option, unwrap_or, [], OnOk};
ghost use Rattle.std.specs.declared.fs.Metadata.{Metadata};
ghost use Rattle.devices.specs.Device.{Counts};
ghost use Rattle.cli_commands.specs.Rereading.{IsAtFront, IsKnown, States};

use cms_stream::Pass;
use devices::{Source, SourceFault};
use digests::Algs;
use std::fs::{Metadata, OpenFile};
use std::io::{Read, Seek};

/// An open file that says of itself what it is, as each does.
pub trait Describes {
    // What it may say. No contract of `OpenFile` says so of a file: here a name stands for it, by which the contracts
    // of the commands say that they go by what this file said, and by nothing else.
    ghost says: { Self → Option Metadata → Type 0 };

    /// What it says, if it says something.
    fn about(&self) -> Option<Metadata>
        ensures { says self.now result };
}

impl<F: OpenFile> Describes for F {
    ghost use Rattle.std.specs.Prelude.{⊤};

    ghost says = { λ _ _. ⊤ };

    fn about(&self) -> Option<Metadata> {
        self.metadata().ok()
    }
}

/// An open file as a source, which can be read again from its front.
///
/// It is known what is still to come (`tells`) if the file's type says what a file has left, and that is a list of
/// octets.
#[derive(Drop)]
pub struct Rereadable<F> {
    /// The open file.
    pub file: F,
    /// How many times it has failed to be read, or to go back.
    pub failed: u64,
}

impl<F: Read> Source for Rereadable<F> {
    ghost rest = { λ s. unwrap_or (F.remaining s.file) [] };

    ghost tells = { λ s. IsKnown (F.remaining s.file) };

    ghost failures = { λ s. s.failed };

    ghost octets = { λ _ t. t.1 };

    // One read at each call: an error, an interrupted read included, is a failure, and is not tried again.
    fn fill(&mut self, buf: &mut [u8]) -> Result<usize, SourceFault> {
        match self.file.read(buf) {
            Ok(count) => Ok(count),
            Err(_) => {
                self.failed = self.failed.saturating_add(1);
                Err(SourceFault)
            }
        }
    }
}

impl<F: Seek> Rereadable<F> {
    /// Goes back to the front of the file.
    ///
    /// Errors: `SourceFault`, if the device fails. The failure is counted.
    pub fn rewind(&mut self) -> Result<(), SourceFault>
        ensures front { OnOk result (IsAtFront F.stream_position self.new.file) }
        ensures count { Counts result self.old.failed self.new.failed }
    {
        match self.file.rewind() {
            Ok(()) => Ok(()),
            Err(_) => {
                self.failed = self.failed.saturating_add(1);
                Err(SourceFault)
            }
        }
    }
}

impl<F: Read + Seek> Rereadable<F> {
    /// The algorithms that the digestAlgorithms at the front of the file name. Then the file is at its front again.
    ///
    /// A read that fails here is not counted: the next pass meets the failure again, or it is gone.
    ///
    /// Errors: as `rewind`.
    pub fn listed(&mut self, passing: &mut Pass) -> Result<Algs, SourceFault>
        ensures front { OnOk result (IsAtFront F.stream_position self.new.file) }
        ensures count { Counts result self.old.failed self.new.failed }
    {
        let failed = self.failed;
        let listed = passing.listed_algorithms(self);
        self.failed = failed;
        self.rewind()?;
        Ok(listed)
    }
}

impl<F: Describes> Rereadable<F> {
    /// How many octets it says that it has, if it is a regular file, which can be read more than once; a pipe isn't.
    pub fn stated(&self) -> Option<u64>
        ensures { States F.says self.now.file result }
    {
        match self.file.about() {
            Some(about) if about.is_file() => Some(about.len()),
            _ => None,
        }
    }
}
