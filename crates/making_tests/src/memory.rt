//! Two records in memory, in place of the system's files.
use cli_failures::Failure;
use cli_rehashing::KeepsBelow;
use cli_renewing::Keeps;
use std::alloc::Global;

/// Their paths.
pub const PATHS: [&str; 2] = ["first.ers", "second.ers"];

/// The name of the first below the folder.
const FIRST_NAME: &str = "first";

/// The octets of both, which have a path each, and a name below a folder. So many more files can be put.
#[derive(Drop)]
pub struct Memory {
    pub alloc: Global,
    pub first: Vec<u8>,
    pub second: Vec<u8>,
    pub left: u32,
}

impl Memory {
    // The octets of the first record, or of the second.
    fn read<'p>(&self, is_first: bool) -> Result<Vec<u8>, Failure<'p>> {
        let record = if is_first {
            self.first.as_slice()
        } else {
            self.second.as_slice()
        };
        Ok(Vec::from_slice(self.alloc, record)?)
    }

    // Puts these octets in its place.
    fn put<'p>(&mut self, is_first: bool, octets: &[u8]) -> Result<(), Failure<'p>> {
        if self.left == 0 {
            return Err(Failure::Write("memory"));
        }
        self.left -= 1;
        let record = Vec::from_slice(self.alloc, octets)?;
        if is_first {
            self.first = record;
        } else {
            self.second = record;
        }
        Ok(())
    }
}

impl Keeps for Memory {
    ghost use Rattle.std.specs.Prelude.{None};
    ghost use Rattle.cli_renewing.specs.Keeping.{any_ways};

    ghost ways = { any_ways };

    ghost put = { λ _. None };

    fn read_file<'p>(&self, path: &str) -> Result<Vec<u8>, Failure<'p>> {
        self.read(path == PATHS[0])
    }

    fn test_file<'p>(&self, _path: &str) -> Result<(), Failure<'p>> {
        Ok(())
    }

    fn put_file<'p>(&mut self, path: &str, octets: &[u8]) -> Result<(), Failure<'p>> {
        self.put(path == PATHS[0], octets)
    }
}

impl KeepsBelow for Memory {
    ghost use Rattle.std.specs.Prelude.{None};
    ghost use Rattle.cli_renewing.specs.Keeping.{any_ways};

    ghost ways = { any_ways };

    ghost put = { λ _. None };

    fn read_file<'p>(&self, folder: &str, name: &str) -> Result<Vec<u8>, Failure<'p>> {
        if folder != "folder" {
            return Err(Failure::Read("memory"));
        }
        self.read(name == FIRST_NAME)
    }

    fn test_file<'p>(&self, _folder: &str, _name: &str) -> Result<(), Failure<'p>> {
        Ok(())
    }

    fn put_file<'p>(
        &mut self,
        _folder: &str,
        name: &str,
        octets: &[u8],
    ) -> Result<(), Failure<'p>> {
        self.put(name == FIRST_NAME, octets)
    }
}
