use cli_failures::Failure;
use cli_making::Puts;
use std::alloc::Global;

/// A file that was put.
#[derive(Drop)]
pub struct Kept {
    pub folder: String,
    pub name: String,
    pub octets: Vec<u8>,
}

/// Files in memory, in the order in which they were put. There is room for so many; a test doesn't say so.
#[derive(Drop)]
pub struct Memory {
    pub alloc: Global,
    pub files: Vec<Kept>,
    room: usize,
}

impl Memory {
    /// With no file yet.
    pub fn new(alloc: Global, room: usize) -> Memory {
        let files = Vec::new(alloc);
        Memory { alloc, files, room }
    }
}

impl Puts for Memory {
    ghost use Rattle.std.specs.Prelude.{⊤, Some, map};
    ghost use Rattle.std.specs.String.{string_bytes};
    ghost use Rattle.cli_making.specs.Placing.{any_ways, placed};

    ghost ways = { any_ways };

    ghost did = { λ _. ⊤ };

    ghost put = { λ s. Some (map (λ k. placed (string_bytes k.folder) (string_bytes k.name) k.octets.items)
        s.files.items) };

    fn test_file<'p>(&self, _folder: &str, _name: &str, _octets: &[u8]) -> Result<(), Failure<'p>> {
        Ok(())
    }

    fn put_file<'p>(&mut self, folder: &str, name: &str, octets: &[u8]) -> Result<(), Failure<'p>> {
        if self.files.len() >= self.room {
            return Err(Failure::Write("memory"));
        }
        let kept = Kept {
            folder: String::from_str(self.alloc, folder)?,
            name: String::from_str(self.alloc, name)?,
            octets: Vec::from_slice(self.alloc, octets)?,
        };
        self.files.push(kept)?;
        Ok(())
    }
}
