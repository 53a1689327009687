//! What is said of several things, one after the other.
use std::alloc::{AllocError, Global};
use vectors::{Bad, Said};

/// Lines, each with how often it follows itself.
#[derive(Drop)]
pub struct Runs {
    /// The runs that have ended: `4 one, 1 other`.
    ended: String,
    /// The last line, and how often it follows itself; 0 if there is none.
    last: String,
    count: usize,
}

impl Runs {
    /// None.
    pub fn new(alloc: Global) -> Runs {
        Runs {
            ended: String::new(alloc),
            last: String::new(alloc),
            count: 0,
        }
    }

    /// Adds a line.
    pub fn add(&mut self, said: &mut Said, line: String) {
        if self.count > 0 && self.last.as_str() == line.as_str() {
            self.count = self.count.saturating_add(1);
        } else {
            self.end_run(said);
            self.last = line;
            self.count = 1;
        }
    }

    /// Ends the last run, if there is one.
    fn end_run(&mut self, said: &mut Said) {
        if self.count > 0 {
            let run = printed(said, self.run(said.alloc));
            if self.ended.push_str(run.as_str()).is_err() {
                said.refuse(Bad::Memory);
            }
        }
    }

    fn run(&self, alloc: Global) -> Result<String, AllocError> {
        let comma = if self.ended.is_empty() { "" } else { ", " };
        format!(in alloc; "{comma}{} {}", self.count, self.last)
    }

    /// Says the lines, each with its count: `4 one, 1 other`; of no line nothing.
    pub fn tell(mut self, said: &mut Said) {
        self.end_run(said);
        said.word(self.ended.as_str());
    }

    /// The one line, if all are the same; otherwise as `tell` says them.
    pub fn same(mut self, said: &mut Said) -> String {
        if self.ended.is_empty() {
            return self.last;
        }
        self.end_run(said);
        self.ended
    }
}

/// A text that was printed, or an empty one, which makes the answer bad.
pub fn printed(said: &mut Said, text: Result<String, AllocError>) -> String {
    match text {
        Ok(text) => text,
        Err(_) => {
            said.refuse(Bad::Memory);
            String::new(said.alloc)
        }
    }
}
