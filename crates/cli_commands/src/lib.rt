//! What each command does: the files that it reads and writes, what it prints, and how it ends. Of
//! the words of a command line it knows only those that are values.
#![tactic(auto)]

mod asking;
mod attaching;
mod checking;
mod comparing;
mod fit;
mod lists;
mod matching;
mod migrating;
mod output;
mod request;
mod rereading;
mod room;
mod show;
mod stamping;
mod telling;

pub use asking::ask_by;
pub use checking::{check_by, line_of};
pub use lists::{answers_in, trust_in};
pub use rereading::Describes;
pub use room::limit_of;
pub use stamping::stamp_questions_by;
pub use telling::{print, run, text_of};
