//! The worse of two statuses.
ghost use Rattle.cli_files.specs.Lines.{IsWorse};

use cli_failures::Status;

/// The worse of two statuses.
pub fn worse(one: Status, other: Status) -> Status
    ensures { IsWorse one other result }
{
    if one.code() < other.code() {
        other
    } else {
        one
    }
}
