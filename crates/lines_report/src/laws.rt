//! What holds of the lines of verdicts: there is no code to run.

ghost use Rattle.lines_report.specs.VerdictLine.{LinesAreUnique};
ghost use Rattle.lines_report.specs.Rows.{LineRows};

/// No verdict has two lines.
pub fn answers_have_one_line()
    // A verdict has at most one line.
    ensures { LinesAreUnique }
{}

/// The worked rows: the lines of verdicts.
pub fn rows_hold()
    ensures { LineRows }
{}
