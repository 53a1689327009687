//! What holds of the definitions: there is no code to run.

ghost use Rattle.list_answers.specs.Rows.{AnswersRows};

/// The worked rows: texts that are answers lists, with the questions that they state, and texts that are none, with
/// their first fault.
pub fn rows_hold()
    ensures { AnswersRows }
{}
