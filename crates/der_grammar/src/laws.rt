//! What holds of the grammar: there is no code to run.

ghost use Rattle.der_grammar.specs.Laws.{TableIsClear};

/// Each part of the table that may be absent can be distinguished from what may follow it.
pub fn table_is_clear()
    // The form of each whole input in the grammar table is clear.
    ensures { TableIsClear }
{}
