//! What holds of the questions of evidence records: there is no code to run.

ghost use Rattle.evidence_questions.specs.Laws.{RecordsListTheQuestions, RecordsHaveQuestions, RecordsHaveOneList};
ghost use Rattle.evidence_questions.specs.Laws.{StampsAskTheListed, ChecksAskTheListed};
ghost use Rattle.evidence_questions.specs.Laws.{StampsPassAlike, StampsFailAlike, StampsLastAlike};
ghost use Rattle.evidence_questions.specs.Laws.{RecordsShowAlike, RecordsRefusedAlike};
ghost use Rattle.evidence_questions.specs.Rows.{QuestionRows};

/// Each open evidence record of octets has exactly one list of questions, and its members are those questions on whose
/// answers it may depend what its time-stamps show.
pub fn record_questions_are_those_asked()
    // The members of the list are exactly the questions about the tokens of its time-stamps.
    ensures members { RecordsListTheQuestions }
    // What a check of a time-stamp's token asks is in the list, whatever is due as its imprint.
    ensures asked { StampsAskTheListed }
    // And so is each question that `check_evidence` asks of the record.
    ensures checks { ChecksAskTheListed }
    // Each evidence record of octets whose data are not encrypted has such a list.
    ensures some { RecordsHaveQuestions }
    // A record has at most one such list.
    ensures one { RecordsHaveOneList }
{}

/// What a record and its time-stamps show depends only on the verifier's answers to the questions of the record.
pub fn record_answers_suffice()
    // A token of it passes exactly if it does under other answers that agree on these, whatever is due as its imprint.
    ensures passing { StampsPassAlike }
    // It fails a rule first exactly if it does under those answers.
    ensures failures { StampsFailAlike }
    // It lasts to a moment exactly if it does under those answers.
    ensures lasting { StampsLastAlike }
    // The record shows a moment for data objects exactly if it does under those answers.
    ensures showing { RecordsShowAlike }
    // It is refused exactly if it is under those answers, for the same reason.
    ensures refusing { RecordsRefusedAlike }
{}

/// The worked rows of the questions of records.
pub fn record_question_rows_hold()
    ensures { QuestionRows }
{}
