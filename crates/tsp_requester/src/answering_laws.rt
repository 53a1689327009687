//! What holds of the definitions of answering: there is no code to run.

ghost use Rattle.tsp_requester.specs.AnsweringRows.{AnsweringRows, FailingRows};
ghost use Rattle.tsp_requester.specs.AnsweringLaws.{AnswersOrFails, NeverBoth, FailsOneRule};

/// A response answers a request or fails exactly one rule first, and never both.
pub fn responses_are_judged()
    // A response answers the request or fails a rule, if its token consists of octets.
    ensures judged { AnswersOrFails }
    // No response both answers a request and fails a rule.
    ensures never_both { NeverBoth }
    // A response fails at most one rule first.
    ensures one_rule { FailsOneRule }
{}

/// The worked rows: responses that answer a request, and responses that don't, each with the rule that fails first.
pub fn answering_rows_hold()
    // Responses that answer a request.
    ensures answering { AnsweringRows }
    // Responses that do not answer, each with the rule that it fails first.
    ensures failing { FailingRows }
{}
