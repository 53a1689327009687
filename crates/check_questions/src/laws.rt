//! What holds of the questions of files and of tokens: there is no code to run.

ghost use Rattle.check_questions.specs.Laws.{ListsHaveTheQuestions, FilesHaveQuestions, FilesHaveOneList};
ghost use Rattle.check_questions.specs.Laws.{TokensListTheQuestions, TokensHaveQuestions, TokensHaveOneList};
ghost use Rattle.check_questions.specs.Rows.{FileRows, SignerRows, TextRows};

/// Each file of octets that encodes a SignedData has exactly one list of questions, and its members are those questions
/// on whose answers it may depend whether the file is accepted or refused. The same holds of a token by itself, and
/// whether it passes.
pub fn questions_are_those_asked()
    // The members of the list are exactly the questions on whose answers the verdict may depend.
    ensures members { ListsHaveTheQuestions }
    // Each file of octets that encodes a SignedData has such a list.
    ensures some { FilesHaveQuestions }
    // A file has at most one such list.
    ensures one { FilesHaveOneList }
    // The members of a token's list are exactly the questions on whose answers its verdict may depend.
    ensures members_of_token { TokensListTheQuestions }
    // Each token of octets that encodes a SignedData has such a list.
    ensures some_of_token { TokensHaveQuestions }
    // A token has at most one such list.
    ensures one_of_token { TokensHaveOneList }
{}

/// The worked rows: the questions of files whose octets are written out and of signers, and their text.
pub fn rows_hold()
    // The questions of files: without a token, with one and with two, under lists in several orders.
    ensures files { FileRows }
    // The questions of signers: without attributes, and with values that are no token of one signer.
    ensures signers { SignerRows }
    // The text of no question and of two, and the line of a question with empty fields.
    ensures texts { TextRows }
{}
