//! What holds of attaching: there is no code to run.

ghost use Rattle.tsp_requester.specs.AttachingLaws.{NeverBoth, NewFilesEncode, OneFile, OneRule};
ghost use Rattle.tsp_requester.specs.AttachingRows.{AttributeRows, NumberRows, SizeRows, LimitRows};

/// A token is never both attached to a signer of a file and refused; there is at most one SignedData with the token,
/// which the new file encodes, and at most one rule that fails first.
pub fn attachments_are_judged()
    // A token that can be attached is not refused.
    ensures never_both { NeverBoth }
    // At most one SignedData is the file with the token.
    ensures one_file { OneFile }
    // The new octets encode the SignedData with the token.
    ensures encodes { NewFilesEncode }
    // Two refusals of the same inputs are under one rule.
    ensures one_rule { OneRule }
{}

/// The worked rows: the place of the attribute, which signer gets it, the new lengths, and the greatest length.
pub fn attaching_rows_hold()
    // The attribute is a list of its own, or comes after two others, which keep their order.
    ensures attributes { AttributeRows }
    // Signers 1 and 2 of two get the token; with the numbers 0 and 3 nothing changes.
    ensures numbers { NumberRows }
    // The sizes of elements around 128, 256 and 65,536 octets of contents, where the header grows.
    ensures sizes { SizeRows }
    // Four length octets can state 4,294,967,295, and no more.
    ensures limits { LimitRows }
{}
