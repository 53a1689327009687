//! Reading a ContentInfo (RFC 5652 section 3) whose end may not be present yet: it is the reading of a slice of all
//! octets, and its faults hold openly, so they are those of every file with this beginning. `specs/OpenReading` has the
//! readings of parts, `specs/OpenContentInfo` that of a file, and `specs/Laws` states what is proved of it. There is no
//! code here except the laws. Decisions 123 and 124 of `docs/DECISIONS.md`.
#![tactic(auto)]

ghost use Rattle.cms_stream_laws.specs.Laws.{FilesAreReadAlike, FaultsAreOfFiles, FaultsHoldOpenly, GoodFilesAreRead};
ghost use Rattle.cms_stream_laws.specs.Laws.{ReadFilesAreGood, ContentTypeIsStated, SignersAreStated, SixOctetsDecide};

/// Whole files are read alike; a fault holds openly of the file, and is one of it or of each whole file that it begins;
/// and a value that is encoded is read.
pub fn files_are_read_alike()
    // A pass, which does not know the end, reads octets as a reader of all does, or they are cut short.
    ensures alike { FilesAreReadAlike }
    // A fault of the pass is one of the file, or of each whole file that the octets begin.
    ensures faults { FaultsAreOfFiles }
    // A fault of the pass holds openly of the file: of its octets, or at an open place of them.
    ensures openly { FaultsHoldOpenly }
    // The pass gives the value that octets encode.
    ensures good { GoodFilesAreRead }
    // A value that the pass gives is encoded by the octets.
    ensures read { ReadFilesAreGood }
{}

/// The first six octets of a body decide what the header of its first element states, and how it is malformed (X.690
/// 8.1.2, 8.1.3, with at most four further length octets).
pub fn six_octets_decide()
    ensures { SixOctetsDecide }
{}

/// The two headers whose lengths limit what a pass over a file keeps, those of eContentType and of signerInfos (RFC
/// 5652 5.1, 5.2), are stated at open places of the file.
pub fn headers_are_stated()
    // The header of eContentType that a pass meets is stated at an open place of the file.
    ensures content_type { ContentTypeIsStated }
    // The header of signerInfos that a pass meets is stated at an open place of the file.
    ensures signers { SignersAreStated }
{}
