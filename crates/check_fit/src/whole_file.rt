ghost use Rattle.std.specs.Prelude.{◌≡◌, Result, Ok, Err, MatchResult, is_some, List, ℕ};
ghost use Rattle.cms_types.specs.SignedDataValue.{SignedDataValue};
ghost use Rattle.cms_types.specs.declared.fault.CmsFault.{CmsFault};
ghost use Rattle.check_fit.specs.FileFitting.{facts_of, IsReading, placed, file_rules, HasDigests, Hashes, Opens};
ghost use Rattle.check_fit.specs.FileFitting.{OfRules, OfFile, FitsSigners, FitsFile};

use crate::content_digests::{digests_from, digests_of};
use crate::every_signer::{first_unfit, wanted_by};
use crate::policy::Policy;
use crate::rules::{FileRule, Refused};
use cms_types::{CmsFault, SignedData, Signers};
use devices::Source;
use digests::{Algs, WantedDigests};

// C4 and C5: the content is in the SignedData or handed in, and not both.
fn place(signed: &SignedData, handed: bool) -> Result<(), Refused>
    ensures { MatchResult result (λ u. placed signed.now signed.now.encapsulated.content handed ≡ Ok signed.now)
        (λ e. placed signed.now signed.now.encapsulated.content handed ≡ Err e) }
{
    match (signed.content(), handed) {
        (None, false) => Err(Refused::File(FileRule::NoContent)),
        (Some(_), true) => Err(Refused::File(FileRule::ContentTwice)),
        _ => Ok(()),
    }
}

/// The SignedData that a file encodes, if its content is in it or handed in, and not both.
///
/// Errors: the first of C1 to C5 that fails.
pub fn read_file<'a>(file: &'a [u8], handed: bool) -> Result<SignedData<'a>, Refused>
    // Returns the SignedData that the file encodes, or the first of C1 to C5 that fails.
    ensures { (reading : Result SignedDataValue CmsFault) × IsReading file.now reading
        × MatchResult result (λ v. file_rules reading handed ≡ Ok v) (λ e. file_rules reading handed ≡ Err e) }
{
    let signed = match SignedData::read(file) {
        Ok(signed) => signed,
        Err(CmsFault::Malformed(fault)) => return Err(Refused::File(FileRule::Malformed(fault))),
        Err(CmsFault::NotSignedData) => return Err(Refused::File(FileRule::NotSignedData)),
        Err(CmsFault::OutOfMemory) => unreachable!(),
    };
    if signed.signers().is_empty() {
        return Err(Refused::File(FileRule::NoSigner));
    }
    place(&signed, handed)?;
    Ok(signed)
}

/// The digests by these algorithms of the content of a SignedData, which is in it, or is handed in as a source, which
/// is read once.
///
/// Errors: C4 if there is no content, and C5 if there are two, and then none of the content is read; X1 if the source
/// fails, and X5 if the content has more than 2^40 octets.
pub fn hash_content<S: Source>(
    signed: &SignedData,
    content: &mut Option<S>,
    wanted: Algs,
) -> Result<WantedDigests, Refused>
    // Returns the digests of the content by these algorithms, or C4, C5, X1 or X5.
    ensures { OfRules (facts_of S.tells S.rest S.failures) (Hashes wanted)
        (placed signed.now signed.now.encapsulated.content (is_some content.old)) content.old content.new result }
{
    place(signed, content.is_some())?;
    if let Some(octets) = signed.content() {
        return Ok(digests_of(wanted, octets));
    }
    let Some(source) = content else {
        unreachable!();
    };
    match digests_from(wanted, source) {
        Ok(digests) => Ok(digests),
        Err(fault) => Err(Refused::Device(fault)),
    }
}

// The result for these signers of a content of this type, with these digests by each algorithm that a signer wants.
fn judged(
    policy: Policy,
    econtent_type: &[u8],
    signers: &Signers,
    digests: &WantedDigests,
) -> Result<usize, Refused>
    ensures { (content : List ℕ) → HasDigests policy content signers.now digests.now
        → FitsSigners policy content econtent_type.now signers.now result }
{
    match first_unfit(policy, digests, econtent_type, signers) {
        Some((signer, rule)) => Err(Refused::Signer { signer, rule }),
        None => Ok(signers.len()),
    }
}

/// The SignedData that a file encodes, and the digests of its content by each algorithm that one of its signers names
/// and the policy allows. The content is in the file, or is handed in as a source, which is read once.
///
/// Errors: the first of C1 to C5 that fails, and then none of the content is read; X1 if the source fails, and X5 if
/// the content has more than 2^40 octets.
pub fn open_file<'a, S: Source>(
    file: &'a [u8],
    content: &mut Option<S>,
    policy: &Policy,
) -> Result<(SignedData<'a>, WantedDigests), Refused>
    // Returns the SignedData and the digests; or the first of C1 to C5, the source being unchanged; or X1 or X5.
    ensures { (reading : Result SignedDataValue CmsFault) × IsReading file.now reading
        × OfFile (facts_of S.tells S.rest S.failures) (Opens policy.now) reading content.old content.new result }
{
    let signed = read_file(file, content.is_some())?;
    let wanted = wanted_by(*policy, signed.signers());
    let digests = hash_content(&signed, content, wanted)?;
    Ok((signed, digests))
}

/// Whether the content of a SignedData and the signed attributes of each of its signers belong together (RFC 5652 5.4,
/// 11.1, 11.2), and how many signers there are. The content is in the file, or is handed in as a source, which is read
/// once.
///
/// Errors: the first of C1 to C5 that fails, and then none of the content is read; X1 if the source fails, and X5 if
/// the content has more than 2^40 octets; then the first signer, numbered from 1, that fails one of S1 to S6, with the
/// first rule that it fails.
pub fn fits<S: Source>(
    file: &[u8],
    content: &mut Option<S>,
    policy: &Policy,
) -> Result<usize, Refused>
    // Returns how many signers there are if each fits the content that was read; or the first of C1 to C5, the source
    // being unchanged; or X1, which the source counted, or X5; or the first signer that does not fit, with the first of
    // S1 to S6 that it fails.
    ensures { (reading : Result SignedDataValue CmsFault) × IsReading file.now reading
        × FitsFile (facts_of S.tells S.rest S.failures) policy.now reading content.old content.new result }
{
    let (signed, digests) = open_file(file, content, policy)?;
    judged(
        *policy,
        signed.content_type().bytes(),
        signed.signers(),
        &digests,
    )
}
