//! Tokens that a writer in Python made, in parts; `openssl ts` reads them. The two new ones are the first with another
//! imprint and another moment: no signature is looked at here.
use std::alloc::Global;

/// The parts of a token by one authority, but for the certificate, which is in all of them.
#[derive(Clone, Copy)]
pub(crate) struct Token {
    // The lengths of the whole.
    lengths: &'static str,
    // The content up to the imprint.
    content: &'static str,
    // The octets of the imprint.
    imprint: &'static str,
    // The serial number and `genTime`.
    moment: &'static str,
    // The signer.
    signer: &'static str,
}

// Before an imprint by SHA-256, and by SHA-512.
const BY_SHA256: &str =
    "020103310d300b06096086480165030402013067060b2a864886f70d0109100104a05804563054020101\
     0603883707302f300b06096086480165030402010420";

const BY_SHA512: &str =
    "020103310d300b0609608648016503040201308187060b2a864886f70d0109100104a078047630740201\
     010603883707304f300b06096086480165030402030440";

// From the end of `genTime` to the signers, with the certificate.
const CERTIFICATE: &str =
    "5a3003020101a082018f3082018b30820131a003020102020203eb300a06082a8648ce3d040302302031\
     11300f060355040a0c084552532074657374310b300906035504030c026361301e170d30383031303130\
     30303030305a170d3435303130313030303030305a30243111300f060355040a0c084552532074657374\
     310f300d06035504030c067473615f65633059301306072a8648ce3d020106082a8648ce3d0301070342\
     000485a327f85afcb265649528aca06f6b08650b4ed9b1140620e4cb554e707f85487de23aa0d7029ec0\
     7aa5b8141ce96d4a93d86238f315f4aba8b0ae8f2997829ba3573055300c0603551d130101ff04023000\
     300e0603551d0f0101ff04040302078030160603551d250101ff040c300a06082b06010505070308301d\
     0603551d0e04160414e1e2fa3a868aa42828955a47bbe01d019c929db3300a06082a8648ce3d04030203\
     48003045022100ce87a63a007e05588e591e67ce441194cc5d058713f6715c43eb6a67c859c45802207b\
     26075cce5ddd075d74e0e15b889abf455a1a1616bfaae36f14d4192ca007a4";

// The signer of most.
const SIGNER: &str =
    "3182011a30820116020101302630203111300f060355040a0c084552532074657374310b300906035504\
     030c026361020203eb300b0609608648016503040201a08186301a06092a864886f70d010903310d060b\
     2a864886f70d0109100104302f06092a864886f70d010904312204204f8ce2174ce46a175d854a249dd7\
     82ebf8c5943dd1b8589bed8afafc804b0af83037060b2a864886f70d010910022f312830263024302204\
     20ec82514766a9490d793d29e9194a2f36222d72f921ac26fd4074afb65451c619300a06082a8648ce3d\
     04030204473045022100cc6b6b645ea9c6f3f53cc81bf92592d12fece41e7bc9f052773964c6700db043\
     022008dd8fcbc4368fec0b840068fcd9d69e6ea85fecbe82ae141290c741d4ef73fe";

/// The imprint of the first token: the root of the tree of two documents, with SHA-256.
pub(crate) const ROOT: &str = "c3dd95ab57ec3930f6a0c0f0ff7aff589813b3e7c9a5e3e04b4c722efa89709c";

/// Its genTime.
pub(crate) const GEN_TIME: &str = "20160501120000Z";

/// A token of 835 octets over that root.
pub(crate) const FIRST_TOKEN: Token = Token {
    lengths: "3082033f06092a864886f70d010702a08203303082032c",
    content: BY_SHA256,
    imprint: ROOT,
    moment: "02030aae64180f3230313630353031313230303030",
    signer: SIGNER,
};

/// One of 834 octets over the digest of a document, with SHA-256.
pub(crate) const SECOND_TOKEN: Token = Token {
    lengths: "3082033e06092a864886f70d010702a082032f3082032b",
    content: BY_SHA256,
    imprint: "b30bb20e74f7a295aeaba71bedea2d4c63ebad7ded8d1d6368f9e70fa063d0ad",
    moment: "02030aae63180f3230313630353031313230303030",
    signer: "3182011930820115020101302630203111300f060355040a0c084552532074657374310b300906035504\
     030c026361020203eb300b0609608648016503040201a08186301a06092a864886f70d010903310d060b\
     2a864886f70d0109100104302f06092a864886f70d0109043122042082b33729ba58a3327e08979c4036\
     231a93f33754327de6cbc94a8728d2cef95e3037060b2a864886f70d010910022f312830263024302204\
     20ec82514766a9490d793d29e9194a2f36222d72f921ac26fd4074afb65451c619300a06082a8648ce3d\
     04030204463044022027dfe491fba3831e72ef3f241746258ab6148272a223b725788a80135f3c142602\
     2032986d58bfd3682541585360161dc44f11e447641b1046ef8afffbd954111e7e",
};

/// One over the root of the tree over the digests of both, with SHA-256.
pub(crate) const STAMP_TOKEN: Token = Token {
    lengths: "3082033f06092a864886f70d010702a08203303082032c",
    content: BY_SHA256,
    imprint: "54510b9a744281482719ba0c1c50cf77e84cebc0b19aba05bfddd5c4e512b9e1",
    moment: "02030aae64180f3230313730353031313230303030",
    signer: SIGNER,
};

/// One over the root of the tree over the leaves of records with both, with SHA-512.
pub(crate) const CHAIN_TOKEN: Token = Token {
    lengths: "3082036006092a864886f70d010702a08203513082034d",
    content: BY_SHA512,
    imprint: "6d5766d87f049a035148b73e5ef4564b01a1d765d91d4a9f66c08eb9df633be9f021b51f94a171260aad\
     aec5aa3a385fe783cafe7f830b895cdb2ebd07436163",
    moment: "02030aae64180f3230313730353031313230303030",
    signer: SIGNER,
};

/// The node of a record of a group of two documents, for a new chain with SHA-512.
pub(crate) const NODE: &str =
    "89936ee565d9c1e2ff21d705f6ffa5e4bb09d178d3aa419ef27cff82549943b648426fe1e1b3d5453662b2bbd33d\
     a7eb15a1474a1f55675a8de59e8c02ccbbe4";

/// One over that node, the root of a tree without other leaves.
pub(crate) const GROUP_TOKEN: Token = Token {
    lengths: "3082036006092a864886f70d010702a08203513082034d",
    content: BY_SHA512,
    imprint: NODE,
    moment: "02030aae64180f3230313730353031313230303030",
    signer: SIGNER,
};

/// Puts the octets of hexadecimal digits behind others; whether there was memory.
pub(crate) fn put(alloc: Global, octets: &mut Vec<u8>, digits: &str) -> bool {
    match hex::decode(alloc, digits) {
        Ok(more) => octets.extend_from_slice(&more).is_ok(),
        Err(_) => false,
    }
}

/// Puts the octets of all these behind others.
fn put_each(alloc: Global, octets: &mut Vec<u8>, parts: &[&str]) -> bool {
    for digits in parts {
        if !put(alloc, octets, digits) {
            return false;
        }
    }
    true
}

/// Puts a token behind others.
fn put_token(alloc: Global, octets: &mut Vec<u8>, token: &Token) -> bool {
    let parts = [
        token.lengths,
        token.content,
        token.imprint,
        token.moment,
        CERTIFICATE,
        token.signer,
    ];
    put_each(alloc, octets, &parts)
}

/// The octets of a record: what stands before each token, in hexadecimal digits, and the token.
pub(crate) fn record_of(alloc: Global, pieces: &[(&str, &Token)]) -> Option<Vec<u8>> {
    let mut octets = Vec::new(alloc);
    for (before, token) in pieces {
        if !put(alloc, &mut octets, before) || !put_token(alloc, &mut octets, token) {
            return None;
        }
    }
    Some(octets)
}

/// The octets of a token.
pub(crate) fn octets_of(alloc: Global, token: &Token) -> Option<Vec<u8>> {
    record_of(alloc, &[("", token)])
}
