//! Two records that a writer in Python made, what stands in them before each token, and what it makes of them: in a
//! renewal by a time-stamp, and in one by a hash tree with SHA-512.
use crate::tokens::{CHAIN_TOKEN, STAMP_TOKEN, Token};

/// The first record, of the second of two documents, before `FIRST_TOKEN`, over the root of their tree.
pub(crate) const FIRST: &str =
    "308203b8020101300d300b0609608648016503040201308203a23082039e3082039aa00b060960864801\
     6503040201a24830220420f6065ce8be732658ce43398ea1da159c98d57c15c9ff3832e91979db9cbe8b\
     fd30220420b30bb20e74f7a295aeaba71bedea2d4c63ebad7ded8d1d6368f9e70fa063d0ad";

/// The second record, of one document and without lists, before `SECOND_TOKEN`.
pub(crate) const SECOND: &str =
    "30820360020101300d300b06096086480165030402013082034a3082034630820342";

/// What a renewal of both needs, and what becomes of them.
pub(crate) struct Renewal {
    /// What `sha512sum` says of their documents, with other names: the digests for a new hash tree.
    pub(crate) sums: Option<&'static str>,
    /// The request for the new token.
    pub(crate) request: &'static str,
    /// The new token.
    pub(crate) token: Token,
    /// The first record with the new token: what stands before its old one, and before the new one.
    pub(crate) first: [&'static str; 2],
    /// The second.
    pub(crate) second: [&'static str; 2],
}

/// By a time-stamp.
pub(crate) static BY_STAMP: Renewal = Renewal {
    sums: None,
    request: "30360201013031300d06096086480165030402010500042054510b9a744281482719ba0c1c50cf77e84c\
     ebc0b19aba05bfddd5c4e512b9e1",
    token: STAMP_TOKEN,
    first: [
        "30820756020101300d300b0609608648016503040201308207403082073c3082039aa00b060960864801\
         6503040201a24830220420f6065ce8be732658ce43398ea1da159c98d57c15c9ff3832e91979db9cbe8b\
         fd30220420b30bb20e74f7a295aeaba71bedea2d4c63ebad7ded8d1d6368f9e70fa063d0ad",
        "3082039aa00b0609608648016503040201a248302204205a65a9ec24763da4a2349d956dc70a575e3675\
         bbaf5bb41670fac8ef4d01fb3430220420b83b283a6238d84e1fc0bd8774e03a5e57c056d7d9cf9232b2\
         8afa7408e85c10",
    ],
    second: [
        "308206fe020101300d300b0609608648016503040201308206e8308206e430820342",
        "3082039aa00b0609608648016503040201a24830220420b83b283a6238d84e1fc0bd8774e03a5e57c056\
         d7d9cf9232b28afa7408e85c10302204205a65a9ec24763da4a2349d956dc70a575e3675bbaf5bb41670\
         fac8ef4d01fb34",
    ],
};

/// The digests.
const SUMS: &str =
    "803431bdcb173f74906dc5c059c42691446bc07b523d9286bb92b0714542f14b965f5e46a9b18b4439d1\
     c4c9fc20d63ebefbdd8e8323838e053e9a17d3a4ad90  first\n\
     ceaa56613ab8e5d1df24800efa21bbb0a8dbf5cbcdddf64f3ae6676bc376518e816431b40624e3f0a35c\
     8b331c798d7a2dcb25d38c2927c8b017ef0946f0cd17  inner/second\n";

/// By a hash tree.
pub(crate) static BY_TREE: Renewal = Renewal {
    sums: Some(SUMS),
    request: "30560201013051300d0609608648016503040203050004406d5766d87f049a035148b73e5ef4564b01a1\
     d765d91d4a9f66c08eb9df633be9f021b51f94a171260aadaec5aa3a385fe783cafe7f830b895cdb2ebd\
     07436163",
    token: CHAIN_TOKEN,
    first: [
        "308207c9020101301a300b0609608648016503040201300b0609608648016503040203308207a6308203\
         9e3082039aa00b0609608648016503040201a24830220420f6065ce8be732658ce43398ea1da159c98d5\
         7c15c9ff3832e91979db9cbe8bfd30220420b30bb20e74f7a295aeaba71bedea2d4c63ebad7ded8d1d63\
         68f9e70fa063d0ad",
        "30820400308203fca00b0609608648016503040203a28188304204408b2ea9490127dc4b4621064c14fa\
         2d53e5334cd5443318ec5064cb14b2c86e301dd200aa942788b727062bc6284bf109e7be100eed882fdf\
         d468d80fe1e6d92a30420440cf7377809ec3bb4da96df70c869dcf74f0c2cc3f5dc1a661c6027a3f7e81\
         42a0aadc7d5874d3b01c38c664b37eeb4f3ff9000d79e639141de806d1a077e94725",
    ],
    second: [
        "30820771020101301a300b0609608648016503040201300b06096086480165030402033082074e308203\
         4630820342",
        "30820400308203fca00b0609608648016503040203a2818830420440cf7377809ec3bb4da96df70c869d\
         cf74f0c2cc3f5dc1a661c6027a3f7e8142a0aadc7d5874d3b01c38c664b37eeb4f3ff9000d79e639141d\
         e806d1a077e94725304204408b2ea9490127dc4b4621064c14fa2d53e5334cd5443318ec5064cb14b2c8\
         6e301dd200aa942788b727062bc6284bf109e7be100eed882fdfd468d80fe1e6d92a",
    ],
};
