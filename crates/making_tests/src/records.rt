//! Records that Bouncy Castle 1.72 made, without their tokens, and one that was written from RFC 4998.
use crate::renewals::FIRST;
use digests::Alg;

/// By which algorithm; of how many documents; the number of the one whose record it is, which stands alone on some
/// level of its tree if their number is odd; how many octets the token has; and the octets before it.
pub(crate) static RECORDS: [(Alg, usize, usize, usize, &str); 11] = [
    (
        Alg::Sha256,
        1,
        0,
        834,
        "30820393020101300d300b06096086480165030402013082037d3082037930820375a00b0609\
         608648016503040201a22430220420b30bb20e74f7a295aeaba71bedea2d4c63ebad7ded8d1d\
         6368f9e70fa063d0ad",
    ),
    (Alg::Sha256, 2, 1, 835, FIRST),
    (
        Alg::Sha256,
        3,
        1,
        834,
        "308203b7020101300d300b0609608648016503040201308203a13082039d30820399a00b0609\
         608648016503040201a24830220420f6065ce8be732658ce43398ea1da159c98d57c15c9ff38\
         32e91979db9cbe8bfd302204201eaf68cc480d3bc72ad73318c28190fc408a0efdb54d67c273\
         29befcec005bc4",
    ),
    (
        Alg::Sha256,
        5,
        1,
        835,
        "308203b8020101300d300b0609608648016503040201308203a23082039e3082039aa00b0609\
         608648016503040201a24830220420f6065ce8be732658ce43398ea1da159c98d57c15c9ff38\
         32e91979db9cbe8bfd30220420c10159398a731ac177cbad1067d32e42107c97a72973796b28\
         c34c06fc27cd09",
    ),
    (
        Alg::Sha256,
        7,
        1,
        835,
        "308203dc020101300d300b0609608648016503040201308203c6308203c2308203bea00b0609\
         608648016503040201a26c30220420f6065ce8be732658ce43398ea1da159c98d57c15c9ff38\
         32e91979db9cbe8bfd302204204cc2bcca344b2ad72c0c6f508f6bf79d714ce87f37f887928b\
         5240a1f1aabc693022042012bea2579fc43d062ddcbe190e4ec94377c9259f7ce6baf89b5103\
         479daa842b",
    ),
    (
        Alg::Sha256,
        1000,
        531,
        835,
        "308204b6020101300d300b0609608648016503040201308204a03082049c30820498a00b0609\
         608648016503040201a282014430220420ffaafb58a4294d7681214267187c8dc8b885b6e981\
         7790ae22041e50a5935d3a30220420ff968de73f256e6dfb4c5f1b0fcb734bc37041c20fd9df\
         e1d3f53973971d9784302204203f2b7c1a7168d525cee02429358d2daa18b3e580e75352f35e\
         46cf0461dedb6a302204203fa8c582b3de9770fc7e8bfb0d5ad776a2c7b15e369cb47182a3b3\
         2ef182164b30220420d9ca4d61389553c8a4d3ff0221c4ca033dd6a9000ac6221afacee09dd5\
         ecced630220420ed32d149380aefde600906433d54811e5b10bf5b29390cea71a0d30dcb7fbd\
         663022042099493b2dafb2c1982048a3dbb700fc3d265ea2beb826306f6f35f8b5d0fae15f30\
         2204204c3f1cf45c91d1100c73489825d6d4ac3af108e5dddebb1e8980dca9b3f46bf8302204\
         20e5a06b4f76e92eedcd559a419520730fcd77514a45dcdd74db4de955180b2620",
    ),
    (
        Alg::Sha512,
        1,
        0,
        899,
        "308203f4020101300d300b0609608648016503040203308203de308203da308203d6a00b0609\
         608648016503040203a24430420440ceaa56613ab8e5d1df24800efa21bbb0a8dbf5cbcdddf6\
         4f3ae6676bc376518e816431b40624e3f0a35c8b331c798d7a2dcb25d38c2927c8b017ef0946\
         f0cd17",
    ),
    (
        Alg::Sha512,
        2,
        0,
        899,
        "30820439020101300d300b0609608648016503040203308204233082041f3082041ba00b0609\
         608648016503040203a2818830420440ceaa56613ab8e5d1df24800efa21bbb0a8dbf5cbcddd\
         f64f3ae6676bc376518e816431b40624e3f0a35c8b331c798d7a2dcb25d38c2927c8b017ef09\
         46f0cd1730420440803431bdcb173f74906dc5c059c42691446bc07b523d9286bb92b0714542\
         f14b965f5e46a9b18b4439d1c4c9fc20d63ebefbdd8e8323838e053e9a17d3a4ad90",
    ),
    (
        Alg::Sha512,
        3,
        2,
        900,
        "3082043a020101300d300b060960864801650304020330820424308204203082041ca00b0609\
         608648016503040203a2818830420440d2ebff1488229154d5f787f77ecd68aefba0fd50d37d\
         68b3b66c3c92da2cbff6167f68907631fb14d3fc56ae9a5728291363254fb1e8d44fdc4158ef\
         d2411280304204406d2fa32fbb4b0cd6af91cc3979b4541fae0fb39537c2a4676c9210d5e8bd\
         a4f2fb53fa1483bd362b1a649537ff19b990b76a230c03223dc2a62684fa2064c8d7",
    ),
    (
        Alg::Sha512,
        5,
        2,
        900,
        "3082043a020101300d300b060960864801650304020330820424308204203082041ca00b0609\
         608648016503040203a2818830420440d2ebff1488229154d5f787f77ecd68aefba0fd50d37d\
         68b3b66c3c92da2cbff6167f68907631fb14d3fc56ae9a5728291363254fb1e8d44fdc4158ef\
         d24112803042044005597e07fbc7dcc92a24993557047911714f26bd5832908f1885fcf70d91\
         1fb2f1a37ec94048678008360439630e2f60c9cb5531b88ca81aebb2e186909cc1c2",
    ),
    (
        Alg::Sha512,
        7,
        2,
        899,
        "3082047d020101300d300b060960864801650304020330820467308204633082045fa00b0609\
         608648016503040203a281cc30420440d2ebff1488229154d5f787f77ecd68aefba0fd50d37d\
         68b3b66c3c92da2cbff6167f68907631fb14d3fc56ae9a5728291363254fb1e8d44fdc4158ef\
         d2411280304204400d2534b1465fa05d081eeee5c57bae481cdf1feff6eaadd3b0bffcf31972\
         a83f3c529623d5ec74caa3650b4d898c89df81bd41f3ab910fcf6a2cbe9d8dcee09430420440\
         2f03cea50504976b2af53dd4879ecb879b141ec447d3cd07f2391f98c3c745c6444b877192a1\
         070970610129f11c6dfd4c7ac1b8c4de5ce64f118ca8537486bc",
    ),
];

// ---- a record of one token without lists, and the record that Bouncy Castle made of it by a new hash tree, SHA-512,
// over the second and the third document as well: what stands before the first token, which has 906 octets, and between
// it and the second token, which has 938; and the leaf of the tree that is the record's.

/// Of the old record, before its token.
pub(crate) const SINGLE: &str =
    "308203a8020101300d300b0609608648016503040201308203923082038e3082038a";

/// Of the new record, before the first token.
pub(crate) const REHASHED: &str =
    "30820843020101301a300b0609608648016503040201300b060960864801650304020330820820308203\
     8e3082038a";

/// Between the tokens.
pub(crate) const NEW_CHAIN: &str =
    "3082048a30820486a00b0609608648016503040203a281cc304204400abbd7c113c4715cf4e0d87c50ba\
     a1832624f3a725221145a0814ff13585b28b252ede7d138a7f011224f3497ccb010c8a880798141d53f3\
     51c7687bfb2ac80330420440803431bdcb173f74906dc5c059c42691446bc07b523d9286bb92b0714542\
     f14b965f5e46a9b18b4439d1c4c9fc20d63ebefbdd8e8323838e053e9a17d3a4ad9030420440d2ebff14\
     88229154d5f787f77ecd68aefba0fd50d37d68b3b66c3c92da2cbff6167f68907631fb14d3fc56ae9a57\
     28291363254fb1e8d44fdc4158efd2411280";

/// The leaf.
pub(crate) const REHASHED_LEAF: &str =
    "0abbd7c113c4715cf4e0d87c50baa1832624f3a725221145a0814ff13585b28b252ede7d138a7f011224\
     f3497ccb010c8a880798141d53f351c7687bfb2ac803";

// ---- a record of the second of two documents, renewed by a time-stamp that is over the third as well: what stands
// before the first token, which has 835 octets, and between it and the second token, which has 906. It was written by
// Python from RFC 4998, with digests by its hashlib of the octets that stand for tokens.

/// Before the first token.
pub(crate) const RENEWED: &str =
    "3082079d020101300d300b060960864801650304020130820787308207833082039aa00b060960864801\
     6503040201a24830220420f6065ce8be732658ce43398ea1da159c98d57c15c9ff3832e91979db9cbe8b\
     fd30220420b30bb20e74f7a295aeaba71bedea2d4c63ebad7ded8d1d6368f9e70fa063d0ad";

/// Between the tokens.
pub(crate) const NEW_STAMP: &str =
    "308203e1a00b0609608648016503040201a24830220420df851a829c5a89f70ce36be12defb975070657\
     230fe8b3596fd9f156a467b76c302204207aba2e26e82bad298453edd2ba18f03201dfa3bba9a2672090\
     0238a7c1a18528";

// ---- the leaves of the record of the second of two documents, with the token over the root of their tree.

/// The leaf of a renewal by a time-stamp, with SHA-256.
pub(crate) const STAMP_LEAF: &str =
    "5a65a9ec24763da4a2349d956dc70a575e3675bbaf5bb41670fac8ef4d01fb34";

/// The leaf of a renewal by a hash tree, with SHA-512.
pub(crate) const REHASH_LEAF: &str =
    "8b2ea9490127dc4b4621064c14fa2d53e5334cd5443318ec5064cb14b2c86e301dd200aa942788b727062bc6284\
     bf109e7be100eed882fdfd468d80fe1e6d92a";
