//! Trees over documents (RFC 4998 4.2): the roots and lists that another program gave them. Bouncy Castle 1.72 gives
//! the same roots, and accepts records with these lists.

use crate::asserts::must_say;
use crate::documents::documents;
use digests::{Alg, Digest};
use evidence_trees::{LeafLists, Tree};
use std::alloc::{AllocError, Global};

/// How many documents, and the root over their digests.
static ROOTS: [(Alg, usize, &str); 12] = [
    (
        Alg::Sha256,
        1,
        "b30bb20e74f7a295aeaba71bedea2d4c63ebad7ded8d1d6368f9e70fa063d0ad",
    ),
    (
        Alg::Sha256,
        2,
        "c3dd95ab57ec3930f6a0c0f0ff7aff589813b3e7c9a5e3e04b4c722efa89709c",
    ),
    (
        Alg::Sha256,
        3,
        "5bef1129e60c586a6a1af7a9b4660d6fd8791dbd60e542aa60243932426fbde2",
    ),
    (
        Alg::Sha256,
        5,
        "90ee0d13ad8fea93af0d57636d8af0c2154c99222cf95c1f9670aeae6382b523",
    ),
    (
        Alg::Sha256,
        7,
        "651bd64e31d982717ddc45c2df789f2df28f7d873e3e6b5d955c6a714729711d",
    ),
    (
        Alg::Sha256,
        1000,
        "65bbb0d28c68a593ee742871d1b4e5be18d474a798cb2dd0657ded742a1472b2",
    ),
    (
        Alg::Sha512,
        1,
        "ceaa56613ab8e5d1df24800efa21bbb0a8dbf5cbcdddf64f3ae6676bc376518e\
         816431b40624e3f0a35c8b331c798d7a2dcb25d38c2927c8b017ef0946f0cd17",
    ),
    (
        Alg::Sha512,
        2,
        "6d2fa32fbb4b0cd6af91cc3979b4541fae0fb39537c2a4676c9210d5e8bda4f2\
         fb53fa1483bd362b1a649537ff19b990b76a230c03223dc2a62684fa2064c8d7",
    ),
    (
        Alg::Sha512,
        3,
        "b5241d27b43b1debb208ad37c8c17b78ea60bb4cabf952a1ad5ec2d0584cd257\
         8d6a6ec2af395116e99bb7f8638877c13db14f942c3dcc702307111295e443c0",
    ),
    (
        Alg::Sha512,
        5,
        "2ef455d1e367e33ab4e99fa04ccd7f7639bf08248a0762eb8eb7bdfb56670d0e\
         1dff08bf20adc1d3a4b1e27684a3079dc139617cc825adf60cd609f496eefe0f",
    ),
    (
        Alg::Sha512,
        7,
        "2acd30b0b4aeb15b13294c4582e2a0a44d3c212f4e32d6d4fbcca92d80274532\
         474f4758d6eec03256b567c6b87157ee67d725c4087c62339a582256eec84171",
    ),
    (
        Alg::Sha512,
        1000,
        "2364b3bf0b174cbeb8d16a988ae7c3ddabd47b909c1e2f2490d3bff64bfb5474\
         a63d8910c3d452e094627d85a0317588b249d61b3020e9e2e44f1f34276d1b4c",
    ),
];

/// The lists of each document's digest, in the order of the documents: `d` and a number is the digest of the document
/// that has this number in its text, and a node is shown by its first octets.
static LISTS: [(Alg, usize, &str); 10] = [
    (Alg::Sha256, 1, "d0"),
    (Alg::Sha256, 2, "d0 d1; d1 d0"),
    (Alg::Sha256, 3, "d0 d2 d1; d1 1eaf68cc; d2 d0 d1"),
    (
        Alg::Sha256,
        5,
        "d0 d3 aa29c737 d1; d1 c1015939; d2 d4 66d184d9 d1; d3 d0 aa29c737 d1; d4 d2 66d184d9 d1",
    ),
    (
        Alg::Sha256,
        7,
        "d0 d2 2b063cca a71b3d18; d1 4cc2bcca 12bea257; d2 d0 2b063cca a71b3d18; \
         d3 d6 d1 12bea257; d4 d5 1eaf68cc a71b3d18; d5 d4 1eaf68cc a71b3d18; d6 d3 d1 12bea257",
    ),
    (Alg::Sha512, 1, "d0"),
    (Alg::Sha512, 2, "d0 d1; d1 d0"),
    (Alg::Sha512, 3, "d0 d1 d2; d1 d0 d2; d2 6d2fa32f"),
    (
        Alg::Sha512,
        5,
        "d0 d4 357f2052 d2; d1 d3 0d2534b1 d2; d2 05597e07; d3 d1 0d2534b1 d2; d4 d0 357f2052 d2",
    ),
    (
        Alg::Sha512,
        7,
        "d0 d4 d2 2f03cea5; d1 d5 e4571f0c 1cf95e5f; d2 0d2534b1 2f03cea5; \
         d3 d6 b9884b72 1cf95e5f; d4 d0 d2 2f03cea5; d5 d1 e4571f0c 1cf95e5f; \
         d6 d3 b9884b72 1cf95e5f",
    ),
];

/// The lists of some of a thousand documents, by the number of the document.
static LISTS_OF_SOME: [(Alg, usize, &str); 8] = [
    (
        Alg::Sha256,
        695,
        "d695 d694 1f4d754c f4cf0716 60d9fc10 7c8d2ff6 df57e6ba 83c21be3 8b5c5322 2147d501 bd5a00fc",
    ),
    (
        Alg::Sha256,
        914,
        "d914 d674 72b9c628 ae1f89f5 ce39b26d 9f0b993e 7119620e 24ed89b2 0f2742a2 32b3bf99 bd5a00fc",
    ),
    (
        Alg::Sha256,
        806,
        "d806 d531 3f2b7c1a 3fa8c582 d9ca4d61 ed32d149 99493b2d 4c3f1cf4 e5a06b4f",
    ),
    (
        Alg::Sha256,
        531,
        "d531 d806 3f2b7c1a 3fa8c582 d9ca4d61 ed32d149 99493b2d 4c3f1cf4 e5a06b4f",
    ),
    (
        Alg::Sha512,
        613,
        "d613 d301 019b0d0d f146bab0 e0c4dd06 036fdb2e fbc32594 df8c5376 5f21a68b 903c8e7d 2b13a95c",
    ),
    (
        Alg::Sha512,
        853,
        "d853 d525 46989999 72ce89e5 76d18c1a c8053d34 99c56d8e 29f68aa1 8c3d8dd3 691a9875 2b13a95c",
    ),
    (
        Alg::Sha512,
        691,
        "d691 d829 03ad18bf a89a06a1 8a16fcc2 e7f07b1a 1dc947f5 ba54d3df 06884a15",
    ),
    (
        Alg::Sha512,
        829,
        "d829 d691 03ad18bf a89a06a1 8a16fcc2 e7f07b1a 1dc947f5 ba54d3df 06884a15",
    ),
];

/// A tree and the digests of the documents that it is over.
#[derive(Drop)]
struct Grown {
    documents: Vec<Digest>,
    tree: Tree,
}

/// The tree over so many documents.
fn grow(alloc: Global, alg: Alg, count: usize) -> Option<Grown> {
    let Ok(documents) = documents(alloc, alg, 0, count) else {
        return None;
    };
    if documents.is_empty() {
        return None;
    }
    match Tree::of(alloc, alg, &documents) {
        Ok(tree) => Some(Grown { documents, tree }),
        Err(_) => None,
    }
}

/// Puts the name of a value behind a text.
fn put_name(
    alloc: Global,
    text: &mut String,
    documents: &[Digest],
    value: &[u8],
) -> Result<(), AllocError> {
    for (number, document) in documents.iter().enumerate() {
        if document.is(value) {
            let name = format!(in alloc; "d{number}")?;
            return text.push_str(name.as_str());
        }
    }
    let digits = hex::encode(alloc, value.get(..4).unwrap_or(value))?;
    text.push_str(digits.as_str())
}

/// Puts the names of the values of a leaf's lists behind a text.
fn put_names(
    alloc: Global,
    text: &mut String,
    documents: &[Digest],
    lists: LeafLists<'_>,
) -> Result<(), AllocError> {
    let mut left = lists;
    for number in 0..64u8 {
        let Some((value, others)) = left.next() else {
            break;
        };
        text.push_str(if number == 0 { "" } else { " " })?;
        put_name(alloc, text, documents, value)?;
        left = others;
    }
    Ok(())
}

/// Puts the lists of a document behind a text, if it is a leaf.
fn put_lists(
    alloc: Global,
    text: &mut String,
    of: &Grown,
    document: &Digest,
) -> Result<(), AllocError> {
    match of.tree.lists_of(document) {
        Some(lists) => put_names(alloc, text, &of.documents, lists),
        None => Ok(()),
    }
}

/// Puts the lists of all documents behind a text.
fn put_all(alloc: Global, text: &mut String, of: &Grown) -> Result<(), AllocError> {
    for document in &of.documents {
        text.push_str(if text.as_str().is_empty() { "" } else { "; " })?;
        put_lists(alloc, text, of, document)?;
    }
    Ok(())
}

/// The root of the tree over so many documents, in hexadecimal.
fn root(alloc: Global, alg: Alg, count: usize) -> Option<String> {
    let grown = grow(alloc, alg, count)?;
    hex::encode(alloc, grown.tree.root().bytes()).ok()
}

/// The lists in the tree over so many documents.
fn lists(alloc: Global, alg: Alg, count: usize) -> Option<String> {
    let grown = grow(alloc, alg, count)?;
    let mut text = String::new(alloc);
    match put_all(alloc, &mut text, &grown) {
        Ok(()) => Some(text),
        Err(_) => None,
    }
}

/// The lists of the document with this number in a tree of a thousand.
fn lists_of(alloc: Global, alg: Alg, number: usize) -> Option<String> {
    let grown = grow(alloc, alg, 1000)?;
    let document = grown.documents.get(number)?;
    let mut text = String::new(alloc);
    match put_lists(alloc, &mut text, &grown, document) {
        Ok(()) => Some(text),
        Err(_) => None,
    }
}

#[test]
fn roots_are_those_of_another_program(rt: HostRuntime) {
    for (alg, count, expected) in &ROOTS {
        must_say(&rt, &root(rt.alloc(), *alg, *count), expected);
    }
}

#[test]
fn lists_are_those_of_another_program(rt: HostRuntime) {
    for (alg, count, expected) in &LISTS {
        must_say(&rt, &lists(rt.alloc(), *alg, *count), expected);
    }
}

#[test]
fn lists_in_a_tree_of_a_thousand_are_those_of_another_program(rt: HostRuntime) {
    for (alg, number, expected) in &LISTS_OF_SOME {
        must_say(&rt, &lists_of(rt.alloc(), *alg, *number), expected);
    }
}
