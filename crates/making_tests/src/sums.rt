//! Texts that sha256sum and its kin (GNU coreutils 9.1) wrote, and texts of theirs that were changed: what is said of
//! them. The files a, x\y and the like hold `abc`, d/empty nothing, and the one named by the octet 255 that octet.

use crate::asserts::must_say;
use digests::Alg;
use evidence_sums::{Sum, Sums};
use std::alloc::{AllocError, Global};

/// Texts of sums, and each sum in them: its digest, and its name in hexadecimal with `=` where it stands as it is.
static TEXTS: [(Alg, &[u8], &str); 7] = [
    (
        Alg::Sha256,
        b"ba7816bf8f01cfea414140de5dae2223b00361a396177a9cb410ff61f20015ad  a\n\
          e3b0c44298fc1c149afbf4c8996fb92427ae41e4649b934ca495991b7852b855  d/empty\n\
          \\ba7816bf8f01cfea414140de5dae2223b00361a396177a9cb410ff61f20015ad  x\\\\y\n\
          \\ba7816bf8f01cfea414140de5dae2223b00361a396177a9cb410ff61f20015ad  l\\nf\n",
        "ba7816bf8f01cfea414140de5dae2223b00361a396177a9cb410ff61f20015ad=61 \
         e3b0c44298fc1c149afbf4c8996fb92427ae41e4649b934ca495991b7852b855=642f656d707479 \
         ba7816bf8f01cfea414140de5dae2223b00361a396177a9cb410ff61f20015ad:785c79 \
         ba7816bf8f01cfea414140de5dae2223b00361a396177a9cb410ff61f20015ad:6c0a66 ",
    ),
    (
        Alg::Sha256,
        b"\\ba7816bf8f01cfea414140de5dae2223b00361a396177a9cb410ff61f20015ad *c\\rr\n\
          ba7816bf8f01cfea414140de5dae2223b00361a396177a9cb410ff61f20015ad * sp\n\
          ba7816bf8f01cfea414140de5dae2223b00361a396177a9cb410ff61f20015ad **st\n\
          a8100ae6aa1940d0b663bb31cd466142ebbdbd5187131b92d93818987832eb89 *\xff\n\
          \\ba7816bf8f01cfea414140de5dae2223b00361a396177a9cb410ff61f20015ad *back\\\\\\\\slash n\\\\n\n",
        "ba7816bf8f01cfea414140de5dae2223b00361a396177a9cb410ff61f20015ad:630d72 \
         ba7816bf8f01cfea414140de5dae2223b00361a396177a9cb410ff61f20015ad=207370 \
         ba7816bf8f01cfea414140de5dae2223b00361a396177a9cb410ff61f20015ad=2a7374 \
         a8100ae6aa1940d0b663bb31cd466142ebbdbd5187131b92d93818987832eb89=ff \
         ba7816bf8f01cfea414140de5dae2223b00361a396177a9cb410ff61f20015ad:6261636b5c5c736c617368206e5c6e ",
    ),
    (
        Alg::Sha1,
        b"a9993e364706816aba3e25717850c26c9cd0d89d  a",
        "a9993e364706816aba3e25717850c26c9cd0d89d=61 ",
    ),
    (
        Alg::Sha224,
        b"23097d223405d8228642a477bda255b32aadbce4bda0b3f7e36c9da7  a\n",
        "23097d223405d8228642a477bda255b32aadbce4bda0b3f7e36c9da7=61 ",
    ),
    (
        Alg::Sha384,
        b"cb00753f45a35e8bb5a03d699ac65007272c32ab0eded1631a8b605a43ff5bed8086072ba1e7cc2358baeca134c825a7  a\n",
        "cb00753f45a35e8bb5a03d699ac65007272c32ab0eded1631a8b605a43ff5bed8086072ba1e7cc2358baeca134c825a7=61 ",
    ),
    (
        Alg::Sha512,
        b"ddaf35a193617abacc417349ae20413112e6fa4e89a97ea20a9eeee64b55d39a\
          2192992a274fc1a836ba3c23a3feebbd454d4423643ce80e2a9ac94fa54ca49f  a\n",
        "ddaf35a193617abacc417349ae20413112e6fa4e89a97ea20a9eeee64b55d39a\
         2192992a274fc1a836ba3c23a3feebbd454d4423643ce80e2a9ac94fa54ca49f=61 ",
    ),
    (
        Alg::Sha256,
        b"BA7816BF8F01CFEA414140DE5DAE2223B00361A396177A9CB410FF61F20015AD  a\n",
        "ba7816bf8f01cfea414140de5dae2223b00361a396177a9cb410ff61f20015ad=61 ",
    ),
];

/// Texts that are refused, and how: the first ones were written by `md5sum a`, `sha256sum -z a`, `--tag a`, of ./a, of
/// an absolute path, of one that leads above, and of a file that was given twice.
static FAULTS: [(&[u8], &str); 12] = [
    (
        b"900150983cd24fb0d6963f7d28e17f72  a\n",
        "sums U1 Line at line 1",
    ),
    (
        b"ba7816bf8f01cfea414140de5dae2223b00361a396177a9cb410ff61f20015ad  a\0",
        "refused U5 Name",
    ),
    (
        b"SHA256 (a) = ba7816bf8f01cfea414140de5dae2223b00361a396177a9cb410ff61f20015ad\n",
        "sums U1 Line at line 1",
    ),
    (
        b"ba7816bf8f01cfea414140de5dae2223b00361a396177a9cb410ff61f20015ad  ./a\n",
        "refused U5 Name",
    ),
    (
        b"ba7816bf8f01cfea414140de5dae2223b00361a396177a9cb410ff61f20015ad  /tmp/a\n",
        "refused U5 Name",
    ),
    (
        b"ba7816bf8f01cfea414140de5dae2223b00361a396177a9cb410ff61f20015ad  d/../a\n",
        "refused U5 Name",
    ),
    (
        b"ba7816bf8f01cfea414140de5dae2223b00361a396177a9cb410ff61f20015ad  a\n\
          ba7816bf8f01cfea414140de5dae2223b00361a396177a9cb410ff61f20015ad  a\n",
        "refused U6 NameTwice",
    ),
    (b"", "sums U2 Empty"),
    (b"\n", "sums U1 Line at line 1"),
    (
        b"ba7816bf8f01cfea414140de5dae2223b00361a396177a9cb410ff61f20015ad  a\n\n",
        "sums U1 Line at line 2",
    ),
    (
        b"ba7816bf8f01cfea414140de5dae2223b00361a396177a9cb410ff61f20015ad  a\r\n",
        "sums U1 Line at line 1",
    ),
    (
        b"ba7816bf8f01cfea414140de5dae2223b00361a396177a9cb410ff61f20015ad  x\\y\n",
        "sums U1 Line at line 1",
    ),
];

/// Puts octets behind a text, in hexadecimal.
fn put_octets(alloc: Global, said: &mut String, octets: &[u8]) -> Result<(), AllocError> {
    let digits = hex::encode(alloc, octets)?;
    said.push_str(digits.as_str())
}

/// Puts a digest behind a text.
fn put_digest(alloc: Global, said: &mut String, sum: &Sum<'_>) -> Result<(), AllocError> {
    let digest = sum.digest(alloc)?;
    put_octets(alloc, said, digest.bytes())
}

/// Puts a name behind a text, and before it how it stands in the line: as it is, or otherwise.
fn put_name(alloc: Global, said: &mut String, sum: &Sum<'_>) -> Result<(), AllocError> {
    let name = sum.name(alloc)?;
    said.push_str(match sum.plain_name() {
        Some(plain) if plain == name.as_slice() => "=",
        Some(_) => "/",
        None => ":",
    })?;
    put_octets(alloc, said, &name)
}

/// Puts the digest and the name of each sum behind a text.
fn put_sums(alloc: Global, said: &mut String, sums: &Sums<'_>) -> Result<(), AllocError> {
    let mut left = sums.again();
    for _ in 0..64u8 {
        let Some((sum, others)) = left.next() else {
            break;
        };
        put_digest(alloc, said, &sum)?;
        put_name(alloc, said, &sum)?;
        said.push_str(" ")?;
        left = others;
    }
    Ok(())
}

/// What these sums state.
fn stated(alloc: Global, sums: &Sums<'_>) -> Option<String> {
    let mut said = String::new(alloc);
    match put_sums(alloc, &mut said, sums) {
        Ok(()) => Some(said),
        Err(_) => None,
    }
}

/// What a text states, or why it is refused.
fn said(alloc: Global, alg: Alg, text: &[u8]) -> Option<String> {
    match Sums::read(alloc, alg, text) {
        Ok(sums) => stated(alloc, &sums),
        Err(fault) => format!(in alloc; "{fault}").ok(),
    }
}

#[test]
fn texts_of_the_program_are_read(rt: HostRuntime) {
    for (alg, text, sums) in &TEXTS {
        must_say(&rt, &said(rt.alloc(), *alg, text), sums);
    }
}

#[test]
fn other_texts_are_refused(rt: HostRuntime) {
    for (text, fault) in &FAULTS {
        must_say(&rt, &said(rt.alloc(), Alg::Sha256, text), fault);
    }
}
