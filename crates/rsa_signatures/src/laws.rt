//! What holds of signatures, for all octets: there is no code to run.
ghost use Rattle.std.specs.Prelude.{◌≡◌, ◌↔◌, ◌++◌, ℕ, [], ◌∷◌, List, true, length};
ghost use Rattle.der_core.specs.Element.{el};
ghost use Rattle.digests.specs.declared.algorithm.Alg.{Alg};
ghost use Rattle.digests.specs.Algorithms.{contents_of, length_of};
ghost use Rattle.rsa_signatures.specs.Pkcs1.{IsPkcs1, digest_info, is_pkcs1};
ghost use Rattle.rsa_signatures.specs.Pss.{IsPss, is_pss};
ghost use Rattle.rsa_signatures.specs.SignatureRows.{InfoRows, Pkcs1Rows, PssRows};

/// The tests of signatures are true exactly if each step of the standard's verification succeeds.
pub fn signatures_are_verified()
    // RSASSA-PKCS1-v1_5 (RFC 8017 8.2.2).
    ensures pkcs1 { (alg : Alg) (h modulus : List ℕ) (e : ℕ) (s : List ℕ)
        → (is_pkcs1 alg h modulus e s ≡ true) ↔ IsPkcs1 alg h modulus e s }
    // T of a digest is the DER encoding of SEQUENCE { SEQUENCE { algorithm, NULL }, OCTET STRING } (RFC 8017 A.2.4).
    ensures info { (alg : Alg) (h : List ℕ) → length h ≡ length_of alg
        → digest_info alg h ≡ el 0x30 (el 0x30 (el 0x06 (contents_of alg) ++ el 0x05 []) ++ el 0x04 h) }
    // RSASSA-PSS (RFC 8017 8.1.2).
    ensures pss { (alg mask : Alg) (s_len : ℕ) (h modulus : List ℕ) (e : ℕ) (s : List ℕ)
        → (is_pss alg mask s_len h modulus e s ≡ true) ↔ IsPss alg mask s_len h modulus e s }
{}

/// The worked rows of signatures.
pub fn rows_hold()
    // Encoded messages.
    ensures infos { InfoRows }
    // RSASSA-PKCS1-v1_5.
    ensures pkcs1 { Pkcs1Rows }
    // RSASSA-PSS.
    ensures pss { PssRows }
{}
