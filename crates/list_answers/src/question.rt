use std::marker::Model;

/// What a verifier is asked: whether a signature over signed attributes is valid under a key (RFC 5652 5.4 and 5.6).
///
/// Contracts see an `Asked` (`specs/Asking.antt`).
#[derive(Debug, Drop)]
pub struct Question<'a> {
    /// The public key with its algorithm, the whole SubjectPublicKeyInfo (RFC 5280 4.1.2.7).
    pub key: &'a [u8],
    /// The signer's digest algorithm, the whole AlgorithmIdentifier.
    pub digest_alg: &'a [u8],
    /// The signer's signature algorithm, the whole AlgorithmIdentifier.
    pub signature_alg: &'a [u8],
    /// The tail of the signed attributes: the octet 31 and this are what was signed (RFC 5652 5.4).
    pub tail: &'a [u8],
    /// The octets of the signature.
    pub signature: &'a [u8],
}

impl<'a> Model for Question<'a> {
    ghost use Rattle.list_answers.specs.Asking.{Asked};

    ghost Value = { Asked };

    ghost view = { λ q. record {
      key = q.key.now;
      digest_alg = q.digest_alg.now;
      signature_alg = q.signature_alg.now;
      tail = q.tail.now;
      signature = q.signature.now;
    } };
}
