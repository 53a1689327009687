use std::fmt;
use thiserror::Error;

/// Why a response doesn't answer a request: the first rule that fails. `Display` prints its code and name.
#[derive(Clone, Copy, Debug, PartialEq, Eq, Error)]
pub enum MatchFault {
    /// P1: the status is neither granted nor grantedWithMods.
    Status,
    /// P2: the response has no token.
    NoToken,
    /// P3: the token isn't a SignedData with a TSTInfo as its content and exactly one signer.
    TokenMalformed,
    /// P4: the imprint of the token isn't that of the request.
    Imprint,
    /// P5: the request has a nonce, and the token doesn't have the same one.
    Nonce,
    /// P6: the request names a policy, and the token has another.
    Policy,
    /// P7: the request asks for the certificate, and the token has none that its signer's attributes name.
    CertMissing,
}

impl fmt::Display for MatchFault {
    ghost use Rattle.std.specs.Prelude.{Some};
    ghost use Rattle.tsp_requester.specs.MatchFaultTexts.{match_fault_text};

    ghost output = { λ r. Some (match_fault_text r) };

    fn fmt<W: fmt::Write>(&self, f: &mut fmt::Formatter<W>) -> fmt::Result {
        f.write_str(match self {
            MatchFault::Status => "P1 Status",
            MatchFault::NoToken => "P2 NoToken",
            MatchFault::TokenMalformed => "P3 TokenMalformed",
            MatchFault::Imprint => "P4 Imprint",
            MatchFault::Nonce => "P5 Nonce",
            MatchFault::Policy => "P6 Policy",
            MatchFault::CertMissing => "P7 CertMissing",
        })
    }
}
