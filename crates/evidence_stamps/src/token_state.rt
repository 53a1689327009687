//! What a time-stamp states, whoever signed it (RFC 3161 2.4.2).
ghost use Rattle.std.specs.Prelude.{◌≡◌, Some, IfSome};
ghost use Rattle.der_core.specs.Lists.{only};
ghost use Rattle.der_time.specs.Moments.{generalized_moment};
ghost use Rattle.digests.specs.Algorithms.{Names};
ghost use Rattle.evidence_stamps.specs.StateValue.{IsStateOf};

use cms_types::{SignedData, Signer};
use der_core::octets::is_same;
use der_time::Moment;
use digests::Alg;
use std::marker::Model;
use tsp_types::TstInfo;
use tsp_types::oids::TST_INFO;

/// What a time-stamp states, and the SignedData that it is, as views of its octets. Nothing shows who signed it.
///
/// Contracts see a `StateValue` (`specs/StateValue.antt`).
#[derive(Debug, Drop)]
pub struct TokenState<'a> {
    signed: SignedData<'a>,
    stated: TstInfo<'a>,
}

impl<'a> Model for TokenState<'a> {
    ghost use Rattle.evidence_stamps.specs.StateValue.{StateValue};

    ghost Value = { StateValue };

    ghost view = { λ s. record { signed = s.signed; stated = s.stated } };
}

impl<'a> TokenState<'a> {
    /// What a token, the octets of a ContentInfo, states. `None` if they are no token: no SignedData whose content is
    /// a TSTInfo, by its type and its octets. It allocates nothing.
    pub fn read(token: &'a [u8]) -> Option<TokenState<'a>>
        // What the octets state; `None` exactly if they state nothing.
        ensures { IsStateOf token.now result }
    {
        let Ok(signed) = SignedData::read(token) else {
            return None;
        };
        if !is_same(signed.content_type().bytes(), &TST_INFO) {
            return None;
        }
        let Some(content) = signed.content() else {
            return None;
        };
        let Ok(stated) = TstInfo::read(content) else {
            return None;
        };
        Some(TokenState { signed, stated })
    }

    /// The moment that it states (`genTime`).
    pub fn moment(&self) -> Moment
        ensures { result ≡ generalized_moment self.now.stated.time }
    {
        self.stated.time()
    }

    /// The algorithm of its imprint. `None` if it isn't known.
    pub fn imprint_alg(&self) -> Option<Alg>
        // An algorithm that is returned is the one that is named.
        ensures found { let named = self.now.stated.imprint.algorithm in
            IfSome result (Names named.oid named.parameters) }
        // An algorithm that is named is returned.
        ensures only { let named = self.now.stated.imprint.algorithm in
            (alg : Alg) → Names named.oid named.parameters alg → result ≡ Some alg }
    {
        let algorithm = self.stated.algorithm();
        Alg::of(algorithm.oid(), algorithm.parameters())
    }

    /// Its one signer. `None` if there is none, or more than one.
    pub fn signer(&self) -> Option<Signer<'a>>
        ensures { result ≡ only self.now.signed.signers }
    {
        self.signed.signers().only()
    }
}
