//! The rules that are tried with each trusted entry, in their order. An entry stops at the first that it fails.
ghost use Rattle.std.specs.Prelude.{◌≡◌, max};
ghost use Rattle.check_verdict.specs.Stages.{before_signer, before_token, passed_for_signer, passed_for_token};
ghost use Rattle.check_verdict.specs.Verdicts.{signer_filter};
ghost use Rattle.check_verdict.specs.TokenRules.{token_filter};

use check_fit::{SignerRule, TokenRule};

/// The rules that are tried with each trusted entry for a signer, in their order.
#[derive(Clone, Copy, PartialEq, Eq, PartialOrd, Ord)]
pub(crate) enum SignerFilter {
    /// S7: the entry is a signer's, matches, and holds at the moment if one is given.
    UnknownSigner,
    /// S8: the signer's attributes name its certificate, if they name any.
    NotNamed,
    /// S9: the verifier vouches for the signer under it.
    SignatureFails,
}

impl SignerFilter {
    /// The later of two.
    pub(crate) fn later(self, other: SignerFilter) -> SignerFilter
        ensures { before_signer result ≡ max (before_signer self) (before_signer other) }
    {
        if self < other { other } else { self }
    }

    /// Why the signer is refused if the entry that comes furthest stops here.
    pub(crate) fn rule(self) -> SignerRule
        ensures { result ≡ signer_filter (before_signer self) }
    {
        match self {
            SignerFilter::UnknownSigner => SignerRule::UnknownSigner,
            SignerFilter::NotNamed => SignerRule::NotNamed,
            SignerFilter::SignatureFails => SignerRule::SignatureFails,
        }
    }
}

/// Where the one of two entries stops that comes further, by where each of them stops; `None` if it passes S7 to S9.
pub(crate) fn further_for_signer(
    best: Option<SignerFilter>,
    next: Option<SignerFilter>,
) -> Option<SignerFilter>
    ensures { passed_for_signer result ≡ max (passed_for_signer best) (passed_for_signer next) }
{
    match (best, next) {
        (Some(best), Some(next)) => Some(best.later(next)),
        _ => None,
    }
}

/// The rules that are tried with each trusted entry for a token, in their order.
#[derive(Clone, Copy, PartialEq, Eq, PartialOrd, Ord)]
pub(crate) enum TokenFilter {
    /// K10: the entry is an authority's, and matches.
    UnknownTsa,
    /// K11: the attributes of the token's signer name its certificate.
    NotNamed,
    /// K12: its certificate is for time-stamping alone.
    Purpose,
    /// K13: it holds at the moment of the stamp.
    Period,
    /// K14: the verifier vouches for the token's signer under it.
    SignatureFails,
}

impl TokenFilter {
    /// The later of two.
    pub(crate) fn later(self, other: TokenFilter) -> TokenFilter
        ensures { before_token result ≡ max (before_token self) (before_token other) }
    {
        if self < other { other } else { self }
    }

    /// Why the token is refused if the entry that comes furthest stops here.
    pub(crate) fn rule(self) -> TokenRule
        ensures { result ≡ token_filter (before_token self) }
    {
        match self {
            TokenFilter::UnknownTsa => TokenRule::UnknownTsa,
            TokenFilter::NotNamed => TokenRule::NotNamed,
            TokenFilter::Purpose => TokenRule::Purpose,
            TokenFilter::Period => TokenRule::Period,
            TokenFilter::SignatureFails => TokenRule::SignatureFails,
        }
    }
}

/// Where the one of two entries stops that comes further, by where each of them stops; `None` if it passes K10 to K14.
pub(crate) fn further_for_token(
    best: Option<TokenFilter>,
    next: Option<TokenFilter>,
) -> Option<TokenFilter>
    ensures { passed_for_token result ≡ max (passed_for_token best) (passed_for_token next) }
{
    match (best, next) {
        (Some(best), Some(next)) => Some(best.later(next)),
        _ => None,
    }
}
