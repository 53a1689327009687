ghost use Rattle.std.specs.Prelude.{◌↔◌, IsTrue, List, ℕ, Option};
ghost use Rattle.digests.specs.declared.algorithm.Alg.{Alg};
ghost use Rattle.digests.specs.Sets.{is_in};
ghost use Rattle.digests.specs.Selection.{AreOfWanted, set_given};
ghost use Rattle.check_fit.specs.Fitting.{Wants, WantedBy, Judged};

use crate::one_signer::{alg_of, digest_alg, fits_by_digests};
use crate::policy::Policy;
use crate::rules::SignerRule;
use cms_types::{Signer, Signers};
use digests::{Algs, WantedDigests};

/// The algorithms with which the content must be hashed for one signer: the one that it names if the policy allows it.
pub fn wanted_of(policy: Policy, signer: &Signer) -> Algs
    ensures { (alg : Alg) → IsTrue (is_in alg result) ↔ Wants policy signer.now alg }
{
    match policy.allowed(digest_alg(signer)) {
        Some(alg) => Algs::none().with(alg),
        None => Algs::none(),
    }
}

/// The algorithms with which the content must be hashed: those that a signer names and the policy allows.
pub fn wanted_by(policy: Policy, signers: &Signers) -> Algs
    ensures { (alg : Alg) → IsTrue (is_in alg result) ↔ WantedBy policy signers.now alg }
{
    let mut wanted = Algs::none();
    let mut left = signers.again();
    while let Some((algorithm, others)) = left.next_digest_algorithm() {
        if let Some(alg) = policy.allowed(alg_of(&algorithm)) {
            wanted = wanted.with(alg);
        }
        left = others;
    }
    wanted
}

// The first signer that doesn't fit, by its number from 1, and the first rule that it fails. Each algorithm that a
// signer wants is among the digests.
pub(crate) fn first_unfit(
    policy: Policy,
    digests: &WantedDigests,
    econtent_type: &[u8],
    signers: &Signers,
) -> Option<(usize, SignerRule)>
    ensures { (content : List ℕ) → AreOfWanted digests.now content
        → ((alg : Alg) → WantedBy policy signers.now alg → IsTrue (is_in alg (set_given digests.now)))
        → Judged policy content econtent_type.now 1 signers.now result }
{
    let mut left = signers.again();
    let count = left.len();
    let mut number = 0;
    while let Some((signer, others)) = left.next() {
        number += 1;
        if let Err(rule) = fits_by_digests(policy, digests, econtent_type, &signer) {
            return Some((number, rule));
        }
        left = others;
    }
    None
}
