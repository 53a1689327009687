ghost use Rattle.std.specs.Prelude.{◌≡◌, ◌↔◌, ◌++◌, ◌∷◌, ℕ, List, true, IsTrue};
ghost use Rattle.std.specs.List.{concat};
ghost use Rattle.digests.specs.Digests.{alg_of, octets_of};
ghost use Rattle.digests.specs.Messages.{digest_of};
ghost use Rattle.digests.specs.Selection.{FedWanted, set_of};
ghost use Rattle.digests.specs.Sets.{is_in};
ghost use Rattle.check_evidence.specs.Roots.{IsAscending, IsGroupOf};
ghost use Rattle.check_evidence.specs.Joining.{ascends, put_in};

use der_core::octets::is_less;
use digests::{Alg, Algs, Digest, Wanted};
use evidence_types::HashList;

// Whether the values stand in ascending order.
fn test_order(values: &HashList) -> bool
    ensures { result ≡ ascends values.now }
{
    let Some((first, mut left)) = values.next() else {
        return true;
    };
    let mut last = first.bytes();
    while let Some((value, others)) = left.next() {
        if is_less(value.bytes(), last) {
            return false;
        }
        last = value.bytes();
        left = others;
    }
    true
}

// Feeds the values, one after the other.
fn feed_all(hashers: &mut Wanted, values: &HashList)
    ensures set { set_of hashers.new ≡ set_of hashers.old }
    ensures fed { (m : List ℕ) → FedWanted hashers.old m → FedWanted hashers.new (m ++ concat values.now) }
{
    let mut left = values.again();
    while let Some((value, others)) = left.next() {
        hashers.update(value.bytes());
        left = others;
    }
}

// Feeds the values before which the node isn't put in, and returns the others.
fn feed_before<'a>(hashers: &mut Wanted, node: &[u8], values: &HashList<'a>) -> HashList<'a>
    ensures set { set_of hashers.new ≡ set_of hashers.old }
    ensures fed { (m : List ℕ) → FedWanted hashers.old m → (fed : List ℕ) × FedWanted hashers.new fed
        × (m ++ concat (put_in node.now values.now) ≡ fed ++ (node.now ++ concat result)) }
{
    let mut left = values.again();
    while let Some((value, others)) = left.next() {
        if !is_less(value.bytes(), node) {
            return left;
        }
        hashers.update(value.bytes());
        left = others;
    }
    left
}

// The digest of what was fed.
pub(crate) fn finish(alg: Alg, hashers: Wanted) -> Digest
    requires { is_in alg (set_of hashers) ≡ true }
    ensures algorithm { alg_of result ≡ alg }
    ensures octets { (m : List ℕ) → FedWanted hashers m → octets_of result ≡ digest_of alg m }
{
    match hashers.finish().of(alg) {
        Some(digest) => digest,
        None => unreachable!(),
    }
}

// The digest of the values, one after the other.
fn hashed(alg: Alg, values: &HashList) -> Digest
    ensures algorithm { alg_of result ≡ alg }
    ensures octets { octets_of result ≡ digest_of alg (concat values.now) }
{
    let mut hashers = Wanted::new(Algs::none().with(alg));
    feed_all(&mut hashers, values);
    finish(alg, hashers)
}

// The same with one more value put in at its place.
fn hashed_with(alg: Alg, node: &[u8], values: &HashList) -> Digest
    ensures algorithm { alg_of result ≡ alg }
    ensures octets { octets_of result ≡ digest_of alg (concat (put_in node.now values.now)) }
{
    let mut hashers = Wanted::new(Algs::none().with(alg));
    let others = feed_before(&mut hashers, node, values);
    hashers.update(node);
    feed_all(&mut hashers, &others);
    finish(alg, hashers)
}

/// Whether the hash values stand in ascending order, octet by octet (RFC 4998 4.2, step 4). It allocates nothing.
pub fn is_ascending(values: &HashList) -> bool
    ensures { IsTrue result ↔ IsAscending values.now }
{
    test_order(values)
}

/// The hash value of a group of hash values that stand in ascending order (RFC 4998 4.2, step 4). It allocates nothing.
pub fn group_of(alg: Alg, values: &HashList) -> Digest
    requires { IsAscending values.now }
    // It is by this algorithm.
    ensures algorithm { alg_of result ≡ alg }
    // It is the hash value of the group of these.
    ensures group { IsGroupOf alg values.now (octets_of result) }
{
    hashed(alg, values)
}

/// The hash value of a node and the values of the next list, which stand in ascending order: the node is put in at its
/// place (RFC 4998 4.3, step 3). It allocates nothing.
pub fn group_with(alg: Alg, node: &[u8], values: &HashList) -> Digest
    requires { IsAscending values.now }
    // It is by this algorithm.
    ensures algorithm { alg_of result ≡ alg }
    // It is the hash value of the group of the node and these.
    ensures group { IsGroupOf alg (node.now ∷ values.now) (octets_of result) }
{
    hashed_with(alg, node, values)
}
