//! Labels that are found without a look at all of them.
ghost use Rattle.std.specs.Prelude.{◌≡◌, ◌%◌, ◌<◌, ◌≤◌, length, slice_index, EachIndex, IfOk, IfErr};
ghost use Rattle.trust_lists.specs.Chains.{chain_at, NoneAt, IsNextAt, AreHeads, AreLinks};

use std::alloc::{AllocError, Global};
use std::marker::Model;

/// Labels in an order, each of which is found in a few steps.
///
/// The places of the labels with one remainder by how many there are make a chain: `heads` has the first place of each
/// chain, and `links` for each place the next one of its chain. In the place of a place that isn't there stands how
/// many there are.
///
/// Contracts see the labels.
#[derive(Debug, Drop)]
pub(crate) struct Chains {
    labels: Vec<u64>,
    heads: Vec<usize>,
    links: Vec<usize>,
}

impl Model for Chains {
    ghost use Rattle.std.specs.Prelude.{ℕ, List};
    ghost use Rattle.trust_lists.specs.Chains.{AreHeads, AreLinks};

    ghost Value = { List ℕ };

    ghost view = { λ c. c.labels.items };

    ghost invariant = { λ c. AreHeads c.labels.items c.heads.items 0 × AreLinks c.labels.items c.links.items 0 };
}

// In which of so many chains a label is.
fn chain_of(label: u64, count: usize) -> usize
    requires { 0 < count }
    ensures is { result ≡ label % count }
    ensures within { result < count }
{
    (label % count as u64) as usize
}

// Makes the chains of labels, from the last label on.
fn link(labels: &[u64], heads: &mut [usize], links: &mut [usize])
    requires heads { length heads.old ≡ length labels.now }
    requires links { length links.old ≡ length labels.now }
    requires none { EachIndex heads.old (λ i. slice_index heads.old i ≡ length labels.now) }
    ensures heads { AreHeads labels.now heads.new 0 }
    ensures links { AreLinks labels.now links.new 0 }
{
    let mut at = labels.len();
    while at > 0 {
        at -= 1;
        let chain = chain_of(labels[at], labels.len());
        links[at] = heads[chain];
        heads[chain] = at;
    }
}

impl Chains {
    /// The chains of labels.
    ///
    /// Errors: memory is refused.
    pub fn of(alloc: Global, labels: Vec<u64>) -> Result<Chains, AllocError>
        ensures made { IfOk result (λ c. c ≡ labels.items) }
        // For no labels no memory is taken.
        ensures memory { IfErr result (λ _. 0 < length labels.items) }
    {
        let count = labels.len();
        if count == 0 {
            return Ok(Chains {
                labels,
                heads: Vec::new(alloc),
                links: Vec::new(alloc),
            });
        }
        let mut heads = vec![in alloc; count; count]?;
        let mut links = vec![in alloc; count; count]?;
        link(&labels, &mut heads, &mut links);
        Ok(Chains {
            labels,
            heads,
            links,
        })
    }

    // Where the chain of a label goes on from this place on, or begins before it.
    fn start(&self, label: u64, from: usize) -> usize
        requires { 0 < length self.now }
        ensures there { result < length self.now → chain_at self.now result ≡ label % length self.now }
        ensures passed { NoneAt (λ i. chain_at self.now i ≡ label % length self.now) from result }
    {
        let count = self.labels.len();
        let chain = chain_of(label, count);
        if 0 < from && from <= count && chain_of(self.labels[from - 1], count) == chain {
            return self.links[from - 1];
        }
        self.heads[chain]
    }

    /// The first place of this label, from this place on.
    pub fn next(&self, label: u64, from: usize) -> Option<usize>
        ensures { IsNextAt (λ i. slice_index self.now i ≡ label) (length self.now) from result }
    {
        if self.labels.is_empty() {
            return None;
        }
        let mut at = self.start(label, from);
        while at < self.labels.len() {
            if from <= at && self.labels[at] == label {
                return Some(at);
            }
            at = self.links[at];
        }
        None
    }
}
