//! Where each branch stands in the table: buckets by a hash, each a chain of branches, of which the
//! newest comes first.
ghost use Rattle.std.specs.Prelude.{◌≡◌, ◌+◌, ◌<◌, ◌≤◌, [], ◌∷◌, List, length, reverse, slice_index, IfOk, OnErr, OnOk};
ghost use Rattle.hv_cond.specs.declared.nodes.Decision.{Decision};
ghost use Rattle.hv_cond.specs.Diagram.{top};
ghost use Rattle.hv_cond.specs.working.Places.{bucket, buckets, newest_in, IsPlaced};

use crate::nodes::Decision;
use std::alloc::{AllocError, Global};

/// The buckets, of which there are at least as many as branches. A branch is named by its node's
/// index, and 0, which is falsity's, stands for none.
#[derive(Drop)]
pub(crate) struct Places {
    /// The newest branch of each bucket.
    pub(crate) heads: Vec<u32>,
    /// For each branch, the one that came before it in its bucket.
    pub(crate) before: Vec<u32>,
}

/// The bucket of a branch, among so many. The factors of the children are near golden sections of
/// 2^32 and 2^31, so that branches with near indices come into buckets far apart.
fn bucket(decision: Decision, among: usize) -> usize
    requires { 0 < among }
    ensures is { result ≡ bucket among decision }
    ensures below { result < among }
{
    let mixed = decision.variable as u64 * 1_000_000_007
        + decision.low.index as u64 * 1_640_531_513
        + decision.high.index as u64 * 1_327_217_885;
    (mixed / 1_048_576) as usize % among
}

impl Places {
    /// The places of no branch, which has no buckets.
    pub(crate) fn new(alloc: Global) -> Places
        ensures { IsPlaced result [] }
    {
        Places {
            heads: Vec::new(alloc),
            before: Vec::new(alloc),
        }
    }

    /// How many branches there may be before buckets have to be added.
    pub(crate) fn room(&self) -> usize
        ensures { result ≡ buckets self.now }
    {
        self.heads.len()
    }

    /// The newest branch in the bucket of this one.
    pub(crate) fn newest(&self, decision: Decision) -> u32
        ensures { (ds : List Decision) → IsPlaced self.now ds
            → result ≡ newest_in (buckets self.now) (bucket (buckets self.now) decision) ds }
    {
        let buckets = self.heads.len();
        if buckets == 0 {
            return 0;
        }
        self.heads[bucket(decision, buckets)]
    }

    /// Enters the newest branch, of this index.
    pub(crate) fn enter(&mut self, decision: Decision, index: u32) -> Result<(), AllocError>
        requires { 0 < buckets self.old }
        ensures buckets { buckets self.new ≡ buckets self.old }
        ensures ok { OnOk result ((ds : List Decision) → IsPlaced self.old ds
            → length ds < buckets self.old → index ≡ top ds → IsPlaced self.new (decision ∷ ds)) }
        ensures err { OnErr result ((ds : List Decision)
            → IsPlaced self.old ds → IsPlaced self.new ds) }
    {
        let at = bucket(decision, self.heads.len());
        self.before.push(self.heads[at])?;
        self.heads[at] = index;
        Ok(())
    }

    /// The places of these branches, in so many buckets.
    pub(crate) fn rebuilt(
        alloc: Global,
        decisions: &[Decision],
        count: usize,
    ) -> Result<Places, AllocError>
        requires room { length decisions.now < count }
        requires few { length decisions.now + 2 < 4294967296 }
        ensures placed { IfOk result (λ places. IsPlaced places (reverse decisions.now)) }
        ensures buckets { IfOk result (λ places. buckets places ≡ count) }
    {
        let mut places = Places {
            heads: vec![in alloc; 0; count]?,
            before: Vec::with_capacity(alloc, count)?,
        };
        for i in 0..decisions.len() {
            places.enter(decisions[i], (i + 2) as u32)?;
        }
        Ok(places)
    }
}
