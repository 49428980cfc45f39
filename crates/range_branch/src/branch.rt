// The search over ranges.
ghost use Rattle.std.specs.Prelude.{◌≡◌, ◌≢◌, ◌+◌, ◌-◌, ◌*◌, ◌<◌, ◌≤◌, ◌^◌, [], IfOk, OnOk, OnErr, length};
ghost use Rattle.service_model.specs.Orders.{IsTopological};
ghost use Rattle.service_model.specs.declared.cert.Outcome.TheVariants.{Spent};
ghost use Rattle.service_model.specs.Verdicts.{IsTrueOf};
ghost use Rattle.tree_order.specs.Forest.{IsForest};
ghost use Rattle.range_branch.specs.Solutions.{Solves};
ghost use Rattle.range_branch.specs.Sizes.{IsShortCert};
ghost use Rattle.search_laws.specs.Own.{IsOwn};
ghost use Rattle.search_laws.specs.Enough.{enough_of};
ghost use Rattle.range_branch.specs.Progress.{IsGiven};
ghost use Rattle.range_branch.specs.Steps.{IsSearched};

use crate::cert::cert_of;
use crate::first::first_progress;
use crate::progress::Given;
use crate::split::split_leaf;
use range_splits::ending_of;
use service_model::cert_rules::MAX_BUDGET;
use service_model::{Cert, List, Network, NoMemory};
use std::alloc::Global;
use step_ledger::Steps;
use table_pool::Pool;
use tree_order::Forest;

// The certificate of a search that begins with no tables.
fn searched<L>(
    alloc: Global,
    given: &Given<'_>,
    pool: &mut Pool,
    steps: &mut Steps<L>,
) -> Result<Cert, NoMemory>
    requires given { IsGiven given.now }
    requires pool { pool.old ≡ [] }
    requires room { steps.old ≤ 2 ^ 63 - 40000000 }
    ensures cert { IfOk result (IsSearched given.now.network.now given.now.forest.now given.now.budget pool.new) }
    ensures steps { OnOk result (steps.new ≡ steps.old + length pool.new) }
    ensures later { steps.old ≤ steps.new }
    ensures few { steps.new ≤ steps.old + given.now.budget * length given.now.network.now.stages }
{
    let mut progress = first_progress(alloc, given, pool, steps)?;
    'splits: loop {
        let Some(leaf) = progress.leaves.least() else {
            unreachable!()
        };
        let nodes = progress.nodes.len();
        match ending_of(
            given.network,
            given.budget,
            nodes,
            leaf.bound,
            &progress.found,
        ) {
            Some(outcome) => {
                return cert_of(alloc, given, pool, progress, outcome, leaf.bound);
            }
            None => {
                progress = split_leaf(alloc, given, progress, leaf, pool, steps)?;
            }
        }
    }
}

/// The certificate of a search: while it has not ended, the leaf of least bound, the lowest number among equals, is split at
/// the arc that its relaxed plan breaks most. Its tables are those of the pool, which was cleared first; after a refusal the
/// pool is empty. `order` has suppliers first. Each table is a step.
pub fn search<L>(
    alloc: Global,
    network: &Network,
    forest: &Forest,
    order: &List<u32>,
    budget: u32,
    pool: &mut Pool,
    steps: &mut Steps<L>,
) -> Result<Cert, NoMemory>
    requires forest { IsForest (length network.now.stages) network.now.arcs forest.now }
    requires order { IsTopological (length network.now.stages) network.now.arcs order.now }
    requires some_budget { 1 ≤ budget }
    requires budget { budget ≤ MAX_BUDGET }
    requires room { steps.old ≤ 2 ^ 63 - 40000000 }
    ensures own { IfOk result (IsOwn network.now forest.now budget) }
    ensures true_verdict { IfOk result (λ c. IsTrueOf network.now c.verdict) }
    ensures short { IfOk result (IsShortCert network.now) }
    // Where the forest drops no arc, one node solves the network, with one table for each stage.
    ensures one { IfOk result (λ c. forest.now.dropped ≡ [] → (length c.nodes ≡ 1) × (c.splits ≡ [])) }
    ensures stages { IfOk result (λ c. forest.now.dropped ≡ [] → length c.tables ≡ length network.now.stages) }
    ensures solved { IfOk result (λ c. forest.now.dropped ≡ [] → Solves network.now c.verdict) }
    // Whatever the budget is, there are no more nodes than are enough, and a budget that is enough is never spent.
    ensures nodes { IfOk result (λ c. length c.nodes ≤ enough_of network.now forest.now) }
    ensures spent { IfOk result (λ c. c.verdict.outcome ≡ Spent → budget < enough_of network.now forest.now) }
    ensures pool { IfOk result (λ c. pool.new ≡ c.tables) }
    ensures emptied { OnErr result (pool.new ≡ []) }
    ensures filled { IfOk result (λ c. steps.new ≡ steps.old + length c.tables) }
    ensures later { steps.old ≤ steps.new }
    ensures few { steps.new ≤ steps.old + budget * length network.now.stages }
{
    // The call tells that the network keeps its rules.
    let _horizon = network.horizon();
    let given = Given {
        network,
        forest,
        order,
        budget,
    };
    pool.clear();
    match searched(alloc, &given, pool, steps) {
        Ok(cert) => Ok(cert),
        Err(refusal) => {
            pool.clear();
            Err(refusal)
        }
    }
}
