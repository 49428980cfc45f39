// The certificate of a network's search.
ghost use Rattle.std.specs.Prelude.{◌≡◌, ◌≤◌, ◌<◌, ◌+◌, ◌^◌, [], IfOk, length};
ghost use Rattle.service_model.specs.declared.cert.Outcome.TheVariants as outcome;
ghost use Rattle.service_model.specs.Verdicts.{IsTrueOf};
ghost use Rattle.tree_order.specs.Forest.{IsForest};
ghost use Rattle.search_laws.specs.Own.{IsOwn};
ghost use Rattle.search_laws.specs.Enough.{enough_of};
ghost use Rattle.range_branch.specs.Solutions.{Solves};
ghost use Rattle.cert_check.specs.Bytes.{IsAcceptedBytes};
ghost use Rattle.cert_files.specs.Certificates.{cert_bytes};
ghost use Rattle.planner_top.specs.Ready.{IsBudget};

use crate::filled::MOST_FILLED;
use range_branch::search;
use service_model::{Cert, Network, NoMemory, topological_order};
use std::alloc::Global;
use step_ledger::Steps;
use table_pool::Pool;
use tree_order::Forest;

/// The certificate of a search with so many ranges at most. Each table is one step.
pub fn cert_for<L>(
    alloc: Global,
    network: &Network,
    forest: &Forest,
    budget: u32,
    steps: &mut Steps<L>,
) -> Result<Cert, NoMemory>
    requires forest { IsForest (length network.now.stages) network.now.arcs forest.now }
    requires budget { IsBudget network.now budget }
    requires room { steps.old ≤ 2 ^ 62 }
    ensures own { IfOk result (IsOwn network.now forest.now budget) }
    ensures true_verdict { IfOk result (λ c. IsTrueOf network.now c.verdict) }
    ensures accepted { IfOk result (λ c. IsAcceptedBytes network.now (cert_bytes c) c.verdict) }
    ensures nodes { IfOk result (λ c. length c.nodes ≤ enough_of network.now forest.now) }
    ensures ranges { IfOk result (λ c. length c.nodes ≤ budget) }
    ensures full { IfOk result (λ c. c.verdict.outcome ≡ outcome.Spent → budget < length c.nodes + 2) }
    ensures short { IfOk result (λ c. c.verdict.outcome ≡ outcome.Spent → budget < enough_of network.now forest.now) }
    // Where the forest drops no arc, one range solves the network, with one table for each stage.
    ensures solved { IfOk result (λ c. forest.now.dropped ≡ [] → Solves network.now c.verdict) }
    ensures one { IfOk result (λ c. forest.now.dropped ≡ [] → length c.nodes ≡ 1) }
    ensures stages { IfOk result (λ c. forest.now.dropped ≡ [] → length c.tables ≡ length network.now.stages) }
    ensures filled { IfOk result (λ c. steps.new ≡ steps.old + length c.tables) }
    ensures later { steps.old ≤ steps.new }
    ensures few { steps.new ≤ steps.old + MOST_FILLED }
{
    let _stages = network.stages().len();
    let order = topological_order(alloc, network)?;
    let mut pool = Pool::new(alloc);
    search(alloc, network, forest, &order, budget, &mut pool, steps)
}
