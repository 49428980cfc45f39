// The first rule on nodes that fails.
ghost use Rattle.std.specs.Prelude.{◌≡◌, ◌<◌, ◌↔◌, All, IfOk, IfSome, IsTrue, length};
ghost use Rattle.service_model.specs.Plans.{HasTimes};
ghost use Rattle.service_model.specs.Ranges.{HasIntervals};
ghost use Rattle.service_model.specs.LocalSums.{Sound};
ghost use Rattle.service_model.specs.Held.{Held, budget_of, range_of};
ghost use Rattle.service_model.specs.CertRules.{NodeRule, IsFirstOf};
ghost use Rattle.node_rules.specs.Faults.{IsBelowFault};

use crate::fits::{Floored, all_fit, all_fit_below};
use crate::roots::are_roots;
use crate::walks::walk;
use service_model::cert_rules::{BUDGET, FITS, RELAXED, ROOT, STAGE_TWICE};
use service_model::{Network, NoMemory, Node, Plan, Range, Table};
use std::alloc::Global;

/// The first rule on nodes that fails, none where all hold. `nodes` is how many nodes came before, the range is the node's.
pub fn node_fault(
    alloc: Global,
    network: &Network,
    range: &Range,
    budget: u32,
    nodes: usize,
    tables: &[Table],
    node: &Node,
) -> Result<Option<u8>, NoMemory>
    requires sound { Sound network.now tables.now }
    requires range { HasIntervals network.now range.now }
    ensures first { (h : Held) → h.tables ≡ tables.now → length h.nodes ≡ nodes → budget_of h ≡ budget → range_of network.now h nodes ≡ range.now
        → IfOk result (IsFirstOf (NodeRule network.now h node.now)) }
{
    let roots = node.roots.as_slice();
    if nodes >= budget as usize {
        return Ok(Some(BUDGET));
    }
    if !are_roots(tables, roots) {
        return Ok(Some(ROOT));
    }
    if let Some(rule) = below_fault(alloc, network, range, tables, roots)? {
        return Ok(Some(rule));
    }
    if !has_times(network, &node.relaxed) {
        return Ok(Some(RELAXED));
    }
    Ok(None)
}

// The first of the rules on the tables at and below the roots that fails. Where the walk tells them all, they are as
// many as stages at most, and only they are compared.
fn below_fault(
    alloc: Global,
    network: &Network,
    range: &Range,
    tables: &[Table],
    roots: &[u32],
) -> Result<Option<u8>, NoMemory>
    requires sound { Sound network.now tables.now }
    requires range { HasIntervals network.now range.now }
    requires there { All (λ k. k < length tables.now) roots.now }
    ensures { IfOk result (IsBelowFault network.now range.now tables.now roots.now) }
{
    let range = Floored {
        network,
        range,
        floors: network.floors(alloc, range)?,
    };
    let Some(met) = walk(alloc, network, tables, roots)? else {
        let fit = all_fit_below(alloc, &range, tables, roots)?;
        return Ok(Some(if fit { STAGE_TWICE } else { FITS }));
    };
    let fit = all_fit(&range, tables, met.as_slice());
    Ok(if fit { None } else { Some(FITS) })
}

// Whether the relaxed plan, if there is one, gives each stage its two times.
fn has_times(network: &Network, relaxed: &Option<Plan>) -> bool
    ensures { IsTrue result ↔ IfSome relaxed.now (HasTimes network.now) }
{
    match relaxed {
        None => true,
        Some(plan) => {
            let stages = network.stages().len();
            plan.inbound.len() == stages && plan.outbound.len() == stages
        }
    }
}
