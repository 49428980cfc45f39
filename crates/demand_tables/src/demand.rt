// The excess demands of all stages, in the demand order.
ghost use Rattle.std.specs.Prelude.{◌≡◌, ◌<◌, IfOk, IsSome, All, None, Some, [], length, map, nat_lt, replicate};
ghost use Rattle.std.specs.List.{list_any};
ghost use Rattle.service_model.specs.Search.{first_of};
ghost use Rattle.service_model.specs.Walks.{NoCycle};
ghost use Rattle.demand_tables.specs.Demand.{arcs_from, named_excess, ExcessWithin, IsExcess, IsOnlyExcess};
ghost use Rattle.demand_tables.specs.DemandFaults.{bound_rules, supply_arc, turned, DemandCase, IsDemandOrder};
ghost use Rattle.demand_tables.specs.DemandNet.{IsDemandNet};
ghost use Rattle.demand_tables.specs.Lookups.{AreAnswered};

use crate::bounds::{bound_fault, bounds_fault};
use crate::joined::{pooled_list, sum_list};
use crate::lookups::Lookups;
use crate::normal::normal_list;
use service_model::{List, NoMemory, SupplyArc, lowest_first};
use stage_file::rules::TOO_LARGE;
use stage_file::{ArcRow, Bound, MAX_EXCESS, RawNet, ReadFault};
use std::alloc::Global;

/// The excess demand of each stage, in units of stock from time 0 on, or the first rule that fails: a bound names no
/// table, a bound asks for customers that there are not, or an excess demand is too large.
pub fn tables_of(alloc: Global, raw: &RawNet) -> Result<List<List<u64>>, ReadFault>
    requires net { IsDemandNet raw.now }
    requires acyclic { NoCycle (length raw.now.stages) (map supply_arc raw.now.arcs) }
    ensures value { DemandCase raw.now result }
    ensures only { IfOk result (IsOnlyExcess raw.now) }
    ensures within { IfOk result (All (ExcessWithin raw.now.horizon)) }
{
    let lookups = Lookups::new(alloc, raw)?;
    if let Some(fault) = bounds_fault(&lookups) {
        return Err(ReadFault::Fault(fault));
    }
    let order = demand_order(alloc, raw)?;
    excess_lists(alloc, &lookups, &order)
}

// Again and again the lowest stage whose customers were all taken.
fn demand_order(alloc: Global, raw: &RawNet) -> Result<List<u32>, NoMemory>
    requires net { IsDemandNet raw.now }
    requires acyclic { NoCycle (length raw.now.stages) (map supply_arc raw.now.arcs) }
    ensures { IfOk result (IsDemandOrder raw.now) }
{
    let arcs = turned_arcs(alloc, raw.arcs.as_slice())?;
    lowest_first(alloc, raw.stages.len(), arcs.as_slice())
}

fn turned_arcs(alloc: Global, arcs: &[ArcRow]) -> Result<List<SupplyArc>, NoMemory>
    ensures { IfOk result (λ list. list ≡ map turned arcs.now) }
{
    let mut list = List::new(alloc);
    'arcs: for arc in arcs {
        list.push(SupplyArc {
            supplier: arc.customer,
            customer: arc.supplier,
            transit: arc.transit,
        })?;
    }
    Ok(list)
}

fn excess_lists(
    alloc: Global,
    lookups: &Lookups,
    order: &List<u32>,
) -> Result<List<List<u64>>, ReadFault>
    requires net { IsDemandNet lookups.now.raw.now }
    requires bounds { first_of (bound_rules lookups.now.raw.now) ≡ None }
    requires order { IsDemandOrder lookups.now.raw.now order.now }
    ensures value { DemandCase lookups.now.raw.now result }
    ensures within { IfOk result (All (ExcessWithin lookups.now.raw.now.horizon)) }
{
    let stages = &lookups.raw.stages;
    let mut lists = empty_lists(alloc, stages.len())?;
    'order: for k in 0..order.len() {
        let stage = *order.get(k) as usize;
        let excess = excess_of(alloc, lookups, &lists, stage)?;
        if has_large(excess.as_slice()) {
            return Err(ReadFault::Fault(bound_fault(TOO_LARGE, stages.get(stage))));
        }
        lists.set(stage, excess);
    }
    Ok(lists)
}

fn empty_lists(alloc: Global, stages: usize) -> Result<List<List<u64>>, NoMemory>
    ensures { IfOk result (λ lists. lists ≡ replicate stages []) }
{
    let mut lists = List::new(alloc);
    'stages: for _stage in 0..stages {
        lists.push(List::new(alloc))?;
    }
    Ok(lists)
}

// The excess demand of a stage, given those of its customers.
fn excess_of(
    alloc: Global,
    lookups: &Lookups,
    lists: &List<List<u64>>,
    stage: usize,
) -> Result<List<u64>, NoMemory>
    requires there { stage < length lookups.now.raw.now.stages }
    requires bounds { first_of (bound_rules lookups.now.raw.now) ≡ None }
    requires answered { AreAnswered lists.now (arcs_from lookups.now.raw.now.arcs stage) }
    ensures { IfOk result (IsExcess lookups.now.raw.now lists.now stage) }
{
    let arcs = lookups.arcs_from(stage);
    match &lookups.raw.stages.get(stage).bound {
        Bound::Named(name) => named_list(alloc, lookups, name.as_slice()),
        Bound::Normal(factor) => normal_list(alloc, lookups.raw.horizon, *factor),
        Bound::Sum => sum_list(alloc, lists, arcs),
        Bound::Pool => pooled_list(alloc, lists, arcs),
    }
}

// The entries of the table that a bound names.
fn named_list(alloc: Global, lookups: &Lookups, name: &[u8]) -> Result<List<u64>, NoMemory>
    requires { IsSome (named_excess lookups.now.raw.now name.now) }
    ensures { IfOk result (λ xs. named_excess lookups.now.raw.now name.now ≡ Some xs) }
{
    match lookups.named(name) {
        Some(entries) => List::copied(alloc, entries),
        None => unreachable!(),
    }
}

fn has_large(excess: &[u64]) -> bool
    ensures { result ≡ list_any (nat_lt MAX_EXCESS) excess.now }
{
    excess.iter().any(|x| *x > MAX_EXCESS)
}
