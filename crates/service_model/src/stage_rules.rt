// The rules on networks that speak of stages.
ghost use Rattle.std.specs.Prelude.{◌≡◌, ℕ, ◌<◌, ◌^◌, ◌==◌, ◌||◌, List, length, nat_lt, position, IfSome};
ghost use Rattle.std.specs.List.{list_any};
ghost use Rattle.service_model.specs.Net.{net_of};
ghost use Rattle.service_model.specs.Faults.{fails_if, fails_below, has_bad_times, has_bad_length, has_bad_entry, top_of};

use crate::faults::{COST_ENTRY, STAGE_COUNT, fault_if};
use crate::limits::MAX_BEYOND;
use crate::{INF, List, MAX_PLAN_COST, MAX_STAGES, MAX_TIME, NetworkFault, Stage, SupplyArc};

pub(crate) fn stage_count_fault(stages: &[Stage]) -> Option<NetworkFault>
    requires { length stages.now < 2 ^ 32 }
    ensures { result ≡ fails_if STAGE_COUNT ((length stages.now == 0) || nat_lt MAX_STAGES (length stages.now)) (length stages.now) }
{
    let fails = stages.is_empty() || stages.len() > MAX_STAGES;
    fault_if(STAGE_COUNT, fails, stages.len() as u32)
}

pub(crate) fn times_place(horizon: u16, stages: &[Stage]) -> Option<usize>
    ensures value { result ≡ position (has_bad_times horizon) stages.now }
    ensures within { IfSome result (λ k. k < length stages.now) }
{
    stages
        .iter()
        .position(|stage| has_bad_times(horizon, stage))
}

#[tactic(auto, unfolding(crate::specs::Faults::has_bad_times))]
fn has_bad_times(horizon: u16, stage: &Stage) -> bool
    ensures { result ≡ has_bad_times horizon stage.now }
{
    stage.lead > MAX_TIME
        || stage.supply > horizon
        || stage.most > horizon
        || stage.most < stage.least
}

pub(crate) fn length_place(horizon: u16, stages: &[Stage]) -> Option<usize>
    ensures value { result ≡ position (has_bad_length horizon) stages.now }
    ensures within { IfSome result (λ k. k < length stages.now) }
{
    stages
        .iter()
        .position(|stage| has_bad_length(horizon, stage))
}

#[tactic(auto, unfolding(crate::specs::Faults::has_bad_length))]
fn has_bad_length(horizon: u16, stage: &Stage) -> bool
    ensures { result ≡ has_bad_length horizon stage.now }
{
    stage.cost.len() == 0 || stage.cost.len() > horizon as usize + MAX_BEYOND
}

// The sum of the greatest entries is kept from stage to stage.
pub(crate) fn entry_fault(stages: &[Stage]) -> Option<NetworkFault>
    requires { length stages.now < 2 ^ 32 }
    ensures whatever_else { (horizon : ℕ) (arcs : List SupplyArc) → result ≡ fails_below COST_ENTRY (has_bad_entry (net_of horizon stages.now arcs)) (length stages.now) }
{
    let mut tops: u64 = 0;
    'stages: for j in 0..stages.len() {
        let cost = stages[j].cost.as_slice();
        tops += top_of(cost);
        if let Some(fault) = entry_fault_at(j as u32, cost, tops) {
            return Some(fault);
        }
    }
    None
}

// A stage's entries are judged with the sum of the greatest ones of the stages up to it.
fn entry_fault_at(place: u32, cost: &[u64], tops: u64) -> Option<NetworkFault>
    ensures { result ≡ fails_if COST_ENTRY (list_any (nat_lt INF) cost.now || nat_lt MAX_PLAN_COST tops) place }
{
    fault_if(
        COST_ENTRY,
        has_entry_above(cost) || tops > MAX_PLAN_COST,
        place,
    )
}

fn has_entry_above(cost: &[u64]) -> bool
    ensures { result ≡ list_any (nat_lt INF) cost.now }
{
    cost.iter().any(|entry| INF < *entry)
}

// The greatest allowed entry, 0 where there is none.
#[tactic(auto, using(crate::proofs::TopFacts::top_of_more))]
fn top_of(cost: &[u64]) -> u64
    ensures { result ≡ top_of cost.now }
{
    let mut top: u64 = 0;
    'entries: for entry in cost {
        if *entry < INF {
            top = top.max(*entry);
        }
    }
    top
}
