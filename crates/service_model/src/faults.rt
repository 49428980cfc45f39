// The rules on networks, in their order.
ghost use Rattle.std.specs.Prelude.{◌≡◌, ℕ, ◌-◌, ◌<◌, ◌^◌, length, take, option_map, All, IfSome, IfOk};
ghost use Rattle.service_model.specs.Net.{net_of};
ghost use Rattle.service_model.specs.Search.{first_of};
ghost use Rattle.service_model.specs.Faults.{fault_at, fails_if, rules_before_cycle, FirstFromCycle, IsFirstFault};

use crate::arc_rules::{arc_count_fault, ends_place, transit_place, twice_fault};
use crate::cycle::first_on_cycle;
use crate::stage_rules::{entry_fault, length_place, stage_count_fault, times_place};
use crate::{MAX_HORIZON, NoMemory, Stage, SupplyArc};
use std::alloc::Global;

/// The first rule that a network breaks, by its number, and where: the count (rules 2 and 6), the number of the
/// stage (3, 4, 5 and 9) or of the arc (7, 8 and 10), and 0 for rule 1.
#[derive(Clone, Copy, Debug, PartialEq, Eq)]
pub struct NetworkFault {
    pub rule: u8,
    pub place: u32,
}

/// Why there is no network.
#[derive(Clone, Copy, Debug, PartialEq, Eq)]
pub enum NewFault {
    /// A rule fails, and it is the first.
    Rule(NetworkFault),
    NoMemory,
}

impl From<NoMemory> for NewFault {
    ghost use Rattle.service_model.specs.declared.faults.NewFault.TheVariants.{NoMemory};

    ghost from_gives = { λ _ fault. fault ≡ NoMemory };

    fn from(_: NoMemory) -> Self {
        NewFault::NoMemory
    }
}

/// N1: the horizon is too long.
pub const LONG_HORIZON: u8 = 1;
/// N2: there are no stages, or too many.
pub const STAGE_COUNT: u8 = 2;
/// N3: a stage's times are out of their ranges.
pub const STAGE_TIMES: u8 = 3;
/// N4: a cost list is empty or too long.
pub const COST_LENGTH: u8 = 4;
/// N5: an entry is above `INF`, or the greatest allowed entries so far sum up to too much.
pub const COST_ENTRY: u8 = 5;
/// N6: there are too many arcs.
pub const ARC_COUNT: u8 = 6;
/// N7: an arc's end is no stage, or its ends are equal.
pub const ARC_ENDS: u8 = 7;
/// N8: an earlier arc has the same ends.
pub const ARC_TWICE: u8 = 8;
/// N9: a stage reaches itself along arcs.
pub const ON_CYCLE: u8 = 9;
/// N10: a transit time is too long.
pub const LONG_TRANSIT: u8 = 10;

// The first rule that fails, none where all hold.
pub(crate) fn fault_of(
    alloc: Global,
    horizon: u16,
    stages: &[Stage],
    arcs: &[SupplyArc],
) -> Result<Option<NetworkFault>, NoMemory>
    requires few_stages { length stages.now < 2 ^ 32 }
    requires few_arcs { length arcs.now < 2 ^ 32 }
    ensures { IfOk result (λ fault. IsFirstFault (net_of horizon stages.now arcs.now) fault) }
{
    match fault_before_cycle(alloc, horizon, stages, arcs)? {
        Some(fault) => Ok(Some(fault)),
        None => fault_from_cycle(alloc, stages, arcs),
    }
}

fn fault_before_cycle(
    alloc: Global,
    horizon: u16,
    stages: &[Stage],
    arcs: &[SupplyArc],
) -> Result<Option<NetworkFault>, NoMemory>
    requires few_stages { length stages.now < 2 ^ 32 }
    requires few_arcs { length arcs.now < 2 ^ 32 }
    ensures { IfOk result (λ fault. fault ≡ first_of (rules_before_cycle (net_of horizon stages.now arcs.now))) }
{
    match fault_before_twice(horizon, stages, arcs) {
        Some(fault) => Ok(Some(fault)),
        None => twice_fault(alloc, arcs),
    }
}

// The rule on cycles, and the one after it.
fn fault_from_cycle(
    alloc: Global,
    stages: &[Stage],
    arcs: &[SupplyArc],
) -> Result<Option<NetworkFault>, NoMemory>
    requires few_stages { length stages.now < 2 ^ 32 }
    requires few_arcs { length arcs.now < 2 ^ 32 }
    requires ends { All (λ a. (a.supplier < length stages.now) × (a.customer < length stages.now)) arcs.now }
    ensures whatever_else { (horizon : ℕ) → IfOk result (λ fault. FirstFromCycle (net_of horizon stages.now arcs.now) fault) }
{
    let first = first_on_cycle(alloc, stages.len(), arcs)?;
    Ok(cycle_fault(first).or_else(|| fault_at(LONG_TRANSIT, transit_place(arcs))))
}

// The first of the rules before the one on arcs that stand twice.
#[tactic(auto, unfolding(crate::specs::Faults::fails_at))]
fn fault_before_twice(horizon: u16, stages: &[Stage], arcs: &[SupplyArc]) -> Option<NetworkFault>
    requires few_stages { length stages.now < 2 ^ 32 }
    requires few_arcs { length arcs.now < 2 ^ 32 }
    ensures { result ≡ first_of (take (ARC_TWICE - 1) (rules_before_cycle (net_of horizon stages.now arcs.now))) }
{
    fault_if(LONG_HORIZON, horizon > MAX_HORIZON, 0)
        .or_else(|| stage_count_fault(stages))
        .or_else(|| fault_at(STAGE_TIMES, times_place(horizon, stages)))
        .or_else(|| fault_at(COST_LENGTH, length_place(horizon, stages)))
        .or_else(|| entry_fault(stages))
        .or_else(|| arc_count_fault(arcs))
        .or_else(|| fault_at(ARC_ENDS, ends_place(stages.len(), arcs)))
}

// A rule, where it fails.
#[tactic(auto, unfolding(crate::specs::Faults::fails_if))]
pub(crate) fn fault_if(rule: u8, fails: bool, place: u32) -> Option<NetworkFault>
    ensures { result ≡ fails_if rule fails place }
{
    if fails {
        Some(NetworkFault { rule, place })
    } else {
        None
    }
}

// A rule at a place, if there is one.
pub(crate) fn fault_at(rule: u8, place: Option<usize>) -> Option<NetworkFault>
    requires { IfSome place (λ k. k < 2 ^ 32) }
    ensures { result ≡ option_map (fault_at rule) place }
{
    place.map(|place| NetworkFault {
        rule,
        place: place as u32,
    })
}

fn cycle_fault(first: Option<u32>) -> Option<NetworkFault>
    ensures { result ≡ option_map (fault_at ON_CYCLE) first }
{
    first.map(|place| NetworkFault {
        rule: ON_CYCLE,
        place,
    })
}
