// A network on which every rule holds.
ghost use Rattle.std.specs.Prelude.{◌≡◌, ◌+◌, ◌-◌, ◌<◌, ◌≤◌, ◌^◌, List, length};

use crate::arc_ends::ArcEnds;
use crate::faults::fault_of;
use crate::{List, MAX_PLAN_COST, NewFault, Plan, Stage, SupplyArc};
use std::alloc::Global;
use std::marker::Model;

/// A network on which every rule holds.
#[derive(Drop)]
pub struct Network {
    horizon: u16,
    stages: List<Stage>,
    arcs: List<SupplyArc>,
    ends: ArcEnds,
}

impl Model for Network {
    ghost use Rattle.service_model.specs.Net.{Net};

    ghost Value = { Net };

    ghost use Rattle.std.specs.Prelude.{◌≡◌, map};
    ghost use Rattle.service_model.specs.Networks.{IsNetwork};
    ghost use Rattle.service_model.specs.ArcEnds.{ends_of};

    ghost view = { λ n. record { horizon = n.horizon; stages = n.stages; arcs = n.arcs } };

    ghost invariant = { λ n. IsNetwork (record { horizon = n.horizon; stages = n.stages; arcs = n.arcs }) × (n.ends ≡ map ends_of n.arcs) };
}

impl Network {
    ghost use Rattle.service_model.specs.Net.{net_of, stage_at};
    ghost use Rattle.service_model.specs.Plans.{Feasible, cost_of, entry_of};
    ghost use Rattle.service_model.specs.Faults.{MakesNetwork};
    ghost use Rattle.service_model.specs.Tables.{transit_in};
    ghost use Rattle.service_model.specs.Networks.{IsNetwork};

    /// The network of these three, or the first rule that fails. On a refusal the lists are given up.
    pub fn new(
        alloc: Global,
        horizon: u16,
        stages: List<Stage>,
        arcs: List<SupplyArc>,
    ) -> Result<Network, NewFault>
        requires few_stages { length stages < 2 ^ 32 }
        requires few_arcs { length arcs < 2 ^ 32 }
        ensures { MakesNetwork (net_of horizon stages arcs) result }
    {
        match fault_of(alloc, horizon, stages.as_slice(), arcs.as_slice())? {
            Some(fault) => Err(NewFault::Rule(fault)),
            None => {
                let ends = ArcEnds::of(alloc, arcs.as_slice())?;
                Ok(Network {
                    horizon,
                    stages,
                    arcs,
                    ends,
                })
            }
        }
    }

    /// The horizon, in periods.
    pub fn horizon(&self) -> u16
        ensures value { result ≡ self.now.horizon }
        ensures valid { IsNetwork self.now }
    {
        self.horizon
    }

    pub fn stages(&self) -> &List<Stage>
        ensures value { result.now ≡ self.now.stages }
        ensures valid { IsNetwork self.now }
    {
        &self.stages
    }

    pub fn arcs(&self) -> &List<SupplyArc>
        ensures value { result.now ≡ self.now.arcs }
        ensures valid { IsNetwork self.now }
    {
        &self.arcs
    }

    /// The transit of the arc from a supplier to a customer, in periods, 0 where there is none. It is found without a pass
    /// over the arcs.
    pub fn transit_between(&self, supplier: u32, customer: u32) -> u16
        ensures value { result ≡ transit_in self.now.arcs supplier customer }
        ensures valid { IsNetwork self.now }
    {
        match self.ends.place_of(supplier, customer) {
            Some(place) => self.arcs.get(place).transit,
            None => 0,
        }
    }

    /// The cost of a stage at a net replenishment time, `INF` past its list's end.
    pub fn cost_at(&self, stage: u32, time: u32) -> u64
        requires { stage < length self.now.stages }
        ensures { result ≡ entry_of (stage_at self.now stage).cost time }
    {
        self.stages.get(stage as usize).cost_at(time)
    }

    /// The cost of a feasible plan.
    pub fn cost(&self, plan: &Plan) -> u64
        requires { Feasible self.now plan.now }
        ensures value { result ≡ cost_of self.now plan.now }
        ensures small { result ≤ MAX_PLAN_COST }
    {
        let mut total: u64 = 0;
        'stages: for j in 0..self.stages.len() {
            let stage = self.stages.get(j);
            total += stage.charge(*plan.inbound.get(j), *plan.outbound.get(j));
        }
        total
    }
}
