// Stages and the arcs between them, which contracts see as they are.
ghost use Rattle.std.specs.Prelude.{◌≡◌};

use crate::{INF, List};

/// A stage. Times are whole periods, costs whole currency units.
#[derive(Drop)]
pub struct Stage {
    /// From the arrival of all inputs to the readiness of the output.
    pub lead: u16,
    /// The least inbound service time, for inputs from outside the network.
    pub supply: u16,
    /// The least outbound service time that the stage may quote.
    pub least: u16,
    /// The greatest outbound service time that the stage may quote.
    pub most: u16,
    /// The holding cost at each net replenishment time, from 0 on; `INF` where a time is not allowed.
    pub cost: List<u64>,
}

impl Stage {
    ghost use Rattle.service_model.specs.Plans.{charge, entry_of};

    // The cost at a net replenishment time.
    pub(crate) fn cost_at(&self, time: u32) -> u64
        ensures { result ≡ entry_of self.now.cost time }
    {
        if (time as usize) < self.cost.len() {
            *self.cost.get(time as usize)
        } else {
            INF
        }
    }

    // The cost at two service times.
    pub(crate) fn charge(&self, inbound: u16, outbound: u16) -> u64
        ensures { result ≡ charge self.now.lead self.now.cost inbound outbound }
    {
        let ready = inbound as u32 + self.lead as u32;
        if outbound as u32 <= ready {
            self.cost_at(ready - outbound as u32)
        } else {
            INF
        }
    }
}

/// A supplier serves a customer; both are numbers of stages, from 0 on.
#[derive(Clone, Copy, Debug, PartialEq, Eq)]
pub struct SupplyArc {
    pub supplier: u32,
    pub customer: u32,
    /// What is on its way for so many periods.
    pub transit: u16,
}
