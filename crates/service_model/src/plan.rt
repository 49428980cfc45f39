// Plans, which contracts see as they are.
ghost use Rattle.std.specs.Prelude.{◌≡◌, IfOk};

use crate::{List, NoMemory};
use std::alloc::Global;

/// The service times of each stage, in the order of the stages and in whole periods.
#[derive(Drop)]
pub struct Plan {
    /// How long each stage waits for all its inputs.
    pub inbound: List<u16>,
    /// The time that each stage quotes to all its customers.
    pub outbound: List<u16>,
}

impl Plan {
    /// An equal plan.
    pub fn copy(&self, alloc: Global) -> Result<Plan, NoMemory>
        ensures { IfOk result (λ plan. plan ≡ self.now) }
    {
        Ok(Plan {
            inbound: List::copied(alloc, self.inbound.as_slice())?,
            outbound: List::copied(alloc, self.outbound.as_slice())?,
        })
    }
}
