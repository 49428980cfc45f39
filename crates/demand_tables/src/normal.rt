// Excess demands of normal bounds.
ghost use Rattle.std.specs.Prelude.{IfOk};
ghost use Rattle.demand_tables.specs.Demand.{IsNormal};

use gsm_nums::root_up;
use service_model::{List, NoMemory};
use std::alloc::Global;

/// At each time up to the horizon the factor times the root of the time, rounded up.
pub fn normal_list(alloc: Global, horizon: u16, factor: u32) -> Result<List<u64>, NoMemory>
    ensures { IfOk result (IsNormal horizon factor) }
{
    let square = factor as u128 * factor as u128;
    let mut excess = List::new(alloc);
    'times: for time in 0..horizon as u32 + 1 {
        excess.push(root_up(square * time as u128))?;
    }
    Ok(excess)
}
