// The plan that the value of a root stands for.
ghost use Rattle.std.specs.Prelude.{◌≡◌, ◌<◌, length, slice_index};
ghost use Rattle.service_model.specs.Plans.{HasTimes};
ghost use Rattle.service_model.specs.Tables.{table_at};
ghost use Rattle.service_model.specs.Nodes.{below, AreTightBelow, IsOnce};
ghost use Rattle.gsm_laws.specs.Traces.{IsTraceOf};
ghost use Rattle.tree_tables.specs.Steps.{IsTraceable, with_times};

use crate::Filled;
use crate::places::child_place;
use crate::times::{Times, times_at};
use service_model::{INF, Kind, Network, Plan, Table};

/// Sets the times of the stages at and below a root so that they meet the arcs between its tables and cost its value.
pub fn trace(network: &Network, made: &[Filled], root: u32, plan: &mut Plan)
    requires kind { (table_at made.now root).kind ≡ Kind.Root }
    requires reached { slice_index (table_at made.now root).values 0 < INF }
    requires tight { AreTightBelow network.now made.now root }
    requires once { IsOnce made.now (below made.now root) }
    requires times { HasTimes network.now plan.old }
    ensures { IsTraceOf network.now made.now root 0 plan.old plan.new }
{
    set_below(network, made, root, 0, plan);
}

// Sets the times of the stages at and below a table so that they cost its value at a place. It goes as deep as tables hang
// below one another, so each turn keeps little.
fn set_below(network: &Network, made: &[Filled], i: u32, place: usize, plan: &mut Plan)
    requires { IsTraceable network.now made.now i place plan.old }
    ensures { IsTraceOf network.now made.now i place plan.old plan.new }
{
    let table = table_of(made, i);
    let times = times_at(network, made, table, place);
    set_times(plan, table.stage, times);
    'children: for c in table.children.as_slice() {
        let below = child_place(network, table_of(made, *c), table, times);
        set_below(network, made, *c, below, plan);
    }
}

fn table_of(made: &[Filled], i: u32) -> &Table
    requires { i < length made.now }
    ensures { result.now ≡ table_at made.now i }
{
    made[i as usize].table()
}

fn set_times(plan: &mut Plan, stage: u32, times: Times)
    requires inbound { stage < length plan.old.inbound }
    requires outbound { stage < length plan.old.outbound }
    ensures { plan.new ≡ with_times plan.old stage times.inbound times.outbound }
{
    plan.inbound.set(stage as usize, times.inbound);
    plan.outbound.set(stage as usize, times.outbound);
}
