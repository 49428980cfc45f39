// The arcs that lead to each stage.
ghost use Rattle.std.specs.Prelude.{◌≡◌, IfOk, [], replicate};
ghost use Rattle.service_model.specs.Networks.{IsNetwork};
ghost use Rattle.incumbent_repair.specs.Inputs.{HasInputs};

use service_model::{List, Network, NoMemory, SupplyArc};
use std::alloc::Global;

fn empty_lists(alloc: Global, stages: usize) -> Result<Vec<List<SupplyArc>>, NoMemory>
    ensures { IfOk result (λ lists. lists.items ≡ replicate stages []) }
{
    let mut lists = Vec::new(alloc);
    for _stage in 0..stages {
        lists.push(List::new(alloc))?;
    }
    Ok(lists)
}

/// For each stage the arcs that lead to it, by one pass over the arcs.
pub fn inputs_of(alloc: Global, network: &Network) -> Result<Vec<List<SupplyArc>>, NoMemory>
    ensures inputs { IfOk result (λ inputs. HasInputs network.now inputs.items) }
    ensures valid { IsNetwork network.now }
{
    let arcs = network.arcs();
    let mut inputs = empty_lists(alloc, network.stages().len())?;
    'arcs: for a in 0..arcs.len() {
        let arc = *arcs.get(a);
        inputs[arc.customer as usize].push(arc)?;
    }
    Ok(inputs)
}
