// The names of stages.
ghost use Rattle.std.specs.Prelude.{◌≡◌, ◌≢◌, IfOk, AllPairs};
ghost use Rattle.stage_file.specs.Arcs.{is_no_stage, names_of};

use crate::{Names, StageRow};
use service_model::{List, NoMemory};
use std::alloc::Global;

/// The names of the stages, in their order.
pub fn names_of(alloc: Global, stages: &List<StageRow>) -> Result<Names, NoMemory>
    requires { AllPairs (λ s t. s.name ≢ t.name) stages.now }
    ensures { IfOk result (λ names. names ≡ names_of stages.now) }
{
    let mut names = Names::new(alloc);
    'stages: for k in 0..stages.len() {
        names.push(stages.get(k).name.as_slice())?;
    }
    Ok(names)
}

/// Whether no stage has the name.
#[tactic(auto, unfolding(crate::specs::Arcs::is_no_stage))]
pub fn is_no_stage(names: &Names, name: &[u8]) -> bool
    ensures { result ≡ is_no_stage names.now name.now }
{
    names.place_of(name).is_none()
}
