// The files of a trial network.
ghost use Rattle.std.specs.Prelude.{◌≡◌, ◌≤◌, None, IfOk};
ghost use Rattle.service_model.specs.declared.limits.TheConstants.{MAX_STAGES, MAX_HORIZON};
ghost use Rattle.stage_file.specs.Raw.{AreFiles};
ghost use Rattle.network_check.specs.Refusals.{IsFirstRefusal};
ghost use Rattle.gsm_gen.specs.Makes.{made_files, AreFew, AllowZero};

use crate::arcs::draw_arcs;
use crate::draws::Draws;
use crate::limits::{MAX_EXTRA, MAX_SEED};
use crate::stages::draw_stages;
use service_model::NoMemory;
use stage_file::Files;
use std::alloc::Global;
use trial_rows::files_of;

/// The files of the trial network of a seed, with so many stages: a tree of arcs joins them, and `extra` pairs of stages are drawn
/// beside it, of which those of two stages that no arc joins yet get one. The horizon, in periods, bounds the lead times.
pub fn make(
    alloc: Global,
    seed: u64,
    stages: u32,
    extra: u32,
    horizon: u16,
) -> Result<Files, NoMemory>
    requires seed { seed ≤ MAX_SEED }
    requires some { 1 ≤ stages }
    requires stages { stages ≤ MAX_STAGES }
    requires extra { extra ≤ MAX_EXTRA }
    requires horizon { horizon ≤ MAX_HORIZON }
    ensures value { IfOk result (λ files. files ≡ made_files seed stages extra horizon) }
    ensures passes { IfOk result (λ files. IsFirstRefusal horizon files None) }
    ensures feasible { IfOk result (AllowZero horizon stages) }
    ensures countable { IfOk result AreFiles }
    ensures few { IfOk result AreFew }
{
    let mut draws = Draws::of_seed(seed);
    let drawn = draw_stages(alloc, &mut draws, stages, horizon)?;
    let stages = drawn.as_slice();
    let arcs = draw_arcs(alloc, &mut draws, stages, extra)?;
    files_of(alloc, stages, arcs.as_slice())
}
