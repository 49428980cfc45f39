// The stages of a trial network.
ghost use Rattle.std.specs.Prelude.{◌≡◌, ℕ, ◌+◌, ◌*◌, OnOk, IfOk};
ghost use Rattle.gsm_gen.specs.Draws.{HasTaken};
ghost use Rattle.gsm_gen.specs.Networks.{drawn_stage, drawn_stages};

use crate::draws::Draws;
use crate::limits::{MOST_FACTOR, MOST_LEAD, MOST_UNIT, RANKS};
use service_model::{List, NoMemory};
use std::alloc::Global;
use trial_rows::TrialStage;

/// So many stages, drawn one after another by the first words.
pub fn draw_stages(
    alloc: Global,
    draws: &mut Draws,
    count: u32,
    horizon: u16,
) -> Result<List<TrialStage>, NoMemory>
    ensures stages { (seed : ℕ) → HasTaken draws.old seed 0 → IfOk result (λ stages. stages ≡ drawn_stages seed horizon count) }
    ensures taken { (seed : ℕ) → HasTaken draws.old seed 0 → OnOk result (HasTaken draws.new seed (4 * count)) }
{
    let mut stages = List::new(alloc);
    'stages: for k in 0..count {
        let stage = draw_stage(draws, horizon);
        stages.push(stage)?;
    }
    Ok(stages)
}

// A stage by the next four words.
fn draw_stage(draws: &mut Draws, horizon: u16) -> TrialStage
    ensures stage { (seed k : ℕ) → HasTaken draws.old seed (4 * k) → result ≡ drawn_stage seed horizon k }
    ensures taken { (seed k : ℕ) → HasTaken draws.old seed (4 * k) → HasTaken draws.new seed (4 * (k + 1)) }
{
    let most = if horizon < MOST_LEAD {
        horizon
    } else {
        MOST_LEAD
    };
    let rank = draws.draw(RANKS);
    let lead = draws.draw(u32::from(most) + 1) as u16;
    let factor = 1 + draws.draw(MOST_FACTOR);
    let unit = 1 + draws.draw(MOST_UNIT);
    TrialStage {
        rank,
        lead,
        factor,
        unit,
    }
}
