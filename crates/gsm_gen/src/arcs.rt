// The arcs of a trial network.
ghost use Rattle.std.specs.Prelude.{◌≡◌, ℕ, ◌+◌, ◌-◌, ◌<◌, ◌≤◌, [], length, OnOk, IfOk};
ghost use Rattle.service_model.specs.declared.limits.TheConstants.{MAX_STAGES};
ghost use Rattle.gsm_gen.specs.Draws.{HasTaken};
ghost use Rattle.gsm_gen.specs.Joins.{is_before, directed, HasEnds};
ghost use Rattle.gsm_gen.specs.Networks.{tree_word, tree_arcs, pair_word, with_pair, arcs_after};

use crate::draws::Draws;
use crate::joins::Joins;
use service_model::{List, NoMemory};
use std::alloc::Global;
use trial_rows::{TrialArc, TrialStage};

/// The arcs of the stages: a tree that joins them all, and the pairs that are drawn beside it.
pub fn draw_arcs(
    alloc: Global,
    draws: &mut Draws,
    stages: &[TrialStage],
    extra: u32,
) -> Result<List<TrialArc>, NoMemory>
    requires some { 1 ≤ length stages.now }
    requires few { length stages.now ≤ MAX_STAGES }
    ensures { (seed : ℕ) → HasTaken draws.old seed (tree_word stages.now) → IfOk result (λ arcs. arcs ≡ arcs_after seed stages.now extra) }
{
    let count = stages.len() as u32;
    let mut joins = Joins::new(alloc);
    draw_tree(draws, stages, count, &mut joins)?;
    draw_pairs(draws, stages, count, extra, &mut joins)?;
    Ok(joins.arcs)
}

// Joins each stage but the first to one of lower number.
fn draw_tree(
    draws: &mut Draws,
    stages: &[TrialStage],
    count: u32,
    joins: &mut Joins,
) -> Result<(), NoMemory>
    requires count { count ≡ length stages.now }
    requires some { 1 ≤ count }
    requires none { joins.old.arcs ≡ [] }
    requires ends { HasEnds joins.old }
    ensures arcs { (seed : ℕ) → HasTaken draws.old seed (tree_word stages.now) → OnOk result (joins.new.arcs ≡ tree_arcs seed stages.now (count - 1)) }
    ensures taken { (seed : ℕ) → HasTaken draws.old seed (tree_word stages.now) → OnOk result (HasTaken draws.new seed (pair_word stages.now 0)) }
    ensures ends { OnOk result (HasEnds joins.new) }
{
    'stages: for k in 1..count {
        let j = draws.draw(k);
        joins.add(directed(stages, j, k))?;
    }
    Ok(())
}

// Joins so many pairs of stages, where they are pairs and no arc joins them.
fn draw_pairs(
    draws: &mut Draws,
    stages: &[TrialStage],
    count: u32,
    extra: u32,
    joins: &mut Joins,
) -> Result<(), NoMemory>
    requires count { count ≡ length stages.now }
    requires some { 1 ≤ count }
    requires ends { HasEnds joins.old }
    ensures { (seed : ℕ) → HasTaken draws.old seed (pair_word stages.now 0) → joins.old.arcs ≡ arcs_after seed stages.now 0 → OnOk result (joins.new.arcs ≡ arcs_after seed stages.now extra) }
{
    'pairs: for e in 0..extra {
        let first = draws.draw(count);
        let second = draws.draw(count);
        add_pair(stages, first, second, joins)?;
    }
    Ok(())
}

// Joins two stages, unless they are one or an arc joins them.
#[tactic(auto, unfolding(crate::specs::Networks::with_pair))]
fn add_pair(
    stages: &[TrialStage],
    first: u32,
    second: u32,
    joins: &mut Joins,
) -> Result<(), NoMemory>
    requires first { first < length stages.now }
    requires second { second < length stages.now }
    requires ends { HasEnds joins.old }
    ensures arcs { OnOk result (joins.new.arcs ≡ with_pair stages.now joins.old.arcs first second) }
    ensures ends { OnOk result (HasEnds joins.new) }
{
    if first == second {
        return Ok(());
    }
    joins.add(directed(stages, first, second))
}

// The arc between two stages, from the one that comes before.
#[tactic(auto, unfolding(crate::specs::Joins::directed))]
fn directed(stages: &[TrialStage], i: u32, j: u32) -> TrialArc
    requires i { i < length stages.now }
    requires j { j < length stages.now }
    ensures { result ≡ directed stages.now i j }
{
    let (supplier, customer) = if is_before(stages, i, j) {
        (i, j)
    } else {
        (j, i)
    };
    TrialArc { supplier, customer }
}

// Whether a stage comes before another: by its rank, and among equal ranks by its number.
fn is_before(stages: &[TrialStage], i: u32, j: u32) -> bool
    requires i { i < length stages.now }
    requires j { j < length stages.now }
    ensures { result ≡ is_before stages.now i j }
{
    let first = stages[i as usize].rank;
    let second = stages[j as usize].rank;
    first < second || first == second && i < j
}
