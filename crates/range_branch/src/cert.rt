// The certificate of a search that ended.
ghost use Rattle.std.specs.Prelude.{◌≡◌, IfOk, IfSome};
ghost use Rattle.service_model.specs.Plans.{Feasible};
ghost use Rattle.service_model.specs.Verdicts.{ending_plan};
ghost use Rattle.range_splits.specs.Open.{ending_bound};
ghost use Rattle.range_branch.specs.Steps.{IsEnd};

use crate::progress::{Given, Progress};
use range_splits::ending_bound;
use service_model::{Cert, Head, List, NoMemory, Outcome, Plan, Table, Verdict};
use std::alloc::Global;
use table_pool::Pool;
use tree_tables::Filled;

// Equal tables, numbered as these are.
fn copies_of(alloc: Global, made: &[Filled]) -> Result<List<Table>, NoMemory>
    ensures { IfOk result (λ tables. tables ≡ made.now) }
{
    let mut tables = List::new(alloc);
    'tables: for filled in made {
        tables.push(filled.table().copy(alloc)?)?;
    }
    Ok(tables)
}

// The plan of a search that ends with the outcome.
fn ending_plan(outcome: Outcome, found: Option<Plan>) -> Option<Plan>
    ensures { result ≡ ending_plan outcome found }
{
    match outcome {
        Outcome::Optimal | Outcome::Spent => found,
        Outcome::Infeasible => None,
    }
}

/// The certificate of a search over these tables, which ends with the outcome at this least bound of a leaf.
pub fn cert_of(
    alloc: Global,
    given: &Given<'_>,
    pool: &Pool,
    progress: Progress,
    outcome: Outcome,
    least: u64,
) -> Result<Cert, NoMemory>
    requires { IfSome progress.found (Feasible given.now.network.now) }
    ensures { IfOk result (IsEnd given.now.network.now given.now.budget pool.now progress outcome
        (ending_bound outcome given.now.network.now progress.found least)) }
{
    let tables = copies_of(alloc, pool.filled())?;
    let bound = ending_bound(given.network, outcome, least, &progress.found);
    Ok(Cert {
        head: Head {
            horizon: given.network.horizon(),
            stages: given.network.stages().len() as u32,
            budget: given.budget,
        },
        tables,
        nodes: progress.nodes,
        splits: progress.splits,
        verdict: Verdict {
            outcome,
            bound,
            plan: ending_plan(outcome, progress.found),
        },
    })
}
