// The rules on bounds by themselves.
ghost use Rattle.std.specs.Prelude.{◌≡◌, length};
ghost use Rattle.service_model.specs.Search.{first_of, first_below};
ghost use Rattle.stage_file.specs.Faults.{fault_of};
ghost use Rattle.demand_tables.specs.DemandFaults.{asks_customers, bound_rules, no_customers_at, no_table_at};

use crate::lookups::Lookups;
use stage_file::rules::{NO_CUSTOMERS, NO_TABLE};
use stage_file::{Bound, FileFault, FileKind, StageRow};

/// The first rule that fails: a bound names no table, or is made of the demands of customers that there are not.
// A `match`, since nothing would be known of what a closure over the look-ups answers.
pub fn bounds_fault(lookups: &Lookups) -> Option<FileFault>
    ensures { result ≡ first_of (bound_rules lookups.now.raw.now) }
{
    match no_table_fault(lookups) {
        Some(fault) => Some(fault),
        None => no_customers_fault(lookups),
    }
}

fn no_table_fault(lookups: &Lookups) -> Option<FileFault>
    ensures { result ≡ first_below (no_table_at lookups.now.raw.now) (length lookups.now.raw.now.stages) }
{
    let stages = &lookups.raw.stages;
    'stages: for j in 0..stages.len() {
        let stage = stages.get(j);
        if lookups.lacks_table(&stage.bound) {
            return Some(bound_fault(NO_TABLE, stage));
        }
    }
    None
}

fn no_customers_fault(lookups: &Lookups) -> Option<FileFault>
    ensures { result ≡ first_below (no_customers_at lookups.now.raw.now) (length lookups.now.raw.now.stages) }
{
    let stages = &lookups.raw.stages;
    'stages: for j in 0..stages.len() {
        let stage = stages.get(j);
        if asks_customers(&stage.bound) && lookups.arcs_from(j).is_empty() {
            return Some(bound_fault(NO_CUSTOMERS, stage));
        }
    }
    None
}

// Whether the bound is made of the customers' excess demands.
#[tactic(auto, unfolding(crate::specs::DemandFaults::asks_customers))]
fn asks_customers(bound: &Bound) -> bool
    ensures { result ≡ asks_customers bound.now }
{
    match bound {
        Bound::Named(_) | Bound::Normal(_) => false,
        Bound::Sum | Bound::Pool => true,
    }
}

/// A rule at the bound of a stage.
pub fn bound_fault(rule: u8, stage: &StageRow) -> FileFault
    ensures { result ≡ fault_of FileKind.Stages stage.now.row rule 6 }
{
    FileFault {
        file: FileKind::Stages,
        row: stage.row,
        rule,
        column: 6,
    }
}
