// The budget of ranges.
ghost use Rattle.std.specs.Prelude.{◌≡◌, ◌+◌, ◌≤◌, IfSome, IsTrue};
ghost use Rattle.network_check.specs.Budgets.{range_values, keeps_budget, IsDefaultBudget, IsBudgetOf};

use service_model::Network;
use service_model::cert_rules::MAX_BUDGET;
use stage_file::rules::BUDGET;
use stage_file::{FileFault, FileKind};

/// The most values that the tables of all ranges of a search may have, so that memory holds them.
pub const MOST_VALUES: u64 = 40_000_000;

/// The budget of ranges where none is asked and the limit allows it.
pub const DEFAULT_BUDGET: u32 = 1_000;

// The most values that the tables of a range have.
fn range_values(network: &Network) -> u64
    ensures value { result ≡ range_values network.now }
    ensures some { 1 ≤ result }
    ensures small { result ≤ MOST_VALUES }
{
    network.stages().len() as u64 * (network.horizon() as u64 + 1)
}

/// How many ranges a search may have: as many as are asked, or by default up to `DEFAULT_BUDGET`. What is asked is
/// refused where that many ranges may have too many values; that is a fault of the words, at no record and no column.
pub fn budget_of(network: &Network, asked: Option<u32>) -> Result<u32, FileFault>
    requires asked { IfSome asked (λ n. (1 ≤ n) × (n ≤ MAX_BUDGET)) }
    ensures { IsBudgetOf network.now asked result }
{
    match asked {
        None => Ok(default_budget(network)),
        Some(ranges) if keeps_budget(network, ranges) => Ok(ranges),
        Some(_) => Err(FileFault {
            file: FileKind::Words,
            row: 0,
            rule: BUDGET,
            column: 0,
        }),
    }
}

fn keeps_budget(network: &Network, ranges: u32) -> bool
    requires { ranges ≤ MAX_BUDGET }
    ensures { result ≡ keeps_budget network.now ranges }
{
    ranges as u64 * range_values(network) <= MOST_VALUES
}

fn default_budget(network: &Network) -> u32
    ensures { IsDefaultBudget network.now result }
{
    (MOST_VALUES / range_values(network)).min(DEFAULT_BUDGET as u64) as u32
}
