// The answer of `clusters`.
ghost use Rattle.std.specs.Prelude.{◌≡◌, IfOk, None};
ghost use Rattle.network_check.specs.Checked.{IsChecked};
ghost use Rattle.planner_top.specs.Done.{IsClustered};
ghost use Rattle.planner_top.specs.Answers.{IsTextOf};

use crate::answer::{Answer, Ending};
use cluster_split::split_of;
use network_check::Checked;
use service_model::NoMemory;
use std::alloc::Global;
use stock_report::cluster_text;

/// The bridges and clusters of a network.
pub fn clusters_of(alloc: Global, checked: &Checked) -> Result<Answer, NoMemory>
    requires { IsChecked checked.now }
    ensures clustered { IfOk result (λ a. IsTextOf a.text (λ rows. IsClustered a.ending rows checked.now)) }
    ensures none { IfOk result (λ a. a.cert ≡ None) }
{
    let split = split_of(alloc, &checked.network)?;
    Ok(Answer {
        ending: Ending::Done,
        text: cluster_text(alloc, checked, &split.bridges, &split.clusters)?,
        cert: None,
    })
}
